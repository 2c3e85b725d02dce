// What is held of the seven tests, and what those without an answer find now.
ghost use Rattle.std.specs.Prelude.{◌≡◌, ◌<◌, ◌≤◌, ◌||◌, ◌==◌, cond, None, Some, MatchOption};
ghost use Rattle.echo_board.specs.Steps.{completing, remembering, news_in};
ghost use Rattle.heard.specs.Limits.{max_characters};
ghost use Rattle.heard.specs.Shown.{heard_of, setting_in};
ghost use Rattle.quorum.specs.Limits.{max_crew};
ghost use Rattle.vote.specs.History.{Seen};

use crate::news::keep;
use heard::{Heard, decision};
use quorum::{FailureRule, without};
use vote::{Decision, Depth, ECHO, News, Vote, Voting};

// The values to echo, as a set, the values of the kinds 2 to 5, and the decision. The values stay four fields: each is the answer of another
// test, and an array by kind would put numbers in the place of their names.
#[derive(Clone, Copy)]
pub(crate) struct Findings {
    pub(crate) echoes: u16,
    pub(crate) second: Option<u8>,
    pub(crate) third: Option<u8>,
    pub(crate) fourth: Option<u8>,
    pub(crate) fifth: Option<u8>,
    pub(crate) decision: Option<Decision>,
}

// What is held, or else what is found, where the test is due: else it is not made, which saves its time. Tried with `or_else`, with a clause on the closure too: it
// takes an FnOnce, and of a test under a rule its contract then told nothing.
fn held_or<T, F: Fn() -> Option<T>>(held: Option<T>, due: bool, find: F) -> Option<T>
    requires { F.pre find }
    ensures { MatchOption held (cond due (F.post find result) (result ≡ None)) (λ x. result ≡ Some x) }
{
    match held {
        None if due => find(),
        held => held,
    }
}

// Whether a test of the votes of this kind, a number as in a Vote, is due: the vote is one of them, or makes its value approved.
fn is_due(approves: bool, vote: Vote, kind: u8) -> bool
    ensures { result ≡ (approves || vote.kind == kind) }
{
    approves || vote.kind == kind
}

// Whether the test 7 is due, which looks at votes of two kinds.
fn is_weighed(approves: bool, vote: Vote) -> bool
    ensures { result ≡ (approves || (vote.kind == 4 || vote.kind == 5)) }
{
    is_due(approves, vote, 4) || vote.kind == 5
}

impl Findings {
    // Makes the tests of which there is no answer yet and that look at something that the vote, which is counted, has changed.
    // At depth 1 the outcome decides, and there are no kinds 4 and 5.
    pub(crate) fn find<R: FailureRule>(
        &self,
        heard: &Heard,
        voting: &Voting<R>,
        vote: Vote,
    ) -> Findings
        requires { (vote.sender < max_crew) × (vote.value ≤ max_characters) }
        ensures { (x : Seen) → heard.now ≡ heard_of (R.meaning voting.now.rule.now).crew x → result ≡ completing (setting_in voting.now) vote x self.now }
    {
        let approves = heard.approves(voting, vote);
        let echoes = if vote.kind == ECHO {
            heard.echoes(voting, vote, self.echoes)
        } else {
            0
        };
        let second = held_or(self.second, approves, || heard.second(voting));
        let third = held_or(self.third, is_due(approves, vote, 2), || {
            heard.third(voting, vote)
        });
        match voting.depth {
            Depth::One => Findings {
                echoes,
                second,
                third,
                fourth: self.fourth,
                fifth: self.fifth,
                decision: held_or(self.decision, is_due(approves, vote, 3), || {
                    decision(1, heard.outcome(voting, vote))
                }),
            },
            Depth::Two => Findings {
                echoes,
                second,
                third,
                fourth: held_or(self.fourth, is_due(approves, vote, 3), || {
                    heard.outcome(voting, vote)
                }),
                fifth: held_or(self.fifth, is_due(approves, vote, 4), || {
                    heard.fifth(voting, vote)
                }),
                decision: held_or(self.decision, is_weighed(approves, vote), || {
                    heard.verdict(voting, vote)
                }),
            },
        }
    }

    // Keeps what is there, and otherwise what is found. So the first answer of a test stays, and a decision never changes.
    pub(crate) fn remember(&mut self, found: Findings) -> News
        ensures after { self.new ≡ remembering self.old found }
        ensures news { result ≡ news_in self.old found }
    {
        let echoes = without(found.echoes, self.echoes);
        self.echoes |= found.echoes;
        let second = keep(&mut self.second, found.second);
        let third = keep(&mut self.third, found.third);
        let fourth = keep(&mut self.fourth, found.fourth);
        let fifth = keep(&mut self.fifth, found.fifth);
        self.decision = self.decision.or(found.decision);
        News {
            kinds: [echoes, second, third, fourth, fifth],
        }
    }
}
