// The record of a board, and how it counts a vote.
ghost use Rattle.std.specs.Prelude.{◌≡◌, ◌<◌, ◌≤◌, []};
ghost use Rattle.echo_board.specs.Laws.{EchoBoardKeeps};
ghost use Rattle.echo_board.specs.Records.{record_of, Counts};
ghost use Rattle.heard.specs.Limits.{max_characters, max_kind, KindUpTo};
ghost use Rattle.heard.specs.Shown.{setting_in};
ghost use Rattle.quorum.specs.Limits.{max_crew};
ghost use Rattle.vote.specs.Setting.{Setting};

use crate::findings::Findings;
use heard::Heard;
use quorum::FailureRule;
use vote::{News, Vote, Voting};

// What a board has counted, and what it holds of the tests: the values that it has echoed, its words of the kinds 2 to 5, and its decision.
#[derive(Clone, Copy)]
pub struct EchoRecord {
    pub(crate) heard: Heard,
    pub(crate) held: Findings,
}

// The bytes that a record takes.
pub const RECORD_SIZE: usize = size_of::<EchoRecord>();

// A record fits a cabinet, which has 256 bytes for it.
pub fn record_size() -> usize
    ensures fits { result ≤ 256 }
    ensures bytes { result ≡ 132 }
{
    RECORD_SIZE
}

impl EchoRecord {
    // Nothing is counted, and the starting character is echoed.
    #[tactic(auto, using(crate::proofs::Starts::start_echo, crate::proofs::Starts::start_is))]
    pub fn start(start: u8) -> EchoRecord
        requires { start ≤ max_characters }
        ensures { (S : Setting) → result ≡ record_of S start [] }
    {
        EchoRecord {
            heard: Heard::start(),
            held: Findings {
                echoes: 1 << start,
                second: None,
                third: None,
                fourth: None,
                fifth: None,
                decision: None,
            },
        }
    }

    // Counts the vote, unless it is counted already (None), makes the tests that have no answer yet and look at what the vote has changed, and says what is newly
    // posted. The other tests go on after the decision.
    pub fn count<R: FailureRule>(&mut self, voting: &Voting<R>, vote: Vote) -> Option<News>
        requires crew { (R.meaning voting.now.rule.now).crew ≤ max_crew }
        requires sender { vote.sender < (R.meaning voting.now.rule.now).crew }
        requires kind { KindUpTo max_kind vote.kind }
        requires value { vote.value ≤ voting.now.characters }
        ensures counts { Counts (setting_in voting.now) vote self.old self.new result }
        ensures keeps { EchoBoardKeeps (setting_in voting.now) }
    {
        if self.heard.repeats(vote) {
            return None;
        }
        self.heard.note(vote);
        let found = self.held.find(&self.heard, voting, vote);
        Some(self.held.remember(found))
    }
}
