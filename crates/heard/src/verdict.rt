// Test 7: what is to be decided once a vote is counted, where nothing was before.
ghost use Rattle.std.specs.Prelude.{◌≡◌, ◌≤◌};
ghost use Rattle.heard.specs.Due.{held as held_in, verdict_due};
ghost use Rattle.heard.specs.Limits.{max_characters};
ghost use Rattle.heard.specs.Shown.{Makes};
ghost use Rattle.agreement.specs.Echo.{decides};

use crate::counted::Heard;
use crate::search::lowest_backed;
use quorum::FailureRule;
use vote::{Decision, Vote, Voting};

// What is decided for a value at a grade, a number as in a Decision: for 0 no character.
pub fn decision(grade: u8, outcome: Option<u8>) -> Option<Decision>
    ensures { result ≡ decides grade outcome }
{
    outcome.map(|value| Decision::graded(grade, value))
}

impl Heard {
    // What is decided at grade 1: if mixed and all senders of kind 5 are ample, the lowest backed character.
    #[tactic(auto, using(crate::proofs::Tested::held_made))]
    fn held<R: FailureRule>(&self, voting: &Voting<R>) -> Option<Decision>
        ensures { Makes voting.now held_in self.now result }
    {
        if !self.late(voting, self.first[4].all) {
            return None;
        }
        decision(
            1,
            lowest_backed(voting, &self.first[3].values, &self.first[4].values),
        )
    }

    // Test 7, so far without an answer: the vote's value where its senders of kind 5 are ample, a character at grade 2 before what is held, and 0, at no grade, after it.
    pub fn verdict<R: FailureRule>(&self, voting: &Voting<R>, vote: Vote) -> Option<Decision>
        requires { vote.value ≤ max_characters }
        ensures { Makes voting.now (λ S. verdict_due S vote) self.now result }
    {
        let own = decision(2, self.shared(voting, vote, 5));
        if vote.value != 0 && own.is_some() {
            return own;
        }
        self.held(voting).or(own)
    }
}
