// Which values are approved: those with ample echo senders.
ghost use Rattle.std.specs.Prelude.{◌<◌, ◌≤◌, ◌&&◌};
ghost use Rattle.heard.specs.Due.{approves as approves_by};
ghost use Rattle.heard.specs.Limits.{max_characters};
ghost use Rattle.heard.specs.Shown.{Makes};
ghost use Rattle.agreement.specs.Echo.{two_approved, mixed as is_mixed};
ghost use Rattle.quorum.specs.Limits.{max_crew};
ghost use Rattle.quorum.specs.Rules.{ample as is_ample};

use crate::counted::Heard;
use crate::search::lowest_ample;
use quorum::{FailureRule, ample, without};
use vote::{ECHO, Vote, Voting};

impl Heard {
    // Whether the vote, which is counted, makes its value approved: it is an echo, and the senders of its value are ample, but not without its own. That an echo of a value that was approved
    // before makes no test due takes some 4 instructions less for each line of `bench`. The vote's numbers are asked to be good, as in `Tally::add`: a type of good votes would
    // be made of them at each call.
    #[tactic(auto, using(crate::proofs::Due::approves_other, crate::proofs::Due::approves_few, crate::proofs::Due::approves_made))]
    pub fn approves<R: FailureRule>(&self, voting: &Voting<R>, vote: Vote) -> bool
        requires { (vote.sender < max_crew) × (vote.value ≤ max_characters) }
        ensures { Makes voting.now (λ S. approves_by S vote) self.now result }
    {
        let senders = self.echoes[vote.value as usize];
        vote.kind == ECHO
            && ample(voting.rule, senders)
            && !ample(voting.rule, without(senders, 1 << vote.sender))
    }

    // Whether two values are approved.
    #[tactic(auto, using(vote::proofs::Seeking::seek_found, crate::proofs::Tested::two_made_none))]
    pub(crate) fn two_approved<R: FailureRule>(&self, voting: &Voting<R>) -> bool
        ensures { Makes voting.now two_approved self.now result }
    {
        match lowest_ample(voting, &self.echoes, 0) {
            None => false,
            Some(u) => lowest_ample(voting, &self.echoes, u + 1).is_some(),
        }
    }

    // Whether 0 is approved, or any two values are.
    #[tactic(auto, using(crate::proofs::Tested::mixed_by_zero, crate::proofs::Tested::mixed_by_two))]
    pub(crate) fn mixed<R: FailureRule>(&self, voting: &Voting<R>) -> bool
        ensures { Makes voting.now is_mixed self.now result }
    {
        ample(voting.rule, self.echoes[0]) || self.two_approved(voting)
    }

    // Whether it is mixed, and the senders, all of one kind, are ample.
    pub(crate) fn late<R: FailureRule>(&self, voting: &Voting<R>, senders: u16) -> bool
        ensures { Makes voting.now (λ S x. is_mixed S x && is_ample S.rule senders) self.now result }
    {
        ample(voting.rule, senders) && self.mixed(voting)
    }
}
