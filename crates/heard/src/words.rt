// Tests 1 to 6: which words are to be posted once a vote is counted, where none was before.
ghost use Rattle.std.specs.Prelude.{◌≡◌, ℕ, ◌≤◌};
ghost use Rattle.heard.specs.Due.{echo_due, opens as opens_in, shared_due, third_due, outcome_due, fifth_due};
ghost use Rattle.heard.specs.Limits.{max_characters, max_kind, KindUpTo};
ghost use Rattle.heard.specs.Shown.{Makes, heard_of};
ghost use Rattle.agreement.specs.Echo.{parted as is_parted, second as second_of};
ghost use Rattle.vote.specs.History.{Seen};
ghost use Rattle.vote.specs.News.{values};

use crate::counted::Heard;
use crate::search::{lowest_ample, parted_among};
use quorum::{FailureRule, ample, has, strong};
use vote::{Vote, Voting};

impl Heard {
    // Whether the sender's opening bears the value of its vote: of an echo that is newly counted, whether it is the opening.
    #[tactic(auto, using(crate::proofs::Read::opens_at))]
    fn opens(&self, vote: Vote) -> bool
        requires { vote.value ≤ max_characters }
        ensures { (n : ℕ) (x : Seen) → self.now ≡ heard_of n x → result ≡ opens_in n vote x }
    {
        has(self.first[0].values[vote.value as usize], vote.sender)
    }

    // Whether for every value the senders with another opening are strong.
    fn parted<R: FailureRule>(&self, voting: &Voting<R>) -> bool
        ensures { Makes voting.now is_parted self.now result }
    {
        parted_among(voting, &self.first[0])
    }

    // Tests 1 and 2 once the echo is counted: the values to echo, as a set, without those that are echoed already.
    // To make test 1 for no value but the vote's, and test 2 only for an opening, takes some 52 instructions less for each line of `bench`.
    pub fn echoes<R: FailureRule>(&self, voting: &Voting<R>, vote: Vote, echoed: u16) -> u16
        requires { vote.value ≤ max_characters }
        ensures { Makes voting.now (λ S x. values (echo_due S vote echoed x)) self.now result }
    {
        let own = !has(echoed, vote.value) && strong(voting.rule, self.echoes[vote.value as usize]);
        let zero = !has(echoed, 0) && self.opens(vote) && self.parted(voting);
        (own as u16) << vote.value | zero as u16
    }

    // Test 3: the value of kind 2.
    #[tactic(auto, using(crate::proofs::Tested::second_made))]
    pub fn second<R: FailureRule>(&self, voting: &Voting<R>) -> Option<u8>
        ensures { Makes voting.now second_of self.now result }
    {
        lowest_ample(voting, &self.echoes, 0)
    }

    // The vote's value, where the vote is of this kind, a number as in a Vote, and the senders of its value are ample. Where a test so far found nothing, those of each other
    // value are too few: to ask for this one alone, in the tests 4 to 7, takes some 40 instructions less for each line of `bench`.
    #[tactic(auto, using(crate::proofs::Tested::shared_other))]
    pub(crate) fn shared<R: FailureRule>(
        &self,
        voting: &Voting<R>,
        vote: Vote,
        kind: u8,
    ) -> Option<u8>
        requires { KindUpTo max_kind kind × (vote.value ≤ max_characters) }
        ensures { Makes voting.now (λ S. shared_due S vote kind) self.now result }
    {
        if vote.kind != kind {
            return None;
        }
        let senders = self.first[kind as usize - 1].values[vote.value as usize];
        ample(voting.rule, senders).then_some(vote.value)
    }

    // Test 4, so far without an answer: the value of kind 3.
    #[tactic(auto, using(crate::proofs::Tested::third_two))]
    pub fn third<R: FailureRule>(&self, voting: &Voting<R>, vote: Vote) -> Option<u8>
        requires { vote.value ≤ max_characters }
        ensures { Makes voting.now (λ S. third_due S vote) self.now result }
    {
        if vote.kind == 2 {
            return self.shared(voting, vote, 2);
        }
        self.two_approved(voting).then_some(0)
    }

    // Test 5, so far without an answer: the outcome, which depth 1 decides and kind 4 bears at depth 2.
    #[tactic(auto, using(crate::proofs::Tested::outcome_late))]
    pub fn outcome<R: FailureRule>(&self, voting: &Voting<R>, vote: Vote) -> Option<u8>
        requires { vote.value ≤ max_characters }
        ensures { Makes voting.now (λ S. outcome_due S vote) self.now result }
    {
        if self.late(voting, self.first[2].all) {
            return Some(0);
        }
        self.shared(voting, vote, 3)
    }

    // Test 6, so far without an answer: the value of kind 5.
    pub fn fifth<R: FailureRule>(&self, voting: &Voting<R>, vote: Vote) -> Option<u8>
        requires { vote.value ≤ max_characters }
        ensures { Makes voting.now (λ S. fifth_due S vote) self.now result }
    {
        match self.shared(voting, vote, 4) {
            None => self.late(voting, self.first[3].all).then_some(0),
            shared => shared,
        }
    }
}
