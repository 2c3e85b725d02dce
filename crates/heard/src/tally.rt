// Who has voted what in one kind, where only the first vote of a sender counts.
ghost use Rattle.std.specs.Prelude.{◌≡◌, ℕ, ◌<◌, ◌≤◌, None};
ghost use Rattle.heard.specs.Masks.{added, others as others_of};
ghost use Rattle.heard.specs.Shown.{tally_of};
ghost use Rattle.quorum.specs.Limits.{max_crew};
ghost use Rattle.vote.specs.Limits.{max_characters};

use quorum::{has, without};
use vote::VALUES;

// The senders by the value of their first vote, and all of them, as sets of boards.
#[derive(Clone, Copy)]
pub struct Tally {
    pub values: [u16; VALUES],
    pub all: u16,
}

impl Tally {
    // Nobody has voted.
    #[tactic(auto, using(crate::proofs::Grow::nobody_is))]
    pub fn empty() -> Tally
        ensures { (n : ℕ) → result ≡ tally_of n (λ i. None) }
    {
        Tally {
            values: [0; VALUES],
            all: 0,
        }
    }

    // Notes the sender's vote, unless it is not its first.
    pub fn add(&mut self, value: u8, sender: u8)
        requires { (value ≤ max_characters) × (sender < max_crew) }
        ensures { self.new ≡ added self.old value sender }
    {
        if !has(self.all, sender) {
            self.values[value as usize] |= 1 << sender;
            self.all |= 1 << sender;
        }
    }

    // The senders whose first vote bears another value.
    pub(crate) fn others(&self, value: u8) -> u16
        requires { value ≤ max_characters }
        ensures { result ≡ others_of self.now value }
    {
        without(self.all, self.values[value as usize])
    }
}
