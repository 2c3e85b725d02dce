// What a board has counted: the senders of each echo, and of the first votes of each kind.
ghost use Rattle.std.specs.Prelude.{◌≡◌, ℕ, ◌<◌, List, [], ◌∷◌};
ghost use Rattle.heard.specs.Limits.{InRange};
ghost use Rattle.heard.specs.Masks.{noted};
ghost use Rattle.heard.specs.Repeats.{repeats as is_repeated};
ghost use Rattle.heard.specs.Shown.{heard_of};
ghost use Rattle.vote.specs.History.{seen};
ghost use Rattle.vote.specs.declared.Vote.{Vote};

use crate::tally::Tally;
use quorum::has;
use vote::{ECHO, KINDS, VALUES, Vote};

// An echo counts once for each sender and value, so its senders are kept beside the openings, which are the first votes of kind 1.
#[derive(Clone, Copy)]
pub struct Heard {
    pub(crate) echoes: [u16; VALUES],
    pub(crate) first: [Tally; KINDS],
}

impl Heard {
    // Nothing is counted.
    #[tactic(auto, using(crate::proofs::Grow::nothing_is))]
    pub fn start() -> Heard
        ensures { (n : ℕ) → result ≡ heard_of n (seen []) }
    {
        Heard {
            echoes: [0; VALUES],
            first: [Tally::empty(); KINDS],
        }
    }

    // Whether the vote is counted already. Its numbers stay a requirement with a name: a type of good votes would be made anew for each call from the three plain numbers.
    #[tactic(auto, using(crate::proofs::Grow::repeats_echo, crate::proofs::Grow::repeats_kind))]
    pub fn repeats(&self, vote: Vote) -> bool
        requires { InRange vote }
        ensures { (n : ℕ) (h : List Vote) → vote.sender < n → self.now ≡ heard_of n (seen h) → result ≡ is_repeated h vote }
    {
        if vote.kind == ECHO {
            has(self.echoes[vote.value as usize], vote.sender)
        } else {
            has(self.first[vote.kind as usize - 1].all, vote.sender)
        }
    }

    // The step on the sets alone. Tried as a part of `note`: `search` did not prove it of a history there.
    fn put(&mut self, vote: Vote)
        requires { InRange vote }
        ensures { self.new ≡ noted self.old vote }
    {
        self.first[vote.kind as usize - 1].add(vote.value, vote.sender);
        if vote.kind == ECHO {
            self.echoes[vote.value as usize] |= 1 << vote.sender;
        }
    }

    // Counts the vote.
    #[tactic(auto, using(crate::proofs::Grow::noted_is))]
    pub fn note(&mut self, vote: Vote)
        requires { InRange vote }
        ensures { (n : ℕ) (h : List Vote) → vote.sender < n → self.old ≡ heard_of n (seen h) → self.new ≡ heard_of n (seen (vote ∷ h)) }
    {
        self.put(vote);
    }
}
