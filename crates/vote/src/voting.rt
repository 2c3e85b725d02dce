// What is settled before a vote begins, and a look through the values under it.
ghost use Rattle.std.specs.Prelude.{◌≡◌, ℕ, suc, ◌≤◌, Bool, false};
ghost use Rattle.vote.specs.Limits.{max_characters};
ghost use Rattle.vote.specs.Search.{seek};

use crate::Depth;
use quorum::FailureRule;

// The failure rule, how many characters there are, and the depth. The rule has a cover, so that the empty set is not ample.
#[derive(Drop)]
pub struct Voting<'a, R: FailureRule> {
    pub rule: &'a R,
    pub characters: u8,
    pub depth: Depth,
    ghost few: { characters ≤ max_characters },
    ghost covers: { 1 ≤ (R.meaning rule.now).cover },
}

impl<'a, R: FailureRule> Voting<'a, R> {
    // The lowest value, 0 too, that passes.
    pub fn lowest<F: Fn(u8) -> bool>(&self, passes: F) -> Option<u8>
        requires { (v : ℕ) → v ≤ self.now.characters → F.pre passes v }
        ensures { (p : ℕ → Bool) → ((v : ℕ) (b : Bool) → v ≤ self.now.characters → F.post passes v b → b ≡ p v) → result ≡ seek (suc self.now.characters) p }
    {
        // Tried with `..=`: the library says by numbers what `find` meets in a Range, but of no RangeInclusive, so the proof did not close.
        (0..self.characters + 1).find(
            |&v|
                requires { F.pre passes v }
                ensures { F.post passes v result }
            { passes(v) },
        )
    }

    // The lowest character that passes: 0 is none.
    pub fn lowest_character<F: Fn(u8) -> bool>(&self, passes: F) -> Option<u8>
        requires { (v : ℕ) → v ≤ self.now.characters → F.pre passes v }
        ensures { (p : ℕ → Bool) → p 0 ≡ false → ((v : ℕ) (b : Bool) → 1 ≤ v → v ≤ self.now.characters → F.post passes v b → b ≡ p v) → result ≡ seek (suc self.now.characters) p }
    {
        self.lowest(
            |v|
                requires { F.pre passes v }
            { v != 0 && passes(v) },
        )
    }
}
