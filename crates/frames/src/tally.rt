// How many pieces carried a word, and how many were refused.
ghost use Rattle.std.specs.Prelude.{◌≡◌, ℕ, ◌+◌};
ghost use Rattle.frames.specs.Tallies.{capped, noted};

#[derive(Clone, Copy, Default)]
pub struct Tally {
    pub words: u64,
    pub refused: u64,
}

impl Tally {
    pub fn new() -> Tally
        ensures { result ≡ record { words = 0; refused = 0 } }
    {
        Tally::default()
    }

    // One piece more. The counts stop at the largest number.
    pub fn note(&mut self, word: bool)
        ensures { self.new ≡ noted self.old word }
    {
        if word {
            self.words = self.words.saturating_add(1);
        } else {
            self.refused = self.refused.saturating_add(1);
        }
    }

    pub fn pieces(&self) -> u64
        ensures { result ≡ capped (self.now.words + self.now.refused) }
    {
        self.words.saturating_add(self.refused)
    }
}
