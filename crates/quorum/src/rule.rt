// The failure rule: an interface that a harbour's own trouble can meet.
ghost use Rattle.std.specs.Prelude.{◌≡◌};
ghost use Rattle.quorum.specs.Rules.{Rule, Lawful};

// Which boards of a crew may fail together. What it answers is fixed by its meaning, so it is the same every time, and asking changes nothing.
pub trait FailureRule {
    ghost meaning: { Self → Rule };

    // How many boards the crew has.
    fn crew(&self) -> u8
        ensures { result ≡ (meaning self.now).crew };

    // How many sets of the family never hold the whole crew between them.
    fn cover(&self) -> u8
        ensures { result ≡ (meaning self.now).cover };

    // Whether the boards of the set may fail together.
    fn may_fail(&self, set: u16) -> bool
        ensures { result ≡ (meaning self.now).fails set };

    ghost lawful: { (x : Self) → Lawful (meaning x) };
}
