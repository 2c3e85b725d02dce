// The count rule: any f boards of the crew may fail together.
ghost use Rattle.std.specs.Prelude.{◌≡◌, false, is_some};
ghost use Rattle.quorum.specs.Counting.{count_rule};
ghost use Rattle.quorum.specs.Faults.{count_fault, Made};
ghost use Rattle.quorum.specs.Good.{count_good};

use crate::fault::{RuleFault, check_size};
use crate::rule::FailureRule;
use crate::set::in_crew;

#[derive(Clone, Copy)]
pub struct CountRule {
    crew: u8,
    cover: u8,
    f: u16,
    ghost good: { is_some (count_fault crew cover f) ≡ false },
}

// What stands against a count rule of these numbers, the lowest number first, if anything does.
// The three stay loose: the struct that holds them together is the rule, which is made only where nothing stands against them.
// Beside `listed_fault`, as the two ask for other numbers: one function over both would first take an enum of them.
pub fn count_fault(crew: u16, cover: u16, f: u16) -> Option<RuleFault>
    ensures { result ≡ count_fault crew cover f }
{
    CountRule::new(crew, cover, f).err()
}

impl CountRule {
    pub fn new(crew: u16, cover: u16, f: u16) -> Result<CountRule, RuleFault>
        ensures { Made (count_fault crew cover f) (count_rule crew cover f) (λ x. count_rule x.crew x.cover x.f) result }
    {
        check_size(crew, cover)?;
        if cover as u32 * f as u32 >= crew as u32 {
            return Err(RuleFault::WholeCrew);
        }
        Ok(CountRule {
            crew: crew as u8,
            cover: cover as u8,
            f,
        })
    }
}

impl FailureRule for CountRule {
    ghost meaning = { λ x. count_rule x.crew x.cover x.f };

    ghost lawful = { λ x. count_good x.crew x.cover x.f x.good };

    fn crew(&self) -> u8 {
        self.crew
    }

    fn cover(&self) -> u8 {
        self.cover
    }

    fn may_fail(&self, set: u16) -> bool {
        set.count_ones() <= self.f as u32 && in_crew(self.crew, set)
    }
}
