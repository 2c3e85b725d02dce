// A rule of either kind, for who must choose the kind at run time.
ghost use Rattle.std.specs.Prelude.{◌≡◌};
ghost use Rattle.fixed.specs.Items.{items_of};
ghost use Rattle.quorum.specs.Counting.{count_rule};
ghost use Rattle.quorum.specs.Faults.{count_fault, listed_fault, Made};
ghost use Rattle.quorum.specs.Listing.{listed_rule};
ghost use Rattle.quorum.specs.Meaning.{either_rule};
ghost use Rattle.quorum.specs.declared.either.EitherRule.TheVariants.{Count, Listed};
ghost use Rattle.quorum.specs.Good.{count_good, listed_good};

use crate::count::CountRule;
use crate::fault::RuleFault;
use crate::listed::ListedRule;
use crate::rule::FailureRule;

#[derive(Clone, Copy)]
pub enum EitherRule {
    Count(CountRule),
    Listed(ListedRule),
}

// Two calls, and no one over the kind: each kind is asked for by other numbers.
impl EitherRule {
    pub fn count(crew: u16, cover: u16, f: u16) -> Result<EitherRule, RuleFault>
        ensures { Made (count_fault crew cover f) (count_rule crew cover f) either_rule result }
    {
        Ok(EitherRule::Count(CountRule::new(crew, cover, f)?))
    }

    pub fn listed(crew: u16, cover: u16, sets: &[u16]) -> Result<EitherRule, RuleFault>
        ensures { Made (listed_fault crew cover sets.now) (listed_rule crew cover sets.now) either_rule result }
    {
        Ok(EitherRule::Listed(ListedRule::new(crew, cover, sets)?))
    }
}

impl FailureRule for EitherRule {
    ghost meaning = { either_rule };

    ghost lawful = { elim [
      | Count x ↦ count_good x.crew x.cover x.f x.good
      | Listed x ↦ listed_good x.crew x.cover (items_of x.sets) x.good
    ] };

    // stays a match for each question: one function that hands out the rule inside as a `dyn` is refused
    fn crew(&self) -> u8 {
        match self {
            EitherRule::Count(rule) => rule.crew(),
            EitherRule::Listed(rule) => rule.crew(),
        }
    }

    fn cover(&self) -> u8 {
        match self {
            EitherRule::Count(rule) => rule.cover(),
            EitherRule::Listed(rule) => rule.cover(),
        }
    }

    fn may_fail(&self, set: u16) -> bool {
        match self {
            EitherRule::Count(rule) => rule.may_fail(set),
            EitherRule::Listed(rule) => rule.may_fail(set),
        }
    }
}
