// What everything above asks of a rule: whether a set of boards is strong, and whether it is ample.
ghost use Rattle.std.specs.Prelude.{◌≡◌};
ghost use Rattle.quorum.specs.Facts.{StrongSetsHold, AmpleSetsShare};
ghost use Rattle.quorum.specs.Rules.{strong as is_strong, ample as is_ample};

use crate::limits::MAX_CREW;
use crate::rule::FailureRule;
use crate::set::outside;

// Whether, whatever fails together, some board of the set does not.
#[tactic(auto, unfolding(crate::specs::Rules::strong))]
pub fn strong<R: FailureRule>(rule: &R, set: u16) -> bool
    ensures value { result ≡ is_strong (R.meaning rule.now) set }
    ensures facts { StrongSetsHold (R.meaning rule.now) }
{
    !rule.may_fail(set)
}

// Whether all the boards outside the set may fail together, so that nobody need wait for more.
#[tactic(auto, using(crate::proofs::Sharing::ample_is, crate::proofs::Sharing::ample_none))]
pub fn ample<R: FailureRule>(rule: &R, set: u16) -> bool
    ensures value { result ≡ is_ample (R.meaning rule.now) set }
    ensures facts { AmpleSetsShare (R.meaning rule.now) }
{
    let crew = rule.crew();
    if crew > MAX_CREW {
        return false;
    }
    rule.may_fail(outside(crew, set))
}
