// Why a rule cannot be made.
ghost use Rattle.std.specs.Prelude.{◌≡◌, None, Some, MatchResult};
ghost use Rattle.quorum.specs.Asked.{MarkedCases};
ghost use Rattle.quorum.specs.Faults.{number_of, refusal_of, size_fault};

use crate::limits::{MAX_COVER, MAX_CREW, MIN_COVER};
use refusal::Refusal;

// Each case is a number, the same wherever it is met.
#[derive(Clone, Copy, Debug, PartialEq, Eq)]
pub enum RuleFault {
    // The crew is empty, or larger than allowed.
    Crew = 1,
    // The cover is not among those allowed.
    Cover = 3,
    // There are too many listed sets, or one has a board outside the crew.
    Sets = 4,
    // As many sets that may fail as the cover says can hold the whole crew.
    WholeCrew = 5,
}

impl RuleFault {
    #[tactic(auto, using(crate::proofs::Table::marked_cases))]
    pub fn number(self) -> u8
        ensures value { result ≡ number_of self }
        ensures marked { MarkedCases }
    {
        self as u8
    }
}

// What is told of the fault; the layer follows from the number.
impl From<RuleFault> for Refusal {
    ghost from_gives = { λ e r. r ≡ refusal_of e };

    fn from(fault: RuleFault) -> Refusal {
        Refusal::numbered(fault.number())
    }
}

// What stands against a crew of this size and this cover, whatever the kind of the rule, if anything does.
pub fn size_fault(crew: u16, cover: u16) -> Option<RuleFault>
    ensures { result ≡ size_fault crew cover None }
{
    check_size(crew, cover).err()
}

// Refuses a size of the crew or a cover that is not allowed.
pub(crate) fn check_size(crew: u16, cover: u16) -> Result<(), RuleFault>
    ensures { MatchResult result (λ _. size_fault crew cover None ≡ None) (λ e. size_fault crew cover None ≡ Some e) }
{
    if !(1..=MAX_CREW as u16).contains(&crew) {
        return Err(RuleFault::Crew);
    }
    if !(MIN_COVER as u16..=MAX_COVER as u16).contains(&cover) {
        return Err(RuleFault::Cover);
    }
    Ok(())
}
