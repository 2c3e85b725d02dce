// Why a line of a session is refused.
ghost use Rattle.std.specs.Prelude.{◌≡◌};
ghost use Rattle.session.specs.Faults.{refusal_of};
ghost use Rattle.session.specs.declared.fault.SessionFault.TheVariants.{Rule, Group};

use group::GroupFault;
use quorum::RuleFault;
use refusal::Refusal;

#[derive(Clone, Copy, PartialEq, Eq, Debug)]
pub enum SessionFault {
    // no call can be read from the line
    Unreadable,
    // what stands against the rule that the line asks for
    Rule(RuleFault),
    // what stands against the opening, or what the group refuses
    Group(GroupFault),
}

// What is told of the fault.
impl From<SessionFault> for Refusal {
    ghost from_gives = { λ e r. r ≡ refusal_of e };

    fn from(e: SessionFault) -> Refusal {
        match e {
            SessionFault::Unreadable => Refusal::numbered(29),
            SessionFault::Rule(fault) => Refusal::from(fault),
            SessionFault::Group(fault) => Refusal::from(fault),
        }
    }
}

impl From<RuleFault> for SessionFault {
    ghost from_gives = { λ e r. r ≡ Rule e };

    fn from(e: RuleFault) -> SessionFault {
        SessionFault::Rule(e)
    }
}

impl From<GroupFault> for SessionFault {
    ghost from_gives = { λ e r. r ≡ Group e };

    fn from(e: GroupFault) -> SessionFault {
        SessionFault::Group(e)
    }
}
