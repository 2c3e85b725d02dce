// The calls on the group that is open, if one is.
ghost use Rattle.std.specs.Prelude.{◌≡◌, length};
ghost use Rattle.std.specs.Fn.{FnOnceReturnsAtMut};
ghost use Rattle.lines.specs.Calls.{opens};
ghost use Rattle.lines.specs.Told.{opening_of, starts_of};
ghost use Rattle.group.specs.Calls.{Call};
ghost use Rattle.session.specs.Shown.{MakesCall, PlaysCall, PlaysOn};

use crate::fault::SessionFault;
use crate::opened::opened;
use crate::reply::Played;
use group::{Group, GroupFault, Turn};
use lines::Plan;
use quorum::EitherRule;

// Makes the call on the group that is open, and tells what the board that the call names first has decided.
pub(crate) fn on<F: FnOnce(&mut Group<EitherRule>) -> Result<Turn, GroupFault>>(
    group: &mut Option<Group<EitherRule>>,
    board: u16,
    call: F,
) -> Result<Played, SessionFault>
    requires { F.IsAlwaysCallable call }
    ensures { (x : Call) → MakesCall (FnOnceReturnsAtMut F.FnOnce call) x → PlaysOn group.old x board group.new result }
{
    let group = group
        .as_mut()
        .ok_or(SessionFault::Group(GroupFault::NoGroup))?;
    let turn = call(group)?;
    Ok(Played {
        words: turn.words,
        decision: group.decided(board),
    })
}

// Opens a group in the place of the one before, if there was one.
pub(crate) fn open(
    group: &mut Option<Group<EitherRule>>,
    plan: &Plan,
) -> Result<Played, SessionFault>
    requires { length (starts_of plan.now) ≡ plan.now.crew }
    ensures { PlaysCall group.old (opens (opening_of plan.now)) group.new result }
{
    opened(group, plan)?;
    Ok(Played {
        words: 0,
        decision: None,
    })
}
