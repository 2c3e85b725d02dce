// A line opens a group, or what stands against it is told, by rising number across rule and group.
ghost use Rattle.std.specs.Prelude.{◌≡◌, length};
ghost use Rattle.lines.specs.Told.{opening_of, starts_of};
ghost use Rattle.session.specs.Shown.{OpensIn};

use crate::fault::SessionFault;
use crate::opening::{asked, check_sizes, rule};
use group::Group;
use lines::Plan;
use quorum::EitherRule;

// A group that is open is opened anew where it lies, for speed: a new one is moved with its sixteen records at each step up.
pub(crate) fn opened(group: &mut Option<Group<EitherRule>>, plan: &Plan) -> Result<(), SessionFault>
    requires { length (starts_of plan.now) ≡ plan.now.crew }
    ensures { OpensIn (opening_of plan.now) group.old group.new result }
{
    check_sizes(plan)?;
    let rule = rule(plan)?;
    let opening = asked(plan);
    match group {
        Some(group) => group.reopen(rule, &opening)?,
        None => *group = Some(Group::open(rule, &opening)?),
    }
    Ok(())
}
