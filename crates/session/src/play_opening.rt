// A line that opens a group is read to its end, and the group opened.
ghost use Rattle.lines.specs.Lines.{opening_in};
ghost use Rattle.session.specs.Shown.{PlaysAs};

use crate::calls::open;
use crate::letter::Letter;
use crate::reply::Reply;
use group::Group;
use lines::read_opening;
use quorum::EitherRule;

// What the line does, if it opens a group. Apart from `play`, for speed: a function's locals are filled with zeros when it begins, and the plan and
// the new group are large. Never inlined, for speed too: with them in its frame, the loop of `bench` takes 2% more time, though 12 instructions less
// for each line.
#[inline(never)]
pub(crate) fn play_opening(group: &mut Option<Group<EitherRule>>, line: &[u8]) -> Reply
    ensures { PlaysAs group.old (opening_in line.now) group.new result }
{
    match read_opening(line) {
        None => Reply::UNREADABLE,
        Some(plan) => Reply {
            letter: Letter::from(plan.by),
            answer: open(group, &plan),
        },
    }
}
