// A line is read, and its call made.
ghost use Rattle.session.specs.Shown.{PlaysLine};

use crate::calls::on;
use crate::letter::Letter;
use crate::play_opening::play_opening;
use crate::reply::Reply;
use group::Group;
use lines::{Line, read_line};
use quorum::EitherRule;

pub(crate) fn play(group: &mut Option<Group<EitherRule>>, line: &[u8]) -> Reply
    ensures { PlaysLine group.old line.now group.new result }
{
    match read_line(line) {
        None => Reply::UNREADABLE,
        Some(Line::Open) => play_opening(group, line),
        Some(Line::Start(board)) => Reply {
            letter: Letter::Start,
            answer: on(group, board, |g| g.start(board)),
        },
        Some(Line::Carry(to, from, kind, value)) => Reply {
            letter: Letter::Carry,
            answer: on(group, to, |g| g.carry(to, from, kind, value)),
        },
        Some(Line::Forge(to, from, place)) => Reply {
            letter: Letter::Forge,
            answer: on(group, to, |g| g.forge(to, from, &line[place..])),
        },
    }
}
