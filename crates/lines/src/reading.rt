// Which call a line writes.
ghost use Rattle.std.specs.Prelude.{◌≡◌};
ghost use Rattle.lines.specs.Lines.{call_in};
ghost use Rattle.lines.specs.Marked.{MarkedCasesHold};
ghost use Rattle.lines.specs.Readable.{EachCallIsReadable};
ghost use Rattle.lines.specs.Texts.{Writes};
ghost use Rattle.lines.specs.Told.{call_of, Within};

use crate::forge::forge;
use crate::line::Line;
use crate::numeric::{carry, start};
use crate::whole::whole;

// By its letter, the call that the bytes write, if they are a whole line; what an opening asks for is left to `read_opening`.
// A match on the letter: what follows has another form for each.
#[tactic(auto, unfolding(crate::specs::Lines::call_in, crate::specs::Lines::opening_in))]
fn read(line: &[u8]) -> Option<Line>
    ensures call { call_of line.now result ≡ call_in line.now }
    ensures within { Within line.now result }
{
    let (letter, body) = whole(line)?;
    match letter {
        b'o' | b'g' => Some(Line::Open),
        b's' => start(body),
        b'c' => carry(body),
        b'f' => forge(line),
        _ => None,
    }
}

// The call that the bytes write, if they write one; of an opening only that it is one, if `read_opening` can read the rest. The line feed is the last
// byte of a line.
// It stands apart from `read`, so that the theorems are told once, and not at each of its returns.
#[tactic(auto, using(crate::proofs::Writing::told_writes, crate::proofs::Readable::each_call_is_readable, crate::proofs::MarkedCases::marked_cases_hold))]
pub fn read_line(line: &[u8]) -> Option<Line>
    ensures call { call_of line.now result ≡ call_in line.now }
    ensures within { Within line.now result }
    ensures a_readable_line_is_the_one_its_call_has { Writes line.now (call_of line.now result) }
    ensures each_call_is_readable { EachCallIsReadable }
    ensures the_marked_cases_hold { MarkedCasesHold }
{
    read(line)
}
