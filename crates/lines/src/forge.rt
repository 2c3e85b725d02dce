// A line that has bytes forged: to, from, and the bytes.
ghost use Rattle.std.specs.Prelude.{◌≡◌, ◌≤◌, length, drop};
ghost use Rattle.lines.specs.Lines.{forged_in};
ghost use Rattle.lines.specs.Told.{call_of, Within};

use crate::line::Line;
use numerals::read_field;

// What follows the letter and its comma says it.
pub(crate) fn forge(line: &[u8]) -> Option<Line>
    requires { 2 ≤ length line.now }
    ensures call { call_of line.now result ≡ forged_in (drop 2 line.now) }
    ensures within { Within line.now result }
{
    let (to, rest) = read_field(&line[2..])?;
    let (from, forged) = read_field(rest)?;
    Some(Line::Forge(to, from, line.len() - forged.len()))
}
