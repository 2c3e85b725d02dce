// Lines of a letter and numbers alone.
ghost use Rattle.std.specs.Prelude.{◌≡◌, ℕ, List, [], ◌∷◌, Some, IfSome};
ghost use Rattle.lines.specs.Lines.{readable, start_with, carry_with};
ghost use Rattle.lines.specs.Told.{call_of, Within};
ghost use Rattle.numerals.specs.Numerals.{numbers_in};

use crate::line::Line;
use numerals::{number, read_field};

pub(crate) fn start(body: &[u8]) -> Option<Line>
    ensures call { (line : List ℕ) → call_of line result ≡ readable (numbers_in body.now) start_with }
    ensures within { (line : List ℕ) → Within line result }
{
    Some(Line::Start(number(body)?))
}

// The four numbers that the bytes write where each is one digit: nearly all carries are such, and this way takes some 15 instructions less for each
// line of `bench`.
#[tactic(auto, using(crate::proofs::ShortNumbers::four_digits_read))]
#[inline(always)]
fn four_digits(body: &[u8]) -> Option<(u16, u16, u16, u16)>
    ensures { IfSome result (λ ns. numbers_in body.now ≡ Some (ns.0 ∷ ns.1 ∷ ns.2 ∷ ns.3 ∷ [])) }
{
    let [
        to @ b'0'..=b'9',
        b',',
        from @ b'0'..=b'9',
        b',',
        kind @ b'0'..=b'9',
        b',',
        value @ b'0'..=b'9',
    ] = body
    else {
        return None;
    };
    Some((
        (to - b'0') as u16,
        (from - b'0') as u16,
        (kind - b'0') as u16,
        (value - b'0') as u16,
    ))
}

// Four reads one after the other: no list of sixty numbers is filled for four, and nearly all lines of a session are of this kind.
pub(crate) fn carry(body: &[u8]) -> Option<Line>
    ensures call { (line : List ℕ) → call_of line result ≡ readable (numbers_in body.now) carry_with }
    ensures within { (line : List ℕ) → Within line result }
{
    if let Some((to, from, kind, value)) = four_digits(body) {
        return Some(Line::Carry(to, from, kind, value));
    }
    let (to, rest) = read_field(body)?;
    let (from, rest) = read_field(rest)?;
    let (kind, rest) = read_field(rest)?;
    Some(Line::Carry(to, from, kind, number(rest)?))
}
