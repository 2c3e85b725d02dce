// A number that a comma ends.
ghost use Rattle.std.specs.Prelude.{◌≡◌, position, ◌==◌};
ghost use Rattle.std.specs.Option.{option_map};
ghost use Rattle.numerals.specs.Numerals.{comma};
ghost use Rattle.numerals.specs.Parts.{field_in};

use crate::digits::number;

fn first_comma(bytes: &[u8]) -> Option<usize>
    ensures { result ≡ position (λ b. b == comma) bytes.now }
{
    bytes.iter().position(|b| *b == b',')
}

// The number before the first comma, if the bytes begin so, and the bytes behind that comma.
pub fn read_field(bytes: &[u8]) -> Option<(u16, &[u8])>
    ensures { option_map (λ f. (f.0, f.1.now)) result ≡ field_in bytes.now }
{
    // nearly all numbers of a line are one digit, and this way takes some 60 instructions less for each line of `bench`
    if let [digit, b',', rest @ ..] = bytes {
        if digit.is_ascii_digit() {
            return Some((u16::from(digit - b'0'), rest));
        }
    }
    // no number has more than five digits
    let comma = first_comma(&bytes[..bytes.len().min(6)])?;
    Some((number(&bytes[..comma])?, &bytes[comma + 1..]))
}
