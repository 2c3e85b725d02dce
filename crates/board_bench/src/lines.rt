// The lines of the input, and those that are printed of a buffer.
ghost use Rattle.std.specs.Prelude.{◌≡◌, ◌<◌, length, IfSome};
ghost use Rattle.std.specs.Option.{option_map};
ghost use Rattle.board_bench.specs.Lines.{first_line};

use crate::place::place_of;

// The first line with its line feed, if it ends with one, and what follows it, if there are any bytes.
pub fn first_line(bytes: &[u8]) -> Option<(&[u8], &[u8])>
    ensures value { option_map (λ p. (p.0.now, p.1.now)) result ≡ first_line bytes.now }
    ensures shorter { IfSome result (λ p. length p.1.now < length bytes.now) }
{
    if bytes.is_empty() {
        return None;
    }
    match place_of(b'\n', bytes) {
        Some(place) => Some(bytes.split_at(place + 1)),
        None => Some((bytes, &[])),
    }
}
