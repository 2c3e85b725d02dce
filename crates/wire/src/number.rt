// Numbers in base ten.
ghost use Rattle.std.specs.Prelude.{◌≡◌, ℕ, ◌≤◌, length, decimal};
ghost use Rattle.wire.specs.Frames.{field_bytes};
ghost use Rattle.wire.specs.Writes.{put_front};

use itoa::write_digits;

// How many digits the number has.
#[tactic(auto, using(crate::proofs::Widths::widths))]
pub(crate) fn width(number: u16) -> usize
    ensures value { result ≡ length (decimal number) }
    ensures bound { result ≤ 5 }
{
    // stays a table: tried with `checked_ilog10`, which proves, and costs 250 instructions more for each line of `bench`
    match number {
        0..=9 => 1,
        10..=99 => 2,
        100..=999 => 3,
        1000..=9999 => 4,
        _ => 5,
    }
}

// Puts the number and the byte that ends its field at the front, and answers how many bytes they are.
#[tactic(auto, using(crate::proofs::PutFront::put_byte, crate::proofs::PutFront::put_digit, crate::proofs::PutFront::digit_field, std::proofs::lemmas::List::length_push))]
#[inline(always)]
pub(crate) fn put_field(number: u16, end: u8, buf: &mut [u8]) -> usize
    requires { length (field_bytes number end) ≤ length buf.old }
    ensures value { result ≡ length (field_bytes number end) }
    ensures buffer { buf.new ≡ put_front (field_bytes number end) buf.old }
{
    // one digit goes a way of its own; `digits` tells what that gives
    if number < 10 {
        buf[0] = b'0' + number as u8;
        buf[1] = end;
        return 2;
    }
    let digits = width(number);
    write_digits(number as u64, buf, digits);
    buf[digits] = end;
    digits + 1
}
