// Reads fields straight from the bytes that a port brought.
ghost use Rattle.std.specs.Prelude.{◌≡◌, ℕ, ◌+◌, ◌*◌, ◌≤◌, length, IfOk};
ghost use Rattle.wire.specs.Fields.{within_16_bits, digits, zero_leads, field_at, after_byte, place_after};

use crate::fault::FrameFault;

// The bytes of a port, and the place up to which they are read.
#[derive(Clone, Copy)]
pub struct Reader<'a> {
    bytes: &'a [u8],
    place: usize,
    ghost inside: { place ≤ length bytes.now },
}

impl<'a> Reader<'a> {
    pub fn new(bytes: &'a [u8]) -> Reader<'a>
        ensures bytes { result.bytes.now ≡ bytes.now }
        ensures place { result.place ≡ 0 }
    {
        Reader { bytes, place: 0 }
    }

    // The number of the field that begins here, and the place after it, where the reader then is.
    // The range is two numbers: a `RangeInclusive` is not `Copy`, and says with a third field that it is used up.
    #[tactic(auto, using(crate::proofs::FieldRead::field_zero, crate::proofs::FieldRead::field_none))]
    #[inline(always)]
    pub fn field(&mut self, low: u16, high: u16) -> Result<(u16, usize), FrameFault>
        ensures value { result ≡ field_at self.old.bytes.now self.old.place low high }
        ensures range { IfOk result (λ x. (low ≤ x.0) × (x.0 ≤ high)) }
        ensures place { self.new.place ≡ place_after (λ x. x.1) result self.old.place }
        ensures same { self.new.bytes.now ≡ self.old.bytes.now }
    {
        let rest = &self.bytes[self.place..];
        if zero_leads(rest) {
            return Err(FrameFault::LeadingZero(self.place));
        }
        match digits(rest) {
            Some((_, 0)) => Err(FrameFault::NoDigit(self.place)),
            Some((number, len)) if (low..=high).contains(&number) => {
                self.place += len;
                Ok((number, self.place))
            }
            _ => Err(FrameFault::OutOfRange(self.place)),
        }
    }

    // Passes the byte that has to stand here, and answers the place after it.
    pub fn pass(&mut self, byte: u8) -> Result<usize, FrameFault>
        ensures value { result ≡ after_byte self.old.bytes.now self.old.place byte }
        ensures place { self.new.place ≡ place_after (λ x. x) result self.old.place }
        ensures same { self.new.bytes.now ≡ self.old.bytes.now }
    {
        if self.bytes.get(self.place) != Some(&byte) {
            return Err(FrameFault::WrongByte(self.place));
        }
        self.place += 1;
        Ok(self.place)
    }
}

// Whether a zero stands at the front, and another digit behind it.
fn zero_leads(bytes: &[u8]) -> bool
    ensures { result ≡ zero_leads bytes.now }
{
    match bytes {
        [b'0', next, ..] => next.is_ascii_digit(),
        _ => false,
    }
}

// The number that the longest run of digits at the front writes, and the run's length, where 16 bits hold the number.
#[tactic(auto, using(crate::proofs::Runs::beyond, crate::proofs::Runs::alone))]
fn digits(bytes: &[u8]) -> Option<(u16, usize)>
    ensures { result ≡ digits bytes.now }
{
    // One digit goes a way of its own. With the like of it in `put_field` it takes some 13 instructions less for each line of `bench`; it was 130 before
    // frames whose fields are one digit each had theirs (`short_frame`, `short_frame_of`).
    if let [first, second, ..] = bytes {
        if first.is_ascii_digit() && !second.is_ascii_digit() {
            return Some((u16::from(first - b'0'), 1));
        }
    }
    // one pass: `position` for the length and `try_fold` for the number would read each digit twice
    let mut number = 0;
    for (i, byte) in bytes.iter().enumerate() {
        if !byte.is_ascii_digit() {
            return Some((number, i));
        }
        number = with_digit(number, byte - b'0')?;
    }
    Some((number, bytes.len()))
}

// The number with a digit more behind it, where 16 bits hold it.
fn with_digit(number: u16, digit: u8) -> Option<u16>
    ensures { result ≡ within_16_bits (number * 10 + digit) (number * 10 + digit) }
{
    // tried with `checked_mul` and `checked_add`: 147 instructions a word more
    u16::try_from(number as u32 * 10 + digit as u32).ok()
}
