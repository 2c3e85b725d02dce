// Why a frame is not read, or not written.
ghost use Rattle.std.specs.Prelude.{◌≡◌};
ghost use Rattle.wire.specs.Faults.{refusal_of, fault, or_zero};

use refusal::Refusal;

#[derive(Clone, Copy, PartialEq, Eq, Debug)]
pub enum FrameFault {
    // no digit where a field begins
    NoDigit(usize),
    // a field begins with a zero that another digit follows
    LeadingZero(usize),
    // a field's number is out of its range
    OutOfRange(usize),
    // another byte than the one that has to follow a field, or none
    WrongByte(usize),
    // bytes after the line feed
    Trailing(usize),
    // a buffer too short for the frames to be written
    ShortBuffer,
}

// What is told of the fault. Number and place determine it.
impl From<FrameFault> for Refusal {
    ghost from_gives = { λ e r. (r ≡ refusal_of e) × (fault r.number (or_zero r.place) ≡ e) };

    fn from(fault: FrameFault) -> Refusal {
        let (number, place) = match fault {
            FrameFault::NoDigit(place) => (11, Some(place)),
            FrameFault::LeadingZero(place) => (12, Some(place)),
            FrameFault::OutOfRange(place) => (13, Some(place)),
            FrameFault::WrongByte(place) => (14, Some(place)),
            FrameFault::Trailing(place) => (15, Some(place)),
            FrameFault::ShortBuffer => (20, None),
        };
        Refusal {
            number,
            place,
            board: None,
        }
    }
}
