// The frames of a slip, as they stand in a buffer.
ghost use Rattle.std.specs.Prelude.{◌≡◌, ◌≤◌, length, Ok};
ghost use Rattle.wire.specs.Slips.{frames_of};
ghost use Rattle.wire.specs.Writes.{zero_filled};

use wire::{SLIP_MAX, Slip};

// Writes the slip, and answers how many bytes its frames have. An array of the caller's with its length beside, as `Slip::write` fills it: no heap is needed,
// and `buffer` says what the whole array holds, which it could not of a slice of it that is handed back.
pub fn written(mut slip: Slip, buf: &mut [u8; SLIP_MAX]) -> usize
    ensures value { result ≡ length (frames_of slip.posted) }
    ensures within { result ≤ 855 }
    ensures buffer { buf.new ≡ zero_filled (frames_of slip.posted) 855 }
{
    let Ok(end) = slip.write(buf) else {
        unreachable()
    };
    end
}
