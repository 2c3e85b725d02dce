// What an accepted call answers.
ghost use Rattle.std.specs.Prelude.{◌≡◌, ◌*◌, ◌≤◌, true, length, is_ok, IfOk, IfErr};
ghost use Rattle.wire.specs.Slips.{words_of};
ghost use Rattle.group.specs.Calls.{done_of, yield_of};

use crate::limits::SCRATCH;
use board::Taken;
use wire::{FrameFault, SLIP_MAX, Slip};

// Beside `Taken`, as a start is no frame that a board takes: with `Taken` inside, each answer would only be a name longer.
#[derive(Clone, Copy, PartialEq, Eq, Debug)]
pub enum Done {
    // the board has started
    Started,
    // the word is counted
    Counted,
    // the word was found counted already
    Again,
}

impl From<Taken> for Done {
    ghost from_gives = { λ t r. r ≡ done_of t };

    fn from(taken: Taken) -> Done {
        match taken {
            Taken::Counted => Done::Counted,
            Taken::Again => Done::Again,
        }
    }
}

// The frames of the words lie in the group's scratch, not here: 114 bytes more in each answer would be copied as it is handed on.
#[derive(Clone, Copy)]
pub struct Turn {
    pub done: Done,
    // how many words the call posted
    pub words: usize,
}

// Writes the slip into the scratch. A slip of more words than one counted word can post would not fit; then it is written elsewhere, and refused.
#[inline(always)]
pub(crate) fn written(
    done: Done,
    mut slip: Slip,
    scratch: &mut [u8; SCRATCH],
) -> Result<Turn, FrameFault>
    ensures value { IfOk result (λ t. record { turn = t; scratch = scratch.new } ≡ yield_of done slip.posted) }
    ensures kept { IfErr result (λ e. scratch.new ≡ scratch.old) }
    ensures fits { length (words_of slip.posted) * 19 ≤ 114 → is_ok result ≡ true }
{
    // most calls post nothing, and then there is nothing to count and to write
    if slip.is_empty() {
        *scratch = [0; SCRATCH];
        return Ok(Turn { done, words: 0 });
    }
    let words = slip.count();
    match slip.write(&mut scratch[..]) {
        Ok(_) => Ok(Turn { done, words }),
        Err(fault) => {
            let mut room = [0; SLIP_MAX];
            let Ok(_) = slip.write(&mut room) else {
                unreachable()
            };
            Err(fault)
        }
    }
}
