// One turn of the board: what is answered to a frame line, and the frames that the board then posts.
ghost use Rattle.std.specs.Prelude.{◌≡◌, ◌≤◌};
ghost use Rattle.board_bench.specs.Turns.{Turned, meant};

use crate::answer::Answer;
use crate::posts::written;
use crate::said::read_said;
use board::Started;
use quorum::CountRule;
use wire::SLIP_MAX;

// The frames are lent in the caller's buffer, as `Slip::write` leaves them, and the end stays a number: a slice of the buffer, handed back,
// would end what a contract can say of the whole buffer after the call.
#[derive(Clone, Copy)]
pub struct Turn {
    pub answer: Answer,
    // how many bytes of the buffer are frames
    pub end: usize,
}

pub fn turn_with(board: &mut Started<CountRule>, line: &[u8], buf: &mut [u8; SLIP_MAX]) -> Turn
    ensures same { (board.new.rule ≡ board.old.rule) × (board.new.fitting ≡ board.old.fitting) }
    ensures turned { Turned (meant board.old.rule) board.old.fitting.fit board.old.state board.new.state result.answer result.end buf.new line.now }
    ensures within { result.end ≤ 855 }
{
    let Some((port, frame)) = read_said(line) else {
        return Turn {
            answer: Answer::Unreadable,
            end: 0,
        };
    };
    match board.take(port, frame) {
        Err(fault) => Turn {
            answer: Answer::Refused(fault.into()),
            end: 0,
        },
        Ok((how, slip)) => {
            let answer = Answer::Taken(how, slip.count());
            let end = written(slip, buf);
            Turn { answer, end }
        }
    }
}
