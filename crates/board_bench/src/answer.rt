// What is answered to a line, and how the answer is written.
ghost use Rattle.std.specs.Prelude.{Some};
ghost use Rattle.board_bench.specs.Answers.{answer_line};

use board::Taken;
use refusal::Refusal;
use std::fmt;

// An enum and no Result: each case is one printed line, and none is handed on as an error.
#[derive(Clone, Copy)]
pub enum Answer {
    // the line is not of its form
    Unreadable,
    // what is told of a refusal: its number, and the byte of the frame where it is at fault
    Refused(Refusal),
    // the board is started, and posted so many words
    Started(usize),
    // the word is taken, and the board posted so many words
    Taken(Taken, usize),
}

impl fmt::Display for Answer {
    ghost output = { λ a. Some (answer_line a) };

    fn fmt<W: fmt::Write>(&self, f: &mut fmt::Formatter<W>) -> fmt::Result {
        match *self {
            Answer::Unreadable => write!(f, "unreadable"),
            Answer::Refused(refusal) => {
                let number = refusal.number;
                match refusal.place {
                    None => write!(f, "refused {number}"),
                    Some(place) => write!(f, "refused {number} at {place}"),
                }
            }
            Answer::Started(posted) => write!(f, "started {posted}"),
            Answer::Taken(Taken::Counted, posted) => write!(f, "counted {posted}"),
            Answer::Taken(Taken::Again, posted) => write!(f, "again {posted}"),
        }
    }
}
