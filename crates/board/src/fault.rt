// Why a board is not fitted, or does not take a frame.
ghost use Rattle.std.specs.Prelude.{◌≡◌};
ghost use Rattle.board.specs.Faults.{refusal_of};
ghost use Rattle.board.specs.declared.fault.BoardFault.TheVariants.{Frame};

use refusal::Refusal;
use wire::FrameFault;

#[derive(Clone, Copy, PartialEq, Eq, Debug)]
pub enum BoardFault {
    // the rule's crew has not 1 to 16 boards
    Crew,
    // not 1 to 8 characters
    Characters,
    // the depth is not 1 or 2
    Depth,
    // the rule's cover is not 2 or 3
    Cover,
    // the echo method under a cover of 2
    EchoCover,
    // the board is not of the crew
    Board,
    // the group or the change is outside 1 to 65535
    Address,
    // the starting character is not one of those there are
    Start,
    // the port is of no board of the crew
    Port,
    // the frame of this board's port is at fault
    Frame(u8, FrameFault),
    // the word is of another group or change
    Elsewhere,
    // the sender is not the port
    Sender,
    // the method does not use the kind at this depth
    Kind,
    // the value is above the characters, or 0 where a character has to stand
    Value,
}

// What is told of the fault.
impl From<BoardFault> for Refusal {
    ghost from_gives = { λ e r. r ≡ refusal_of e };

    fn from(fault: BoardFault) -> Refusal {
        let number = match fault {
            BoardFault::Crew => 1,
            BoardFault::Characters => 2,
            BoardFault::Depth | BoardFault::Cover => 3,
            BoardFault::EchoCover => 6,
            BoardFault::Board => 7,
            BoardFault::Address => 8,
            BoardFault::Start => 9,
            BoardFault::Port => 10,
            BoardFault::Elsewhere => 16,
            BoardFault::Sender => 17,
            BoardFault::Kind => 18,
            BoardFault::Value => 19,
            BoardFault::Frame(board, fault) => return Refusal::from(fault).passed_on(board),
        };
        Refusal::numbered(number)
    }
}

// What comes up from a frame keeps number and place, and gets the board's number.
impl From<(u8, FrameFault)> for BoardFault {
    ghost from_gives = { λ e r. r ≡ Frame e.0 e.1 };

    fn from(e: (u8, FrameFault)) -> BoardFault {
        BoardFault::Frame(e.0, e.1)
    }
}
