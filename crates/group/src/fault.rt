// Why a group is not opened, or a call on it is refused.
ghost use Rattle.std.specs.Prelude.{◌≡◌};
ghost use Rattle.group.specs.Faults.{refusal_of};
ghost use Rattle.board.specs.declared.fault.BoardFault.TheVariants.{Frame};
ghost use Rattle.group.specs.declared.fault.GroupFault.TheVariants.{Board, Opening};

use board::BoardFault;
use refusal::Refusal;
use wire::FrameFault;

#[derive(Clone, Copy, PartialEq, Eq, Debug)]
pub enum GroupFault {
    // what stands against the settings of an opening
    Opening(BoardFault),
    // no group is open
    NoGroup,
    // a board that is named is not of the crew
    Outside,
    // in the echo method a listed board is named where only a steady one can stand
    Listed,
    // the board has started already
    Begun,
    // the board that takes the frame, or the one that posted the word, has not started
    Idle,
    // forged in the plain method, or by a board that is not listed
    Unlisted,
    // the word is not posted
    Unposted,
    // the set listed bad may not fail together
    Family,
    // what this board refuses
    Board(u8, BoardFault),
}

// What is told of the fault.
impl From<GroupFault> for Refusal {
    ghost from_gives = { λ e r. r ≡ refusal_of e };

    fn from(fault: GroupFault) -> Refusal {
        let number = match fault {
            GroupFault::Opening(fault) => return Refusal::from(fault),
            GroupFault::Board(board, fault) => return Refusal::from(fault).passed_on(board),
            GroupFault::NoGroup => 21,
            GroupFault::Outside => 22,
            GroupFault::Listed => 23,
            GroupFault::Begun => 24,
            GroupFault::Idle => 25,
            GroupFault::Unlisted => 26,
            GroupFault::Unposted => 27,
            GroupFault::Family => 28,
        };
        Refusal::numbered(number)
    }
}

// What a board could not be fitted with, no group is opened with.
impl From<BoardFault> for GroupFault {
    ghost from_gives = { λ e r. r ≡ Opening e };

    fn from(e: BoardFault) -> GroupFault {
        GroupFault::Opening(e)
    }
}

// What comes up from a board keeps number and place, and gets the board's number. As in `board`, where it is a frame's fault: an impl names its types.
impl From<(u8, BoardFault)> for GroupFault {
    ghost from_gives = { λ e r. r ≡ Board e.0 e.1 };

    fn from(e: (u8, BoardFault)) -> GroupFault {
        GroupFault::Board(e.0, e.1)
    }
}

// The same of a frame that the board itself could not write.
impl From<(u8, FrameFault)> for GroupFault {
    ghost from_gives = { λ e r. r ≡ Board e.0 (Frame e.0 e.1) };

    fn from(e: (u8, FrameFault)) -> GroupFault {
        GroupFault::Board(e.0, BoardFault::from(e))
    }
}
