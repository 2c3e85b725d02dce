// A group: the boards of a harbour under one rule, opened together, started one by one, with posted words carried from board to board.
// What a board makes of a frame is told in the crates below; lines of text are left to the crates above.

#![tactic(auto)]

mod fault;
mod group;
mod limits;
mod opened;
mod opening;
mod playing;
mod records;
mod settled;
mod taking;
mod terms;
mod turn;

pub use fault::GroupFault;
pub use group::Group;
pub use limits::{BOARDS, SCRATCH};
pub use opening::{Opening, opening_fault};
pub use records::Records;
pub use terms::Terms;
pub use turn::{Done, Turn};
