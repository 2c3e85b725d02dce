// A session: lines that open a harbour's group and call on it, played one after the other.
// What a line says is told in `lines`, what a call does in `group`; input and output are left to the programs.

#![tactic(auto)]

mod calls;
mod fault;
mod gather;
mod letter;
mod opened;
mod opening;
mod play_opening;
mod played;
mod reply;
mod session;

pub use fault::SessionFault;
pub use gather::{Gathered, ROOM};
pub use letter::Letter;
pub use reply::{Played, Reply};
pub use session::Session;
