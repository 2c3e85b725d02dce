// Reads the lines of a session: which call one line writes, and by a call of its own, for a line that opens a group, what it asks for.
// Whether its numbers are in range, and what comes of the call, is left to the crates above.

#![tactic(auto)]

mod forge;
mod head;
mod line;
mod list;
mod numeric;
mod opening;
mod plan;
mod reading;
mod whole;

pub use line::Line;
pub use list::Numbers;
pub use opening::read_opening;
pub use plan::{By, Plan};
pub use reading::read_line;
