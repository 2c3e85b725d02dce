// The wire: words as frames, frames as words, and the slips that carry words out.
// What a word means, who may say it and what is made of it is left to the crates above.

#![tactic(auto)]

mod fault;
mod frame;
mod frames;
mod limits;
mod number;
mod posted;
mod reader;
mod slip;
mod word;
mod write;

pub use fault::FrameFault;
pub use frame::read_frame;
pub use limits::{FRAME_MAX, MAX_ID, MAX_KIND, MAX_SENDER, MAX_VALUE, SLIP_MAX};
pub use posted::{KINDS, Posted};
pub use reader::Reader;
pub use slip::Slip;
pub use word::Word;
pub use write::write_word;
