// The records of a group's boards, each at its number: none of a board that has not started. A call works on the one that it names.
use crate::limits::BOARDS;
use board::Record;

#[derive(Clone, Copy)]
pub struct Records {
    pub(crate) boards: [Option<Record>; BOARDS],
}
