// A board of the plain method: what it keeps of the words that it has counted, and what one word more makes of it.
//
// `tally` reads the senders of one kind of word, `stage` how far a board has come, `outcome` what a board with a fixed branch comes to, `posted` the words that it
// posts, and `record` the board's whole record with the step that counts a word. The contracts say, for every list of words counted before, that the record shows
// just what the method's definition makes of that list. Who may send what, frames, and boards that are joined to a group are left to others: a caller has
// checked a word before it is counted here.

#![tactic(auto)]

mod outcome;
mod posted;
pub mod record;
pub mod stage;
pub mod tally;

pub use record::PlainRecord;
pub use stage::Stage;
pub use tally::Tally;
