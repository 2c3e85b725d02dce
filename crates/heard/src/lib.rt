// What a board has counted, as sets of senders, and what the seven tests of the echo method make of it.
//
// `tally` keeps the senders of one kind, in a board of either method, `counted` all that is counted; `search` looks through the values; `approval` says what is approved and mixed, `words` makes
// the tests 1 to 6, and `verdict` the test 7, of the vote that is newly counted, where they have no answer yet. What a board remembers from one vote to the next is left to the crate
// above, and so are wrong numbers: whoever calls has checked that sender, kind and value are in range.

#![tactic(auto)]

pub mod approval;
pub mod counted;
pub mod search;
pub mod tally;
pub mod verdict;
pub mod words;

pub use counted::Heard;
pub use tally::Tally;
pub use verdict::decision;
pub use vote::{KINDS, MAX_CHARACTERS, VALUES};
