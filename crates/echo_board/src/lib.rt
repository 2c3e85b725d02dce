// The record of one board of the echo method: what it has counted, posted and decided, in a struct of fixed size.
//
// `board` is the record and the step that counts a vote; `findings` is what it holds of the tests, and makes of what is counted those that have no answer yet; `news` puts words into sets of values; `posted` answers what
// a record holds. A record shows a history, the votes counted so far, and every contract says so: where it shows one at entry, it shows it with the new vote at exit.
// Wrong numbers are refused by whoever calls, and how words travel is left to others too.

#![tactic(auto)]

pub mod board;
pub mod findings;
pub mod news;
pub mod posted;

pub use board::EchoRecord;
pub use news::first_news;
