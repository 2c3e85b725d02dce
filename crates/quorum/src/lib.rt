// Sets of boards, and which boards of a crew may fail together.
//
// A set of boards is a number, to which board i adds 2 to the power i; `set` tests members, parts and crews. A failure rule says how many boards
// the crew has, which sets of them may fail together (the family), and how many sets of the family never hold the whole crew between them (the
// cover). `rule` is the interface, with its four laws; `count`, `listed` and `either` are the rules that this crate makes; `ask` says of a set, under
// any rule, whether it is strong or ample, with the facts that everything above rests on. Frames, votes and who sends what are left to others.

#![tactic(auto)]

pub mod ask;
pub mod count;
pub mod either;
pub mod fault;
pub mod limits;
pub mod listed;
pub mod rule;
mod set;

pub use ask::{ample, strong};
pub use count::{CountRule, count_fault};
pub use either::EitherRule;
pub use fault::{RuleFault, size_fault};
pub use limits::{MAX_COVER, MAX_CREW, MAX_LISTED, MIN_COVER};
pub use listed::{ListedRule, listed_fault};
pub use rule::FailureRule;
pub use set::{has, in_crew, part, without};
