// What a board says, decides and orders: the plain data of the vote, and, in specs/, what a board has counted, as a list, and what a method is.
// `conversions` makes a method and a depth of what stands for them, `graded` a decision of a value, `limits` has the sizes, `posted` makes the news of one word, and `voting` is what is settled before a vote.
// How a board stores what it has counted, how words travel and how boards are joined is left to the crates above.

#![tactic(auto)]

pub mod conversions;
pub mod graded;
pub mod limits;
pub mod posted;
pub mod voting;

pub use conversions::{UnknownDepth, UnknownMethod};
pub use limits::{ECHO, KINDS, MAX_CHARACTERS, VALUES};
pub use voting::Voting;

// One word as a board counts it. Group and change are the board's own.
// The kind stays a number: the methods are defined for all numbers, and a kind that there is not is refused above, not ruled out by its type.
#[derive(Clone, Copy, PartialEq, Eq, Debug)]
pub struct Vote {
    pub sender: u8,
    pub kind: u8,
    pub value: u8,
}

// A character with a grade from 1 to the depth, or (0, 0) for no character.
// It stays no Option: to decide for no character is a decision, and the replies of a session and the lines of a benchmark tell what is decided as these two numbers.
#[derive(Clone, Copy, PartialEq, Eq, Debug)]
pub struct Decision {
    pub value: u8,
    pub grade: u8,
}

// How many grades there are.
#[derive(Clone, Copy, PartialEq, Eq, Debug)]
pub enum Depth {
    One,
    Two,
}

// Plain: boards only fall silent. Echo: listed boards may say anything.
#[derive(Clone, Copy, PartialEq, Eq, Debug)]
pub enum Method {
    Plain,
    Echo,
}

// The words that a board has newly posted: for each kind, from 1 on, the set of their values, to which value v adds 2 to the power v.
#[derive(Clone, Copy, Debug)]
pub struct News {
    pub kinds: [u16; KINDS],
}
