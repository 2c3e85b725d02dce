// The sizes that this crate allows. specs/Limits.antt says the same to the contracts, and a check refuses a crate where the two differ.

// The most boards of a crew: a set of boards is a number of 16 bits.
pub const MAX_CREW: u8 = 16;

// The most sets that a listed rule lists.
pub const MAX_LISTED: usize = 8;

// The least and the greatest cover that a rule is made with.
pub const MIN_COVER: u8 = 2;

pub const MAX_COVER: u8 = 3;
