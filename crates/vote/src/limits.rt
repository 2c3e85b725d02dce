// The sizes of a vote. specs/Limits.antt says the same to the contracts, and a check refuses code where the two differ.

// The most characters. 0 stands for no character.
pub const MAX_CHARACTERS: u8 = 8;

// How many values there are: 0 and the characters. `wire` has its own name for this, and for the kinds: neither crate builds on the other.
pub const VALUES: usize = 9;

// How many kinds of votes there are.
pub const KINDS: usize = 5;

// The kind of an echo.
pub const ECHO: u8 = 1;
