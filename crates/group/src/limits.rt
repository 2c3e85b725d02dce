// The sizes of a group.
// The most boards that a group has, and so how many records it holds.
pub const BOARDS: usize = 16;

// The bytes into which a slip is written: six words of 19 bytes, the most that one counted word makes a board post.
pub const SCRATCH: usize = 114;
