// The numbers that a frame can carry, field by field. The least group, change and kind is 1, the least sender and value 0.
// The largest group and the largest change.
pub const MAX_ID: u16 = 65535;

pub const MAX_SENDER: u16 = 15;

pub const MAX_KIND: u16 = 5;
// The largest character; the value 0 stands for none.
pub const MAX_VALUE: u16 = 8;
// The longest frame, in bytes.
pub const FRAME_MAX: usize = 19;
// The most bytes that a slip's frames have: five kinds of nine values each.
pub const SLIP_MAX: usize = 5 * 9 * FRAME_MAX;
