// What a line asks for.
#[derive(Clone, Copy)]
pub enum Line {
    // The line opens a group, if `read_opening` can read the rest of it. No plan, for speed: its 144 bytes would be filled and moved with what is
    // read from any line.
    Open,
    // The board.
    Start(u16),
    // To, from, kind, value.
    Carry(u16, u16, u16, u16),
    // To, from, and the place in the line at which the forged bytes begin; they go on to its end.
    // A place and no slice: what a line asks for can be kept when the line's bytes are gone.
    Forge(u16, u16, usize),
}
