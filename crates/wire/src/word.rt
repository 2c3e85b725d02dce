// A word: what one board says of one change to its group.

// The numbers stay as wide as they are: a word that no frame can carry is refused, not ruled out by its type.
#[derive(Clone, Copy, PartialEq, Eq, Debug)]
pub struct Word {
    pub group: u16,
    pub change: u16,
    pub sender: u8,
    pub kind: u8,
    pub value: u8,
}
