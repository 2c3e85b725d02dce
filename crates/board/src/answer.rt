// What a started board tells of a frame that it took.

#[derive(Clone, Copy, PartialEq, Eq, Debug)]
pub enum Taken {
    // the word is counted
    Counted,
    // the word was found counted already
    Again,
}
