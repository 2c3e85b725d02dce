// The letter by which an answer tells its line.
ghost use Rattle.std.specs.Prelude.{◌≡◌, ℕ, List, [], ◌∷◌};
ghost use Rattle.lines.specs.Told.{failing_by};
ghost use Rattle.session.specs.Letters.{opening_letter, letter_text};

use lines::By;

// One case is for a line that cannot be read, and no `None`: each answer begins with a letter, that one with a question mark.
#[derive(Clone, Copy, PartialEq, Eq, Debug)]
pub enum Letter {
    // no call can be read
    Unreadable,
    OpenByCount,
    OpenBySets,
    Start,
    Carry,
    Forge,
}

// The letter of an opening, by what its boards fail by.
impl From<By> for Letter {
    ghost from_gives = { λ by l. (vs : List ℕ) → l ≡ opening_letter (failing_by by vs) };

    fn from(by: By) -> Letter {
        match by {
            By::Count(_) => Letter::OpenByCount,
            By::Sets(_) => Letter::OpenBySets,
        }
    }
}

impl From<Letter> for u8 {
    ghost from_gives = { λ l r. letter_text l ≡ r ∷ [] };

    fn from(letter: Letter) -> u8 {
        match letter {
            Letter::Unreadable => b'?',
            Letter::OpenByCount => b'o',
            Letter::OpenBySets => b'g',
            Letter::Start => b's',
            Letter::Carry => b'c',
            Letter::Forge => b'f',
        }
    }
}
