// What a refused call tells: a number, a byte place where a frame was at fault, and the board that passed it on.
// Every crate above turns its own faults into a `Refusal`, by `From`; which faults there are is theirs to say.

#![tactic(auto)]

ghost use Rattle.std.specs.Prelude.{◌≡◌};
ghost use Rattle.refusal.specs.Layers.{layer_of};
ghost use Rattle.refusal.specs.Told.{told, passed_on};

// Who refuses: the frame as it is read or written, one board, or the group of all boards.
#[derive(Clone, Copy, PartialEq, Eq, Debug)]
pub enum Layer {
    Frame,
    Board,
    Group,
}

#[derive(Clone, Copy, PartialEq, Eq, Debug)]
pub struct Refusal {
    // stays a number: which faults there are is said by the crates above, and no enum of this one could list them
    pub number: u8,
    // counted in bytes from 0
    pub place: Option<usize>,
    pub board: Option<u8>,
}

impl Refusal {
    // What tells its number alone.
    pub fn numbered(number: u8) -> Refusal
        ensures { result ≡ told number }
    {
        Refusal {
            number,
            place: None,
            board: None,
        }
    }

    // The same number and place, and the board that passes them on.
    pub fn passed_on(self, board: u8) -> Refusal
        ensures { result ≡ passed_on board self }
    {
        Refusal {
            board: Some(board),
            ..self
        }
    }

    // By ranges of numbers: the faults themselves are told in the crates above, so no conversion of theirs could say it.
    pub fn layer(&self) -> Layer
        ensures { result ≡ layer_of self.now.number }
    {
        match self.number {
            11..=15 | 20 => Layer::Frame,
            21..=29 => Layer::Group,
            _ => Layer::Board,
        }
    }
}
