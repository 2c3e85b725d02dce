// How a decision is written, with what it has the lamp do.
ghost use Rattle.std.specs.Prelude.{◌≡◌, Some};
ghost use Rattle.board_bench.specs.Answers.{decided_line};

use board::Order;
use std::fmt;
use vote::Decision;

#[derive(Clone, Copy)]
pub struct Decided {
    pub decision: Decision,
    pub order: Order,
}

impl fmt::Display for Decided {
    ghost output = { λ d. Some (decided_line d) };

    fn fmt<W: fmt::Write>(&self, f: &mut fmt::Formatter<W>) -> fmt::Result {
        let Decision { value, grade } = self.decision;
        write!(f, "decided {value},{grade}: ")?;
        match self.order {
            Order::Show(character) => write!(f, "show {character}"),
            Order::Load(character) => write!(f, "load {character} and hold"),
            Order::Stay => write!(f, "stay"),
        }
    }
}
