// The record of a board of either method.
ghost use Rattle.std.specs.Prelude.{◌≡◌};
ghost use Rattle.quorum.specs.Rules.{Rule};
ghost use Rattle.board.specs.declared.fit.Fit.{Fit};
ghost use Rattle.board.specs.Shown.{Decides};

use echo_board::EchoRecord;
use plain_board::PlainRecord;
use vote::Decision;

// `start` and `has_posted` of the two records take different parameters, so a trait of both would be no plainer than a match.
#[derive(Clone, Copy)]
pub enum Record {
    // of the plain method
    Gathers(PlainRecord),
    // of the echo method
    Echoes(EchoRecord),
}

impl Record {
    // What the board has decided, if it has.
    pub fn decided(&self) -> Option<Decision>
        ensures { (R : Rule) (f : Fit) → Decides R f self.now result }
    {
        match self {
            Record::Gathers(plain) => plain.decided(),
            Record::Echoes(echo) => echo.decided(),
        }
    }
}
