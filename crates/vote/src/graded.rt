// A decision for a value at a grade.
ghost use Rattle.std.specs.Prelude.{◌≡◌};
ghost use Rattle.vote.specs.Setting.{decision_on};

use crate::Decision;

// No character.
const NOTHING: Decision = Decision { value: 0, grade: 0 };

impl Decision {
    // A character has the grade, and no character has none. A grade is a number: how far apart decisions are is counted by it.
    pub fn graded(grade: u8, value: u8) -> Decision
        ensures { result ≡ decision_on grade value }
    {
        if value == 0 {
            return NOTHING;
        }
        Decision { value, grade }
    }
}
