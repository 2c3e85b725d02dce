// What is answered to a line that gives a set.
ghost use Rattle.std.specs.Prelude.{◌≡◌, Some};
ghost use Rattle.quorum.specs.Meaning.{either_rule};
ghost use Rattle.rule_check.specs.Answers.{answer_line, answer_of, word_if};

use numerals::number;
use quorum::{EitherRule, ample, strong};
use std::fmt;

// Two facts of the set, each printed in its column: neither says whether the other is there.
#[derive(Clone, Copy)]
pub struct Judged {
    pub set: u16,
    pub is_strong: bool,
    pub is_ample: bool,
}

// What is found of the set that the line gives, if it gives one.
pub fn answer_to(rule: &EitherRule, line: &[u8]) -> Option<Judged>
    ensures { result ≡ answer_of (either_rule rule.now) line.now }
{
    let set = number(line)?;
    Some(Judged {
        set,
        is_strong: strong(rule, set),
        is_ample: ample(rule, set),
    })
}

// An answer as it is printed.
#[derive(Clone, Copy)]
pub struct Answer(pub Option<Judged>);

// The word where it holds, else a dash.
fn word(holds: bool, name: &'static str) -> &'static str
    ensures { result.now ≡ word_if holds name.now }
{
    if holds { name } else { "-" }
}

impl fmt::Display for Answer {
    ghost output = { λ a. Some (answer_line a.0) };

    fn fmt<W: fmt::Write>(&self, f: &mut fmt::Formatter<W>) -> fmt::Result {
        let Some(judged) = self.0 else {
            return write!(f, "unreadable");
        };
        let set = judged.set;
        let strong = word(judged.is_strong, "strong");
        let ample = word(judged.is_ample, "ample");
        write!(f, "{set},{strong},{ample}")
    }
}
