// What is answered to the first line, which asks for a rule.
ghost use Rattle.std.specs.Prelude.{◌≡◌, IfOk, Some};
ghost use Rattle.rule_check.specs.Answers.{reply_line};
ghost use Rattle.rule_check.specs.Lines.{asked_by, asked_in, count_asked, listed_asked};
ghost use Rattle.rule_check.specs.Replies.{Replies};
ghost use Rattle.rule_check.specs.declared.reply.NoRule.TheVariants.{Refused};

use crate::numbers::numbers;
use quorum::{EitherRule, RuleFault};
use std::alloc::{AllocError, Global};
use std::fmt;

// Why a line gives no rule. No Option in disguise: an unreadable line is a reason of its own, which the reply tells apart from a fault.
#[derive(Clone, Copy)]
pub enum NoRule {
    // This stands against the rule that it asks for.
    Refused(RuleFault),
    // It asks for none.
    Unreadable,
}

impl From<RuleFault> for NoRule {
    ghost from_gives = { λ e r. r ≡ Refused e };

    fn from(fault: RuleFault) -> NoRule {
        NoRule::Refused(fault)
    }
}

fn count_rule(numbers: &[u16]) -> Result<EitherRule, NoRule>
    ensures { Replies (count_asked numbers.now) result }
{
    let [crew, cover, f] = numbers else {
        return Err(NoRule::Unreadable);
    };
    Ok(EitherRule::count(*crew, *cover, *f)?)
}

fn listed_rule(numbers: &[u16]) -> Result<EitherRule, NoRule>
    ensures { Replies (listed_asked numbers.now) result }
{
    let [crew, cover, many, sets @ ..] = numbers else {
        return Err(NoRule::Unreadable);
    };
    if sets.len() != usize::from(*many) {
        return Err(NoRule::Unreadable);
    }
    Ok(EitherRule::listed(*crew, *cover, sets)?)
}

// The rule that a letter and the numbers after it ask for. A match on the letter: each kind of rule reads another form of numbers.
fn rule_by(letter: u8, numbers: &[u16]) -> Result<EitherRule, NoRule>
    ensures { Replies (asked_by letter numbers.now) result }
{
    match letter {
        b'c' => count_rule(numbers),
        b'l' => listed_rule(numbers),
        _ => Err(NoRule::Unreadable),
    }
}

// What is answered to the first line: a letter, a comma, numbers.
pub fn read_rule(heap: Global, line: &[u8]) -> Result<Result<EitherRule, NoRule>, AllocError>
    ensures { IfOk result (λ o. Replies (asked_in line.now) o) }
{
    let [letter, b',', rest @ ..] = line else {
        return Ok(Err(NoRule::Unreadable));
    };
    match numbers(heap, rest)? {
        None => Ok(Err(NoRule::Unreadable)),
        Some(values) => Ok(rule_by(*letter, &values)),
    }
}

// A reply as it is printed.
#[derive(Clone, Copy)]
pub struct Reply(pub Result<EitherRule, NoRule>);

impl fmt::Display for Reply {
    ghost output = { λ r. Some (reply_line r.0) };

    fn fmt<W: fmt::Write>(&self, f: &mut fmt::Formatter<W>) -> fmt::Result {
        match self.0 {
            Ok(_) => write!(f, "good"),
            Err(NoRule::Refused(fault)) => {
                let number = fault.number();
                write!(f, "refused {number}")
            }
            Err(NoRule::Unreadable) => write!(f, "unreadable"),
        }
    }
}
