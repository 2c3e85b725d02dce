// Which frames a board takes on a port.
ghost use Rattle.std.specs.Prelude.{◌≡◌, ℕ, cond, Ok};
ghost use Rattle.board.specs.Taking.{kinds_used, least_value, word_fault, port_fault, unless, word_taken};

use crate::fault::BoardFault;
use crate::fit::Fit;
use crate::settings::{kept_cover, kept_crew};
use quorum::FailureRule;
use vote::{Depth, Method};
use wire::{Word, read_frame};

// The highest kind that the method uses at the depth. A rule of the methods, and no conversion: a table of numbers, as FORMATS.md has it.
fn kinds_used(method: Method, depth: Depth) -> u8
    ensures { result ≡ kinds_used method depth }
{
    match (method, depth) {
        (Method::Plain, Depth::One) => 1,
        (Method::Plain, Depth::Two) => 2,
        (Method::Echo, Depth::One) => 3,
        (Method::Echo, Depth::Two) => 5,
    }
}

// The least value of a kind, another rule of the methods. The kind stays a number, as in a Word: one that is not used has a least value too.
fn least_value(method: Method, kind: u8) -> u8
    ensures { result ≡ least_value method kind }
{
    match (method, kind) {
        (Method::Plain, 1) => 1,
        _ => 0,
    }
}

// The word, unless something stands against it on the port, by rising number.
#[tactic(auto, unfolding(crate::specs::Taking::word_fault))]
#[inline(always)]
fn checked_word(fit: &Fit, port: u8, word: Word) -> Result<Word, BoardFault>
    ensures { result ≡ unless (word_fault fit.now port word) (Ok word) }
{
    if word.group != fit.group || word.change != fit.change {
        return Err(BoardFault::Elsewhere);
    }
    if word.sender != port {
        return Err(BoardFault::Sender);
    }
    if !(1..=kinds_used(fit.method, fit.depth)).contains(&word.kind) {
        return Err(BoardFault::Kind);
    }
    if !(least_value(fit.method, word.kind)..=fit.characters).contains(&word.value) {
        return Err(BoardFault::Value);
    }
    Ok(word)
}

// Whether the port is one of a rule's that a board can be fitted under, or what stands against it, by rising number.
#[tactic(auto, unfolding(crate::specs::Taking::port_fault))]
fn check_port<R: FailureRule>(rule: &R, port: u8) -> Result<(), BoardFault>
    ensures { result ≡ unless (port_fault (R.meaning rule.now) port) (Ok tt) }
{
    let crew = kept_crew(rule)?;
    kept_cover(rule)?;
    if port >= crew {
        return Err(BoardFault::Port);
    }
    Ok(())
}

// The word that is taken on the port, or the refusal.
#[tactic(auto, unfolding(crate::specs::Taking::word_taken))]
pub(crate) fn word_taken<R: FailureRule>(
    rule: &R,
    fit: &Fit,
    port: u8,
    bytes: &[u8],
) -> Result<Word, BoardFault>
    ensures { result ≡ word_taken (R.meaning rule.now) fit.now port bytes.now }
{
    check_port(rule, port)?;
    let word = read_frame(bytes).map_err(|fault| (fit.board, fault))?;
    checked_word(fit, port, word)
}
