// What a line asks a group for.
ghost use Rattle.std.specs.Prelude.{◌≡◌, ◌≤◌, Some, None, length, take, MatchResult};
ghost use Rattle.lines.specs.Told.{opening_of, starts_of};
ghost use Rattle.quorum.specs.Faults.{Made};
ghost use Rattle.quorum.specs.Meaning.{either_rule};
ghost use Rattle.session.specs.Opening.{cover_of, rule_of};
ghost use Rattle.session.specs.Asked.{rule_fault, sizes_fault, Asks};

use crate::fault::SessionFault;
use board::BoardFault;
use group::{BOARDS, GroupFault, Opening};
use lines::{By, Plan};
use quorum::{EitherRule, MAX_CREW, RuleFault};
use vote::{Depth, MAX_CHARACTERS, Method};

// The cover that the line's rule is to have. A rule of sessions, and no conversion: a method by itself has no cover.
fn cover(method: Method) -> u16
    ensures { result ≡ cover_of method }
{
    match method {
        Method::Plain => 2,
        Method::Echo => 3,
    }
}

// The rule that the line asks for, or what stands against it.
#[tactic(auto, unfolding(crate::specs::Opening::rule_of))]
pub(crate) fn rule(plan: &Plan) -> Result<EitherRule, RuleFault>
    ensures { Made (rule_fault (opening_of plan.now)) (rule_of (opening_of plan.now)) either_rule result }
{
    let cover = cover(plan.method);
    match plan.by {
        By::Count(f) => EitherRule::count(plan.crew, cover, f),
        By::Sets(_) => EitherRule::listed(plan.crew, cover, plan.sets()),
    }
}

// Whether the sizes are good, or what stands against the first that is not: crew, characters, depth.
pub(crate) fn check_sizes(plan: &Plan) -> Result<(), SessionFault>
    ensures { MatchResult result (λ _. sizes_fault (opening_of plan.now) ≡ None) (λ e. sizes_fault (opening_of plan.now) ≡ Some e) }
{
    if !(1..=u16::from(MAX_CREW)).contains(&plan.crew) {
        return Err(SessionFault::Rule(RuleFault::Crew));
    }
    if !(1..=u16::from(MAX_CHARACTERS)).contains(&plan.characters) {
        return Err(SessionFault::Group(GroupFault::Opening(BoardFault::Characters)));
    }
    Depth::try_from(u32::from(plan.depth)).map_err(|_| GroupFault::Opening(BoardFault::Depth))?;
    Ok(())
}

// The starting characters, in as many places as a group has.
fn starts(given: &[u16]) -> [u16; BOARDS]
    requires { length given.now ≤ 16 }
    ensures { take (length given.now) result ≡ given.now }
{
    let mut places = [0; BOARDS];
    places[..given.len()].copy_from_slice(given);
    places
}

// The opening that the line asks for.
pub(crate) fn asked(plan: &Plan) -> Opening
    requires { length (starts_of plan.now) ≤ 16 }
    ensures { Asks (opening_of plan.now) result }
{
    Opening {
        method: plan.method,
        depth: u32::from(plan.depth),
        characters: u32::from(plan.characters),
        group: 1,
        change: 1,
        listed: plan.listed,
        starts: starts(plan.starts()),
    }
}
