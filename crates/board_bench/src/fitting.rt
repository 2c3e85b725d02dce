// The board that is asked for, or the lowest number that stands against it.
ghost use Rattle.std.specs.Prelude.{◌≡◌, IfOk, Some, None, MatchResult};
ghost use Rattle.quorum.specs.Counting.{count_rule};
ghost use Rattle.quorum.specs.Faults.{count_fault};
ghost use Rattle.board.specs.Fitted.{Keeps};
ghost use Rattle.board_bench.specs.Asking.{lowest_of};

use crate::asked::Asked;
use board::{Fitted, settings_fault};
use quorum::{CountRule, MAX_COVER, RuleFault};
use refusal::Refusal;

// The lowest number, where this stands against the rule. A number and no fault: the lower one may be of either kind.
fn lowest(fault: RuleFault, asked: &Asked) -> u8
    ensures { count_fault asked.now.crew asked.now.cover asked.now.f ≡ Some fault → lowest_of asked.now ≡ Some result }
{
    // the rule asked for cannot be made, so the settings are held to another one of the same crew; no fault that the two rules do not share is lower
    let Ok(rule) = CountRule::new(asked.crew, MAX_COVER as u16, 0) else {
        return fault.number();
    };
    match settings_fault(&rule, &asked.settings) {
        None => fault.number(),
        Some(other) => fault.number().min(Refusal::from(other).number),
    }
}

#[tactic(auto, using(crate::proofs::Lowest::no_place))]
pub fn fitted(asked: &Asked) -> Result<Fitted<CountRule>, Refusal>
    ensures value { MatchResult result (λ _. lowest_of asked.now ≡ None) (λ r. (lowest_of asked.now ≡ Some r.number) × (r.place ≡ None)) }
    ensures rule { IfOk result (λ b. count_rule b.rule.crew b.rule.cover b.rule.f ≡ count_rule asked.now.crew asked.now.cover asked.now.f) }
    ensures fit { IfOk result (λ b. Keeps asked.now.settings b.fitting.fit) }
{
    match CountRule::new(asked.crew, asked.cover, asked.f) {
        Err(fault) => Err(Refusal::numbered(lowest(fault, asked))),
        Ok(rule) => Fitted::fit(rule, asked.settings).map_err(|fault| fault.into()),
    }
}
