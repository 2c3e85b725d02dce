// Lines that open a group. Five numbers lead: depth, crew, what the boards fail by, characters, and the set of boards listed bad.
ghost use Rattle.std.specs.Prelude.{◌≡◌, ℕ, slice_index};
ghost use Rattle.fixed.specs.Items.{items_of};
ghost use Rattle.lines.specs.Lines.{opening_in};
ghost use Rattle.lines.specs.Told.{open_with, plan_call, PlanWithin};
ghost use Rattle.lines.specs.declared.plan.By.{By as OfBy};

use crate::head::{Head, read_head};
use crate::plan::{By, Plan};
use crate::whole::whole;
use fixed::Fixed;

// What the boards fail by is made of the third number; the sets and the starting characters follow, and nothing else.
fn open<F: FnOnce(u16) -> By>(head: &Head, by: F) -> Option<Plan>
    requires { F.IsAlwaysCallable by }
    ensures call { (of : ℕ → OfBy) → ((n : ℕ) (b : OfBy) → F.post by n b → b ≡ of n) → plan_call result ≡ open_with head.now.method (items_of head.now.numbers) (of (slice_index (items_of head.now.numbers) 2)) }
    ensures within { PlanWithin result }
{
    let [depth, crew, third, characters, listed, rest @ ..] = head.numbers.as_slice() else {
        return None;
    };
    let by = by(*third);
    if rest.len() != by.sets() + usize::from(*crew) {
        return None;
    }
    Some(Plan {
        method: head.method,
        depth: *depth,
        crew: *crew,
        by,
        characters: *characters,
        listed: *listed,
        numbers: Fixed::from_slice(0, rest)?,
    })
}

// What the bytes ask for, if they are a whole line that opens a group.
#[tactic(auto, unfolding(crate::specs::Lines::opening_in))]
pub fn read_opening(line: &[u8]) -> Option<Plan>
    ensures call { plan_call result ≡ opening_in line.now }
    ensures within { PlanWithin result }
{
    let (letter, body) = whole(line)?;
    match letter {
        b'o' => open(&read_head(body)?, By::Count),
        b'g' => open(&read_head(body)?, By::Sets),
        _ => None,
    }
}
