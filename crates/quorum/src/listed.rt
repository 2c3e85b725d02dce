// The listed rule: the boards of one listed set may fail together.
ghost use Rattle.std.specs.Prelude.{◌≡◌, ◌≤◌, false, is_some};
ghost use Rattle.std.specs.List.{list_any};
ghost use Rattle.fixed.specs.Items.{items_of};
ghost use Rattle.quorum.specs.Limits.{max_crew};
ghost use Rattle.quorum.specs.Sets.{part};
ghost use Rattle.quorum.specs.Listing.{sets_fit, held, listed_rule, HeldMeansIt};
ghost use Rattle.quorum.specs.Faults.{listed_fault, Made};
ghost use Rattle.quorum.specs.Good.{listed_good};

use crate::fault::{RuleFault, check_size};
use crate::limits::MAX_LISTED;
use crate::rule::FailureRule;
use crate::set::{in_crew, outside, part};
use fixed::Fixed;

#[derive(Clone, Copy)]
pub struct ListedRule {
    crew: u8,
    cover: u8,
    sets: Fixed<u16, MAX_LISTED>,
    ghost good: { is_some (listed_fault crew cover (items_of sets)) ≡ false },
}

// Whether the listed sets are not too many, and none has a board outside the crew.
fn sets_fit(crew: u8, sets: &[u16]) -> bool
    ensures { result ≡ sets_fit crew sets.now }
{
    sets.len() <= MAX_LISTED && sets.iter().all(|set| in_crew(crew, *set))
}

// Whether the boards of `have` and of at most `more` of the sets are the whole crew.
#[tactic(auto, using(crate::specs::Held::held_whole, crate::specs::Held::held_by_none))]
fn hold_all(crew: u8, sets: &[u16], more: u8, have: u16) -> bool
    requires { crew ≤ max_crew }
    ensures { result ≡ held crew sets.now more have }
{
    if outside(crew, have) == 0 {
        return true;
    }
    if more == 0 {
        return false;
    }
    // stays a loop: a closure for `any` that calls this function again needs clauses of its own, longer than the loop
    for set in sets {
        if hold_all(crew, sets, more - 1, have | *set) {
            return true;
        }
    }
    false
}

// Whether the set is a part of one of the sets.
fn in_one(sets: &[u16], set: u16) -> bool
    ensures { result ≡ list_any (part set) sets.now }
{
    sets.iter().any(|large| part(set, *large))
}

// What stands against a listed rule of these numbers and sets, the lowest number first, if anything does.
// The three stay loose: the struct that holds them together is the rule, which is made only where nothing stands against them.
// Beside `count_fault`, as the two ask for other numbers.
#[tactic(auto, using(crate::proofs::Holders::held_means_it))]
pub fn listed_fault(crew: u16, cover: u16, sets: &[u16]) -> Option<RuleFault>
    ensures value { result ≡ listed_fault crew cover sets.now }
    ensures a_crew_that_is_not_spared_is_held_by_listed_sets { HeldMeansIt crew sets.now cover }
{
    ListedRule::new(crew, cover, sets).err()
}

impl ListedRule {
    pub fn new(crew: u16, cover: u16, sets: &[u16]) -> Result<ListedRule, RuleFault>
        ensures { Made (listed_fault crew cover sets.now) (listed_rule crew cover sets.now) (λ x. listed_rule x.crew x.cover (items_of x.sets)) result }
    {
        check_size(crew, cover)?;
        let crew = crew as u8;
        let cover = cover as u8;
        if !sets_fit(crew, sets) {
            return Err(RuleFault::Sets);
        }
        if hold_all(crew, sets, cover, 0) {
            return Err(RuleFault::WholeCrew);
        }
        Ok(ListedRule {
            crew,
            cover,
            sets: Fixed::from_slice(0, sets).unwrap(),
        })
    }
}

impl FailureRule for ListedRule {
    ghost meaning = { λ x. listed_rule x.crew x.cover (items_of x.sets) };

    ghost lawful = { λ x. listed_good x.crew x.cover (items_of x.sets) x.good };

    fn crew(&self) -> u8 {
        self.crew
    }

    fn cover(&self) -> u8 {
        self.cover
    }

    fn may_fail(&self, set: u16) -> bool {
        set == 0 || in_one(self.sets.as_slice(), set)
    }
}
