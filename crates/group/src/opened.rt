// A group is opened: its terms are settled, and no board has started.
ghost use Rattle.std.specs.Prelude.{◌≡◌, ◌≤◌, [], Some, None, IfOk, MatchResult, replicate};
ghost use Rattle.heard.specs.Shown.{table};
ghost use Rattle.board.specs.Fitting.{Judged};
ghost use Rattle.group.specs.Opening.{opening_fault, Settles, kept_start};
ghost use Rattle.group.specs.Promises.{Reached};
ghost use Rattle.group.specs.Sound.{all_characters};

use crate::fault::GroupFault;
use crate::group::Group;
use crate::limits::{BOARDS, SCRATCH};
use crate::opening::Opening;
use crate::records::Records;
use crate::terms::Terms;
use board::{BoardFault, kept_address, kept_vote};
use quorum::FailureRule;

// Whether each is a character from 1 to the last.
fn all_characters(last: u32, starts: &[u16]) -> bool
    ensures { result ≡ all_characters last starts.now }
{
    starts
        .iter()
        .all(|start| (1..=last).contains(&u32::from(*start)))
}

// The starting characters in the size that a board keeps them; 1 stands in for a board beyond the crew.
fn own_starts(starts: &[u16; BOARDS], crew: u8) -> [u8; BOARDS]
    requires { crew ≤ 16 }
    ensures { result ≡ table 16 (kept_start crew starts.now) }
{
    let mut own = starts.map(|start| start.min(255) as u8);
    own[crew as usize..].fill(1);
    own
}

impl Opening {
    // What is settled under the rule, in the sizes that a group keeps it, or what stands against it, by rising number.
    #[tactic(auto, unfolding(crate::specs::Opening::opening_fault))]
    pub(crate) fn terms<R: FailureRule>(&self, rule: &R) -> Result<Terms, GroupFault>
        ensures { Judged (opening_fault (R.meaning rule.now) self.now) (Settles (R.meaning rule.now) self.now) result }
    {
        let (depth, characters) = kept_vote(rule, self.method, self.depth, self.characters)?;
        let (group, change) = kept_address(self.group, self.change)?;
        let crew = rule.crew();
        if !all_characters(self.characters, &self.starts[..crew as usize]) {
            return Err(GroupFault::Opening(BoardFault::Start));
        }
        if !rule.may_fail(self.listed) {
            return Err(GroupFault::Family);
        }
        Ok(Terms {
            method: self.method,
            depth,
            characters,
            group,
            change,
            listed: self.listed,
            starts: own_starts(&self.starts, crew),
        })
    }
}

impl<R: FailureRule + Drop> Group<R> {
    // Opens a group, or tells what stands against it. The promise is not said by `Judged`, which would nest its parts, and callers take them one by one.
    pub fn open(rule: R, opening: &Opening) -> Result<Group<R>, GroupFault>
        ensures blank { IfOk result (λ g. g.scratch ≡ replicate 114 0) }
        ensures opens { MatchResult result (λ g. (opening_fault (R.meaning rule) opening.now ≡ None) × (g.rule ≡ rule) × Settles (R.meaning rule) opening.now g.terms × Reached (R.meaning rule) g.terms g.records []) (λ e. opening_fault (R.meaning rule) opening.now ≡ Some e) }
    {
        let terms = opening.terms(&rule)?;
        Ok(Group {
            rule,
            terms,
            records: Records {
                boards: [None; BOARDS],
            },
            scratch: [0; SCRATCH],
        })
    }

    // Opens a group in the place of this one, or tells what stands against it, and leaves this one as it is. A new group would be moved there
    // step by step, with its sixteen records.
    pub fn reopen(&mut self, rule: R, opening: &Opening) -> Result<(), GroupFault>
        ensures blank { IfOk result (λ done. self.new.scratch ≡ replicate 114 0) }
        ensures opens { MatchResult result (λ done. (opening_fault (R.meaning rule) opening.now ≡ None) × (self.new.rule ≡ rule) × Settles (R.meaning rule) opening.now self.new.terms × Reached (R.meaning rule) self.new.terms self.new.records []) (λ e. (opening_fault (R.meaning rule) opening.now ≡ Some e) × (self.new ≡ self.old)) }
    {
        self.terms = opening.terms(&rule)?;
        self.rule = rule;
        self.records.boards.fill(None);
        self.scratch = [0; SCRATCH];
        Ok(())
    }
}
