// What a board whose branch is fixed comes to.
ghost use Rattle.std.specs.Prelude.{◌≡◌, ◌≤◌};
ghost use Rattle.vote.specs.History.{Seen};
ghost use Rattle.vote.specs.Setting.{Setting};
ghost use Rattle.agreement.specs.Plain.{compared as compared_with};
ghost use Rattle.plain_board.specs.Limits.{max_value};
ghost use Rattle.plain_board.specs.Shown.{setting_in, tally_of};
ghost use Rattle.plain_board.specs.Read.{StageOn};

use crate::stage::Stage;
use crate::tally::{Tally, agrees_on, least};
use quorum::{FailureRule, ample};
use vote::{Decision, Depth, Voting};

// What the words of kind 2 decide at depth 2. A board without a character takes one that another had; a board with one is sure if nobody differs.
#[tactic(auto, using(crate::proofs::Reading::compared_zero, crate::proofs::Reading::compared_same, crate::proofs::Reading::compared_differing))]
fn compared<R: FailureRule>(voting: &Voting<R>, second: &Tally, branch: u8) -> Decision
    ensures { (S : Setting) (x : Seen) → S.characters ≡ voting.now.characters → branch ≤ max_value → second.now ≡ tally_of S.rule.crew x 2 → result ≡ compared_with S branch x }
{
    if branch == 0 {
        return Decision::graded(1, least(voting, second));
    }
    if agrees_on(second, branch) {
        return Decision::graded(2, branch);
    }
    Decision::graded(1, branch)
}

// The stage of a board with the branch, by the senders of kind 2 that it has counted.
#[tactic(auto, using(crate::proofs::Reading::verdict_one, crate::proofs::Reading::verdict_two, crate::proofs::Reading::verdict_waits))]
pub(crate) fn stage_on<R: FailureRule>(voting: &Voting<R>, branch: u8, second: &Tally) -> Stage
    ensures { StageOn (setting_in voting.now) branch second.now result }
{
    match voting.depth {
        Depth::One => Stage::Decided(branch, Decision::graded(1, branch)),
        Depth::Two if ample(voting.rule, second.all) => {
            Stage::Decided(branch, compared(voting, second, branch))
        }
        Depth::Two => Stage::Comparing(branch),
    }
}
