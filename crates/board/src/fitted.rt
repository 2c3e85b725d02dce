// A board that is fitted and not yet started.
ghost use Rattle.std.specs.Prelude.{◌≡◌, Some, None, MatchResult};
ghost use Rattle.board.specs.Fitted.{Keeps};
ghost use Rattle.board.specs.Fitting.{settings_fault, Judged};

use crate::fault::BoardFault;
use crate::fit::{Fit, Fitting};
use crate::settings::{Settings, kept_address, kept_vote};
use quorum::FailureRule;

#[derive(Drop)]
pub struct Fitted<R: FailureRule> {
    pub(crate) rule: R,
    pub(crate) fitting: Fitting,
}

impl Settings {
    // The settings in the sizes that a board keeps them, or what stands against them under the rule, by rising number.
    #[tactic(auto, unfolding(crate::specs::Fitting::settings_fault))]
    pub(crate) fn fitting<R: FailureRule>(&self, rule: &R) -> Result<Fitting, BoardFault>
        ensures { Judged (settings_fault (R.meaning rule.now) self.now) (λ k. Keeps self.now k.fit) result }
    {
        let (depth, characters) = kept_vote(rule, self.method, self.depth, self.characters)?;
        if self.board >= u32::from(rule.crew()) {
            return Err(BoardFault::Board);
        }
        let (group, change) = kept_address(self.group, self.change)?;
        if !(1..=self.characters).contains(&self.start) {
            return Err(BoardFault::Start);
        }
        let fit = Fit {
            method: self.method,
            depth,
            characters,
            group,
            change,
            board: self.board as u8,
            start: self.start as u8,
        };
        Ok(Fitting { fit })
    }
}

impl<R: FailureRule + Drop> Fitted<R> {
    // The fitted board, or what stands against it. The promise is not said by `Judged`, which would nest its parts, and callers take them one by one.
    pub fn fit(rule: R, settings: Settings) -> Result<Fitted<R>, BoardFault>
        ensures { MatchResult result (λ b. (settings_fault (R.meaning rule) settings ≡ None) × (b.rule ≡ rule) × Keeps settings b.fitting.fit) (λ e. settings_fault (R.meaning rule) settings ≡ Some e) }
    {
        let fitting = settings.fitting(&rule)?;
        Ok(Fitted { rule, fitting })
    }
}
