// A board that is started, and takes frames.
ghost use Rattle.std.specs.Prelude.{◌≡◌, [], IfOk, IfErr, Err};
ghost use Rattle.board.specs.Shown.{record_of, Decides};
ghost use Rattle.board.specs.Ordered.{Orders};
ghost use Rattle.board.specs.Laws.{BoardKeeps};
ghost use Rattle.board.specs.Marked.{MarkedCasesHold};
ghost use Rattle.board.specs.Started.{first_posted, Accepts};
ghost use Rattle.board.specs.Taking.{word_taken};

use crate::answer::Taken;
use crate::fault::BoardFault;
use crate::fit::Fitting;
use crate::fitted::Fitted;
use crate::lamp::{Order, lamp_order};
use crate::record::Record;
use quorum::FailureRule;
use vote::Decision;
use wire::Slip;

#[derive(Drop)]
pub struct Started<R: FailureRule> {
    pub(crate) rule: R,
    pub(crate) fitting: Fitting,
    pub(crate) state: Record,
}

impl<R: FailureRule> Fitted<R> {
    // Starts the board, which is then no longer merely fitted. The slip has its first word.
    #[tactic(auto, using(crate::proofs::MarkedCases::marked_cases_hold))]
    pub fn start(self) -> (Started<R>, Slip)
        ensures same { (result.0.rule ≡ self.rule) × (result.0.fitting ≡ self.fitting) }
        ensures state { result.0.state ≡ record_of (R.meaning self.rule) self.fitting.fit [] }
        ensures slip { result.1.posted ≡ first_posted (R.meaning self.rule) self.fitting.fit }
        ensures keeps { BoardKeeps (R.meaning self.rule) self.fitting.fit }
        ensures the_marked_cases_hold { MarkedCasesHold }
    {
        let Fitted { rule, fitting } = self;
        let state = fitting.record();
        let slip = fitting.first_slip();
        (
            Started {
                rule,
                fitting,
                state,
            },
            slip,
        )
    }
}

impl<R: FailureRule> Started<R> {
    // Takes a frame on a port: the word is counted, or found counted already, and the slip has the words just posted; or it is refused, and nothing changes.
    pub fn take(&mut self, port: u8, bytes: &[u8]) -> Result<(Taken, Slip), BoardFault>
        ensures same { (self.new.rule ≡ self.old.rule) × (self.new.fitting ≡ self.old.fitting) }
        ensures accepted { IfOk result (λ x. Accepts (R.meaning self.old.rule) self.old.fitting.fit port bytes.now self.old.state self.new.state x.0 x.1.posted) }
        ensures refused { IfErr result (λ e. (word_taken (R.meaning self.old.rule) self.old.fitting.fit port bytes.now ≡ Err e) × (self.new.state ≡ self.old.state)) }
    {
        self.fitting.take(&self.rule, &mut self.state, port, bytes)
    }

    // What the board has decided, if it has.
    pub fn decided(&self) -> Option<Decision>
        ensures { Decides (R.meaning self.now.rule) self.now.fitting.fit self.now.state result }
    {
        self.state.decided()
    }

    // What the lamp is to do, once the board has decided.
    pub fn order(&self) -> Option<Order>
        ensures { Orders (R.meaning self.now.rule) self.now.fitting.fit self.now.state result }
    {
        self.decided()
            .map(|decision| lamp_order(self.fitting.fit.depth, decision))
    }
}
