// A board of the group takes a frame.
ghost use Rattle.std.specs.Prelude.{◌≡◌, IfErr};
ghost use Rattle.group.specs.Calls.{left};
ghost use Rattle.group.specs.Steps.{BoardTakes, Brings, Takes};

use crate::fault::GroupFault;
use crate::group::Group;
use crate::limits::SCRATCH;
use crate::turn::{Turn, written};
use board::{Fitting, Record};
use quorum::FailureRule;
use wire::{FRAME_MAX, Word, write_word};

// A board that has started takes the bytes on the port, and its slip is written.
fn taken<R: FailureRule>(
    rule: &R,
    fitting: &Fitting,
    slot: &mut Option<Record>,
    port: u8,
    bytes: &[u8],
    scratch: &mut [u8; SCRATCH],
) -> Result<Turn, GroupFault>
    ensures takes { BoardTakes (R.meaning rule.now) fitting.now.fit port bytes.now slot.old slot.new (left result scratch.new) }
    ensures kept { IfErr result (λ e. scratch.new ≡ scratch.old) }
{
    let board = fitting.fit.board;
    // matched in place: tried through `as_mut` and `ok_or`, where the proof would have to follow the loan of the record and did not close
    let Some(record) = slot else {
        return Err(GroupFault::Idle);
    };
    // made here for speed, and not by the `?`: with a pair on the way each frame takes two or three instructions more
    let (taken, slip) = fitting
        .take(rule, record, port, bytes)
        .map_err(|fault| GroupFault::from((board, fault)))?;
    written(taken.into(), slip, scratch).map_err(|fault| GroupFault::from((board, fault)))
}

// `same` stays spelled out at each call that changes records: two equations tell plainer than the name of a definition what is kept.
impl<R: FailureRule> Group<R> {
    // Board `to`, which has started, takes the bytes on the port.
    pub(crate) fn take(&mut self, to: u16, port: u8, bytes: &[u8]) -> Result<Turn, GroupFault>
        ensures same { (self.new.rule ≡ self.old.rule) × (self.new.terms ≡ self.old.terms) }
        ensures takes { Takes (R.meaning self.old.rule) self.old.terms to port bytes.now self.old.records self.new.records (left result self.new.scratch) }
        ensures kept { IfErr result (λ e. self.new.scratch ≡ self.old.scratch) }
    {
        let fitting = self.terms.fitting(to).ok_or(GroupFault::Outside)?;
        taken(
            &self.rule,
            &fitting,
            &mut self.records.boards[to as usize],
            port,
            bytes,
            &mut self.scratch,
        )
    }

    // Writes the word as a frame, which board `to`, which has started, takes on the sender's port.
    #[tactic(auto, using(crate::proofs::Bringing::written_is))]
    #[inline(always)]
    pub(crate) fn bring(&mut self, to: u16, word: Word) -> Result<Turn, GroupFault>
        ensures same { (self.new.rule ≡ self.old.rule) × (self.new.terms ≡ self.old.terms) }
        ensures brings { Brings (R.meaning self.old.rule) self.old.terms to word self.old.records self.new.records (left result self.new.scratch) }
        ensures kept { IfErr result (λ e. self.new.scratch ≡ self.old.scratch) }
    {
        let mut frame = [0; FRAME_MAX];
        let len = write_word(word, &mut frame).map_err(|fault| (word.sender, fault))?;
        self.take(to, word.sender, &frame[..len])
    }
}
