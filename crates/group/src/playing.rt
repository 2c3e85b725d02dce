// The calls on a group that is open: start, carry, forge.
ghost use Rattle.std.specs.Prelude.{◌≡◌, IfErr};
ghost use Rattle.group.specs.Calls.{starting, carrying, forging, left};
ghost use Rattle.group.specs.Promises.{Plays};

use crate::fault::GroupFault;
use crate::group::Group;
use crate::turn::{Done, Turn, written};
use quorum::FailureRule;
use wire::Word;

impl<R: FailureRule> Group<R> {
    // Starts a board; its slip has its first word.
    pub fn start(&mut self, board: u16) -> Result<Turn, GroupFault>
        ensures same { (self.new.rule ≡ self.old.rule) × (self.new.terms ≡ self.old.terms) }
        ensures plays { Plays (R.meaning self.old.rule) self.old.terms (starting board) self.old.records self.new.records (left result self.new.scratch) }
        ensures a_refused_call_leaves_the_scratch { IfErr result (λ e. self.new.scratch ≡ self.old.scratch) }
    {
        if board >= u16::from(self.rule.crew()) {
            return Err(GroupFault::Outside);
        }
        if self.terms.lies(board) {
            return Err(GroupFault::Listed);
        }
        if self.begun(board) {
            return Err(GroupFault::Begun);
        }
        let fitting = self.terms.fitting(board).ok_or(GroupFault::Outside)?;
        let slip = fitting.first_slip();
        let turn = written(Done::Started, slip, &mut self.scratch).map_err(|fault| (
            board as u8,
            fault,
        ))?;
        self.records.boards[board as usize] = Some(fitting.record());
        Ok(turn)
    }

    // Takes a word that `from` has posted to `to`, which counts it. Numbers of any size, so that a bad one gets its refusal.
    pub fn carry(&mut self, to: u16, from: u16, kind: u16, value: u16) -> Result<Turn, GroupFault>
        ensures same { (self.new.rule ≡ self.old.rule) × (self.new.terms ≡ self.old.terms) }
        ensures plays { Plays (R.meaning self.old.rule) self.old.terms (carrying to from kind value) self.old.records self.new.records (left result self.new.scratch) }
        ensures a_refused_call_leaves_the_scratch { IfErr result (λ e. self.new.scratch ≡ self.old.scratch) }
    {
        if !self.has_both(to, from) {
            return Err(GroupFault::Outside);
        }
        if self.terms.lies(to) || self.terms.lies(from) {
            return Err(GroupFault::Listed);
        }
        if !self.begun(to) || !self.begun(from) {
            return Err(GroupFault::Idle);
        }
        if !self.posted(from, kind, value) {
            return Err(GroupFault::Unposted);
        }
        let word = Word {
            group: self.terms.group,
            change: self.terms.change,
            sender: from as u8,
            kind: kind as u8,
            value: value as u8,
        };
        self.bring(to, word)
    }

    // Takes bytes, whatever they are, to `to` on the port of a listed board.
    pub fn forge(&mut self, to: u16, from: u16, bytes: &[u8]) -> Result<Turn, GroupFault>
        ensures same { (self.new.rule ≡ self.old.rule) × (self.new.terms ≡ self.old.terms) }
        ensures plays { Plays (R.meaning self.old.rule) self.old.terms (forging to from bytes.now) self.old.records self.new.records (left result self.new.scratch) }
        ensures a_refused_call_leaves_the_scratch { IfErr result (λ e. self.new.scratch ≡ self.old.scratch) }
    {
        if !self.has_both(to, from) {
            return Err(GroupFault::Outside);
        }
        if self.terms.lies(to) {
            return Err(GroupFault::Listed);
        }
        if !self.begun(to) {
            return Err(GroupFault::Idle);
        }
        if !self.terms.lies(from) {
            return Err(GroupFault::Unlisted);
        }
        self.take(to, from as u8, bytes)
    }
}
