// A group that is open, and what is asked of it.
ghost use Rattle.std.specs.Prelude.{◌≡◌, ◌<◌, ◌≤◌, ◌&&◌, true, None, is_some, option_copied, nat_lt, slice_index_or};
ghost use Rattle.group.specs.Promises.{TellsDecided};
ghost use Rattle.group.specs.Steps.{TellsPosted};

use crate::limits::SCRATCH;
use crate::records::Records;
use crate::terms::Terms;
use board::Record;
use quorum::FailureRule;
use vote::Decision;

#[derive(Drop)]
pub struct Group<R: FailureRule> {
    pub(crate) rule: R,
    pub(crate) terms: Terms,
    pub(crate) records: Records,
    // the frames of the words that the last accepted call has posted, by kind and then value, and zero bytes behind; before any call zero bytes alone
    pub(crate) scratch: [u8; SCRATCH],
}

impl<R: FailureRule> Group<R> {
    // What a board has decided, if it has.
    pub fn decided(&self, board: u16) -> Option<Decision>
        ensures { TellsDecided (R.meaning self.now.rule) self.now.terms self.now.records board result }
    {
        self.record(board)?.decided()
    }

    // What the last accepted call has written: the frames of the words that it posted, by kind and then value, and zero bytes behind. Before any call zero bytes alone.
    pub fn scratch(&self) -> &[u8; SCRATCH]
        ensures { result.now ≡ self.now.scratch }
    {
        &self.scratch
    }

    // The record of a board, if it has started.
    fn record(&self, board: u16) -> Option<&Record>
        ensures { option_copied result ≡ slice_index_or self.now.records.boards board None }
    {
        self.records.boards.get(board as usize)?.as_ref()
    }

    // Whether both boards are of the crew.
    pub(crate) fn has_both(&self, to: u16, from: u16) -> bool
        ensures value { result ≡ (nat_lt to (R.meaning self.now.rule).crew && nat_lt from (R.meaning self.now.rule).crew) }
        ensures within { result ≡ true → (to < 256) × (from < 256) }
    {
        let crew = u16::from(self.rule.crew());
        to < crew && from < crew
    }

    // Whether the board has started.
    pub(crate) fn begun(&self, board: u16) -> bool
        ensures { result ≡ is_some (slice_index_or self.now.records.boards board None) }
    {
        self.record(board).is_some()
    }

    // Whether a board that has started has posted the word, whatever these numbers are: a call may name any, and is answered, where a type of five kinds would ask more of the caller.
    pub(crate) fn posted(&self, board: u16, kind: u16, value: u16) -> bool
        ensures value { TellsPosted (R.meaning self.now.rule) self.now.terms self.now.records board kind value result }
        ensures within { result ≡ true → (kind ≤ 5) × (value ≤ 8) }
        ensures begun { result ≡ true → is_some (slice_index_or self.now.records.boards board None) ≡ true }
    {
        if kind > wire::MAX_KIND || value > wire::MAX_VALUE {
            return false;
        }
        let (Some(fitting), Some(record)) = (self.terms.fitting(board), self.record(board)) else {
            return false;
        };
        fitting.has_posted(record, kind as u8, value as u8)
    }
}
