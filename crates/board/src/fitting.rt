// What a fitted board does with its record, wherever the record is kept: it begins, takes frames, and tells what it has posted.
ghost use Rattle.std.specs.Prelude.{◌≡◌, ◌*◌, ◌≤◌, List, [], length, IfOk, IfErr, Err};
ghost use Rattle.quorum.specs.Rules.{Rule};
ghost use Rattle.wire.specs.Slips.{words_of};
ghost use Rattle.vote.specs.declared.Vote.{Vote};
ghost use Rattle.board.specs.Shown.{record_of, method_of, setting_of};
ghost use Rattle.board.specs.Started.{posted_of, first_posted, Accepts};
ghost use Rattle.board.specs.Taking.{word_taken};

use crate::answer::Taken;
use crate::fault::BoardFault;
use crate::fit::Fitting;
use crate::record::Record;
use crate::taking::word_taken;
use echo_board::EchoRecord;
use plain_board::PlainRecord;
use quorum::FailureRule;
use vote::{ECHO, Method, News, Vote};
use wire::{Posted, Slip};

impl Fitting {
    // The slip with the words of the news.
    fn slip(&self, news: News) -> Slip
        ensures { result.posted ≡ posted_of self.now.fit news }
    {
        let kinds = news.kinds;
        let posted = Posted {
            group: self.fit.group,
            change: self.fit.change,
            sender: self.fit.board,
            kinds,
        };
        let Ok(slip) = Slip::holding(posted) else {
            unreachable()
        };
        slip
    }

    // The record of a board that has counted nothing.
    #[tactic(auto, using(crate::proofs::Steps::plain_shows, crate::proofs::Steps::echo_shows))]
    pub fn record(&self) -> Record
        ensures { (R : Rule) → result ≡ record_of R self.now.fit [] }
    {
        match self.fit.method {
            Method::Plain => Record::Gathers(PlainRecord::start()),
            Method::Echo => Record::Echoes(EchoRecord::start(self.fit.start)),
        }
    }

    // The slip that goes with the start: it has the board's first word.
    #[tactic(auto, using(crate::proofs::Six::first_fits, crate::proofs::Slips::start_below, crate::proofs::Starts::started_news), unfolding(crate::specs::Started::first_posted))]
    pub fn first_slip(&self) -> Slip
        ensures value { (R : Rule) → result.posted ≡ first_posted R self.now.fit }
        ensures fits { length (words_of result.posted) * 19 ≤ 114 }
    {
        self.slip(News::one(ECHO, self.fit.start))
    }

    // Takes a frame on a port: the word is counted, or found counted already, and the slip has the words just posted; or it is refused, and nothing changes.
    #[tactic(auto, using(crate::proofs::Words::good_word))]
    pub fn take<R: FailureRule>(
        &self,
        rule: &R,
        state: &mut Record,
        port: u8,
        bytes: &[u8],
    ) -> Result<(Taken, Slip), BoardFault>
        ensures accepted { IfOk result (λ x. Accepts (R.meaning rule.now) self.now.fit port bytes.now state.old state.new x.0 x.1.posted) }
        ensures refused { IfErr result (λ e. (word_taken (R.meaning rule.now) self.now.fit port bytes.now ≡ Err e) × (state.new ≡ state.old)) }
    {
        let word = word_taken(rule, &self.fit, port, bytes)?;
        let vote = Vote {
            sender: word.sender,
            kind: word.kind,
            value: word.value,
        };
        match self.count(rule, state, vote) {
            None => Ok((Taken::Again, self.slip(News::none()))),
            Some(news) => Ok((Taken::Counted, self.slip(news))),
        }
    }

    // Whether a started board with this record has posted the word, whatever these numbers are: a caller may ask of any, and is answered, where a type of five kinds would ask more of the caller.
    pub fn has_posted(&self, state: &Record, kind: u8, value: u8) -> bool
        ensures { (R : Rule) (h : List Vote) → state.now ≡ record_of R self.now.fit h → result ≡ (method_of self.now.fit.method (setting_of R self.now.fit)).posts self.now.fit.start h kind value }
    {
        match state {
            Record::Gathers(plain) => plain.has_posted(self.fit.depth, self.fit.start, kind, value),
            Record::Echoes(echo) => echo.has_posted(kind, value),
        }
    }
}
