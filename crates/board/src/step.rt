// One step for the record of a board, whatever its method.
ghost use Rattle.std.specs.Prelude.{◌≡◌, ℕ, ◌<◌, ◌≤◌};
ghost use Rattle.board.specs.Shown.{Counts};
ghost use Rattle.board.specs.Taking.{kinds_used};
ghost use Rattle.vote.specs.Limits.{KindUpTo};

use crate::fit::Fitting;
use crate::record::Record;
use quorum::FailureRule;
use vote::{Method, News, Vote, Voting};

impl Fitting {
    // Counts a vote that the caller has checked: what is newly posted, or None where it is counted already.
    pub(crate) fn count<R: FailureRule>(
        &self,
        rule: &R,
        state: &mut Record,
        vote: Vote,
    ) -> Option<News>
        requires rule { ((R.meaning rule.now).crew ≤ 16) × (1 ≤ (R.meaning rule.now).cover) }
        requires vote { (vote.sender < (R.meaning rule.now).crew) × KindUpTo (kinds_used self.now.fit.method self.now.fit.depth) vote.kind × (vote.value ≤ self.now.fit.characters) }
        ensures { Counts (R.meaning rule.now) self.now.fit vote state.old state.new result }
    {
        let voting = Voting {
            rule,
            characters: self.fit.characters,
            depth: self.fit.depth,
        };
        match (self.fit.method, state) {
            (Method::Plain, Record::Gathers(plain)) => plain.count(&voting, vote),
            (Method::Echo, Record::Echoes(echo)) => echo.count(&voting, vote),
            // a record of the other method shows no history of this board
            _ => None,
        }
    }
}
