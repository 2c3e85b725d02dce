// What a record holds: the words posted and the decision.
ghost use Rattle.std.specs.Prelude.{◌≡◌, ℕ, ◌≤◌, List, ◌≢◌};
ghost use Rattle.echo_board.specs.Records.{record_of};
ghost use Rattle.heard.specs.Limits.{max_characters};
ghost use Rattle.agreement.specs.Echo.{posts, said as said_by, decided as decided_by};
ghost use Rattle.vote.specs.Setting.{Setting};
ghost use Rattle.vote.specs.declared.Vote.{Vote};

use crate::board::EchoRecord;
use quorum::has;
use vote::{Decision, ECHO};

impl EchoRecord {
    // What is decided, if anything is.
    #[tactic(auto, unfolding(crate::specs::Records::record_of))]
    pub fn decided(&self) -> Option<Decision>
        ensures { (S : Setting) (start : ℕ) (h : List Vote) → self.now ≡ record_of S start h → result ≡ decided_by S h }
    {
        self.held.decision
    }

    // The word of a kind other than 1 that is posted, if it is. The kind stays a number, as in a Vote: posted is said of all numbers.
    #[tactic(auto, using(crate::proofs::Fields::said_none), unfolding(crate::specs::Records::record_of))]
    fn said(&self, kind: u8) -> Option<u8>
        ensures { (S : Setting) (start : ℕ) (h : List Vote) → self.now ≡ record_of S start h → (kind ≢ 1) → result ≡ said_by S h kind }
    {
        match kind {
            2 => self.held.second,
            3 => self.held.third,
            4 => self.held.fourth,
            5 => self.held.fifth,
            _ => None,
        }
    }

    // Whether the word of this kind and value is posted, whatever these numbers are: one may ask of any, and is answered.
    #[tactic(auto, using(crate::proofs::Fields::echo_posted, crate::proofs::Fields::word_posted))]
    pub fn has_posted(&self, kind: u8, value: u8) -> bool
        ensures { (S : Setting) (start : ℕ) (h : List Vote) → start ≤ max_characters → S.characters ≤ max_characters → self.now ≡ record_of S start h → result ≡ posts S start h kind value }
    {
        if kind == ECHO {
            has(self.held.echoes, value)
        } else {
            self.said(kind) == Some(value)
        }
    }
}
