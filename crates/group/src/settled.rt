// What the terms of a group settle for each board.
ghost use Rattle.std.specs.Prelude.{◌≡◌, ◌<◌, ◌≤◌, MatchOption};
ghost use Rattle.quorum.specs.Rules.{Rule};
ghost use Rattle.group.specs.Terms.{fit_at, lies as lies_in};

use crate::terms::Terms;
use board::{Fit, Fitting};
use quorum::has;
use vote::Method;

impl Terms {
    // The settings of a board, if it is one of the sixteen that there can be.
    #[tactic(auto, using(crate::proofs::Fits::fit_sound))]
    pub(crate) fn fitting(&self, board: u16) -> Option<Fitting>
        ensures { MatchOption result (16 ≤ board) (λ k. (board < 16) × (k.fit ≡ fit_at self.now board)) }
    {
        let start = *self.starts.get(board as usize)?;
        let fit = Fit {
            method: self.method,
            depth: self.depth,
            characters: self.characters,
            group: self.group,
            change: self.change,
            board: board as u8,
            start,
        };
        Some(Fitting { fit })
    }

    // Whether the board is listed, and the method lets listed boards say anything.
    pub(crate) fn lies(&self, board: u16) -> bool
        ensures { (R : Rule) → result ≡ lies_in R self.now board }
    {
        // read first: where it is read in place, the proof does not see that it has 16 bits
        let listed = self.listed;
        match self.method {
            Method::Plain => false,
            Method::Echo => board < 16 && has(listed, board as u8),
        }
    }
}
