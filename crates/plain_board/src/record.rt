// The record of one plain board.
ghost use Rattle.std.specs.Prelude.{◌≡◌, ◌<◌, ◌≤◌, List, [], not};
ghost use Rattle.quorum.specs.Limits.{max_crew};
ghost use Rattle.quorum.specs.Sets.{member};
ghost use Rattle.vote.specs.declared.Vote.{Vote};
ghost use Rattle.vote.specs.Limits.{KindUpTo};
ghost use Rattle.vote.specs.Setting.{Setting};
ghost use Rattle.agreement.specs.Plain.{branch as branch_by, decided as decided_by, posts};
ghost use Rattle.plain_board.specs.Limits.{max_value};
ghost use Rattle.plain_board.specs.Marks.{PlainMarks};
ghost use Rattle.plain_board.specs.Shown.{setting_in, record_of};
ghost use Rattle.plain_board.specs.Step.{of_kind, noted, Counts};

use crate::outcome::stage_on;
use crate::posted;
use crate::stage::Stage;
use crate::tally::{Tally, add_new, common};
use quorum::{FailureRule, ample};
use vote::{Decision, Depth, News, Vote, Voting};

// Plain numbers of a fixed size, so that it fits a cabinet and is copied as it stands.
#[derive(Clone, Copy)]
pub struct PlainRecord {
    stage: Stage,
    first: Tally,
    second: Tally,
}

impl PlainRecord {
    // Nothing is counted.
    #[tactic(auto, using(crate::proofs::Tallies::tally_empty, crate::proofs::Records::start_is))]
    pub fn start() -> PlainRecord
        ensures { (S : Setting) → result ≡ record_of S [] }
    {
        PlainRecord {
            stage: Stage::Gathering,
            first: Tally::empty(),
            second: Tally::empty(),
        }
    }

    // What is decided, if anything is.
    #[tactic(auto, using(crate::proofs::Memory::undecided, crate::proofs::Records::no_branch, crate::proofs::Records::has_branch, crate::proofs::Records::has_decision))]
    pub fn decided(&self) -> Option<Decision>
        ensures { (S : Setting) (h : List Vote) → self.now ≡ record_of S h → result ≡ decided_by S h }
    {
        match self.stage {
            Stage::Gathering => None,
            Stage::Comparing(_) => None,
            Stage::Decided(_, decision) => Some(decision),
        }
    }

    // The branch, if it is fixed.
    #[tactic(auto, using(crate::proofs::Records::no_branch, crate::proofs::Records::has_branch, crate::proofs::Records::has_decision))]
    fn branch(&self) -> Option<u8>
        ensures { (S : Setting) (h : List Vote) → self.now ≡ record_of S h → result ≡ branch_by S h }
    {
        match self.stage {
            Stage::Gathering => None,
            Stage::Comparing(branch) => Some(branch),
            Stage::Decided(branch, _) => Some(branch),
        }
    }

    // Whether a board that started with the character has posted the word. The kind stays a number, as in a Vote: posted is said of all numbers.
    #[tactic(auto, using(crate::proofs::News::posts_start, crate::proofs::News::posts_branch, crate::proofs::News::posts_no_branch, crate::proofs::News::posts_other))]
    pub fn has_posted(&self, depth: Depth, start: u8, kind: u8, value: u8) -> bool
        ensures { (S : Setting) (h : List Vote) → S.depth ≡ depth → self.now ≡ record_of S h → result ≡ posts S start h kind value }
    {
        match (kind, depth) {
            (1, _) => value == start,
            (2, Depth::Two) => self.branch() == Some(value),
            _ => false,
        }
    }

    // Adds the word's sender to those of its kind, a number as in a Vote. False where it is among them already, so that the word repeats another.
    // That the numbers of the word are good is asked for, here and in `add_new`: a type of good words would be made anew at each call from the same three numbers.
    fn note(&mut self, vote: Vote) -> bool
        requires { (vote.sender < max_crew) × (vote.value ≤ max_value) }
        ensures fresh { result ≡ not (member vote.sender (of_kind vote.kind self.old).all) }
        ensures sender { self.new ≡ noted self.old vote }
    {
        match vote.kind {
            1 => add_new(&mut self.first, vote),
            _ => add_new(&mut self.second, vote),
        }
    }

    // Counts the word, unless it repeats another, and moves the board on. The answer is None for a word found counted already, and otherwise what is newly posted.
    // The caller has checked the word: its sender is of the crew, its kind and value are among those that there are.
    #[tactic(auto, using(crate::proofs::Kept::plain_marks))]
    pub fn count<R: FailureRule>(&mut self, voting: &Voting<R>, vote: Vote) -> Option<News>
        requires sender_lt_max_crew { (vote.sender < max_crew) × (vote.sender < (R.meaning voting.now.rule.now).crew) }
        requires le_kind { KindUpTo 2 vote.kind }
        requires value_le_max_value { vote.value ≤ max_value }
        ensures shows { Counts (setting_in voting.now) vote self.old self.new result }
        ensures marks { PlainMarks (setting_in voting.now) }
    {
        if !self.note(vote) {
            return None;
        }
        match (self.stage, vote.kind) {
            (Stage::Gathering, 1) if ample(voting.rule, self.first.all) => {
                let branch = common(voting, &self.first);
                self.stage = stage_on(voting, branch, &self.second);
                Some(posted::on_branch(voting.depth, branch))
            }
            (Stage::Comparing(branch), 2) => {
                self.stage = stage_on(voting, branch, &self.second);
                Some(News::none())
            }
            _ => Some(News::none()),
        }
    }
}
