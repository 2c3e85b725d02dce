// What is read off the senders of one kind of word. 0 stands for no character, as in the branch that is made of it and in the words that bear it.
ghost use Rattle.std.specs.Prelude.{◌≡◌, ◌<◌, ◌≤◌, false, not};
ghost use Rattle.quorum.specs.Limits.{max_crew};
ghost use Rattle.quorum.specs.Sets.{member};
ghost use Rattle.heard.specs.Masks.{added};
ghost use Rattle.heard.specs.declared.tally.Tally.{Tally};
ghost use Rattle.plain_board.specs.Limits.{max_value};
ghost use Rattle.plain_board.specs.Read.{agreed, Reads, common_of, least_of};

pub use heard::Tally;
use quorum::{FailureRule, has};
use vote::{MAX_CHARACTERS, Vote, Voting};

// Adds the word's sender. False where it is there already: only its first word counts.
pub(crate) fn add_new(tally: &mut Tally, vote: Vote) -> bool
    requires { (vote.sender < max_crew) × (vote.value ≤ max_value) }
    ensures fresh { result ≡ not (member vote.sender tally.old.all) }
    ensures sender { tally.new ≡ added tally.old vote.value vote.sender }
{
    let fresh = !has(tally.all, vote.sender);
    if fresh {
        tally.add(vote.value, vote.sender);
    }
    fresh
}

// Whether every sender's word bears the value; of one above the greatest none does.
pub(crate) fn agrees_on(tally: &Tally, value: u8) -> bool
    ensures value { value ≤ max_value → result ≡ agreed tally.now value }
    ensures beyond { max_value < value → result ≡ false }
{
    if value > MAX_CHARACTERS {
        return false;
    }
    tally.values[value as usize] == tally.all
}

// The lowest character that every sender's word bears, or 0.
pub(crate) fn common<R: FailureRule>(voting: &Voting<R>, tally: &Tally) -> u8
    ensures low { result ≤ voting.now.characters }
    ensures value { Reads voting.now.characters common_of tally.now result }
{
    voting
        .lowest_character(|v| tally.values[v as usize] == tally.all)
        .unwrap_or(0)
}

// The lowest character that some sender's word bears, or 0.
pub(crate) fn least<R: FailureRule>(voting: &Voting<R>, tally: &Tally) -> u8
    ensures { Reads voting.now.characters least_of tally.now result }
{
    voting
        .lowest_character(|v| tally.values[v as usize] != 0)
        .unwrap_or(0)
}
