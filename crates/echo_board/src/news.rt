// Words as sets of values: value v adds 2 to the power v.
ghost use Rattle.std.specs.Prelude.{◌≡◌, ◌≤◌};
ghost use Rattle.echo_board.specs.Steps.{word_set, fresh};
ghost use Rattle.vote.specs.Limits.{max_characters};
ghost use Rattle.agreement.specs.Echo.{echo};
ghost use Rattle.vote.specs.News.{first_news};
ghost use Rattle.vote.specs.Search.{or_else};
ghost use Rattle.vote.specs.Setting.{Setting};

use vote::{ECHO, MAX_CHARACTERS, News};

// The value that the word bears, if there is one, as a set. No `From`: such a set is a number, and has no type of its own.
#[tactic(auto, using(crate::proofs::Starts::word_none, crate::proofs::Starts::word_held, crate::proofs::Starts::word_beyond))]
fn value_set(word: Option<u8>) -> u16
    ensures { result ≡ word_set word }
{
    match word {
        Some(value) if value <= MAX_CHARACTERS => 1 << value,
        _ => 0,
    }
}

// Keeps the word that is held, and otherwise what is found; answers what is new, as a set.
#[tactic(auto, using(crate::proofs::Starts::fresh_none, crate::proofs::Starts::fresh_some))]
pub(crate) fn keep(held: &mut Option<u8>, found: Option<u8>) -> u16
    ensures kept { held.new ≡ or_else held.old found }
    ensures new { result ≡ fresh held.old found }
{
    match *held {
        None => {
            *held = found;
            value_set(found)
        }
        Some(_) => 0,
    }
}

// What a board posts as it starts with a character: its echo.
#[tactic(auto, using(crate::proofs::Starts::start_news))]
pub fn first_news(start: u8) -> News
    requires { start ≤ max_characters }
    ensures { (S : Setting) → result ≡ first_news (echo S) start }
{
    News::one(ECHO, start)
}
