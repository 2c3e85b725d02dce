// Numbers with commas between, in room of their own.
ghost use Rattle.std.specs.Prelude.{◌≡◌, ◌<◌, length, Some, None, MatchOption};
ghost use Rattle.fixed.specs.Items.{items_of};
ghost use Rattle.numerals.specs.Numerals.{numbers_in};

use fixed::Fixed;
use numerals::number;

// As many numbers as a line can hold.
const MAX_NUMBERS: usize = 60;

pub type Numbers = Fixed<u16, MAX_NUMBERS>;

// The numbers that the bytes write, if they write such. Each number but the last takes two bytes at least.
// It stands beside the `numbers` of two programs, which fills a Vec: nothing is allocated below the programs, and one function over both would need
// a clause on what it has put in, longer than these five lines.
pub(crate) fn read_numbers(bytes: &[u8]) -> Option<Numbers>
    requires { length bytes.now < 120 }
    ensures { MatchOption result (numbers_in bytes.now ≡ None) (λ v. numbers_in bytes.now ≡ Some (items_of v)) }
{
    let mut done = Fixed::new(0);
    for part in bytes.split(|b| *b == b',') {
        done.push(number(part)?).ok()?;
    }
    Some(done)
}
