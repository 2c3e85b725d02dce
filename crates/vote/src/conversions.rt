// A method from its letter, and a depth from its number.
ghost use Rattle.std.specs.Prelude.{◌≡◌, ok_or};
ghost use Rattle.vote.specs.Conversions.{method_of, depth_of};

use crate::{Depth, Method};

// A byte that is no method's letter.
#[derive(Clone, Copy, PartialEq, Eq, Debug)]
pub struct UnknownMethod(pub u8);

// A number that is no depth.
#[derive(Clone, Copy, PartialEq, Eq, Debug)]
pub struct UnknownDepth(pub u32);

impl TryFrom<u8> for Method {
    type Error = UnknownMethod;

    ghost try_from_gives = { λ letter r. r ≡ ok_or (method_of letter) (record { 0 = letter }) };

    fn try_from(letter: u8) -> Result<Method, UnknownMethod> {
        match letter {
            b'p' => Ok(Method::Plain),
            b'e' => Ok(Method::Echo),
            _ => Err(UnknownMethod(letter)),
        }
    }
}

impl TryFrom<u32> for Depth {
    type Error = UnknownDepth;

    ghost try_from_gives = { λ number r. r ≡ ok_or (depth_of number) (record { 0 = number }) };

    fn try_from(number: u32) -> Result<Depth, UnknownDepth> {
        match number {
            1 => Ok(Depth::One),
            2 => Ok(Depth::Two),
            _ => Err(UnknownDepth(number)),
        }
    }
}
