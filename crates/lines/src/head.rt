// What a line that opens a group writes: a method's letter, a comma, numbers.
ghost use Rattle.std.specs.Prelude.{◌≡◌, ℕ, ◌<◌, List, length};
ghost use Rattle.vote.specs.declared.Method.{Method as OfMethod};
ghost use Rattle.lines.specs.Calls.{Call};
ghost use Rattle.lines.specs.Lines.{opened_in};
ghost use Rattle.lines.specs.Told.{head_call};

use crate::list::{Numbers, read_numbers};
use vote::Method;

#[derive(Clone, Copy)]
pub struct Head {
    pub method: Method,
    pub numbers: Numbers,
}

// What is then made of the two is what is made of the bytes.
pub(crate) fn read_head(bytes: &[u8]) -> Option<Head>
    requires { length bytes.now < 120 }
    ensures { (call : OfMethod → List ℕ → Call) → head_call call result ≡ opened_in call bytes.now }
{
    let [letter, b',', rest @ ..] = bytes else {
        return None;
    };
    Some(Head {
        method: Method::try_from(*letter).ok()?,
        numbers: read_numbers(rest)?,
    })
}
