// Numbers with commas between.
ghost use Rattle.std.specs.Prelude.{◌≡◌, IfOk, Some, None, MatchOption};
ghost use Rattle.numerals.specs.Numerals.{numbers_in};

use numerals::{number, read_field};
use std::alloc::{AllocError, Global};

// The numbers that the bytes write with single commas between, if they write such. Of a part that writes none no more than six bytes are read.
pub fn numbers(heap: Global, bytes: &[u8]) -> Result<Option<Vec<u16>>, AllocError>
    ensures { IfOk result (λ o. MatchOption o (numbers_in bytes.now ≡ None) (λ v. numbers_in bytes.now ≡ Some v.items)) }
{
    let mut done = Vec::new(heap);
    let mut left = bytes;
    while let Some((value, behind)) = read_field(left) {
        done.push(value)?;
        left = behind;
    }
    let Some(value) = number(left) else {
        return Ok(None);
    };
    done.push(value)?;
    Ok(Some(done))
}
