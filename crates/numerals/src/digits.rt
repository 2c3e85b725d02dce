// One number.
ghost use Rattle.std.specs.Prelude.{◌≡◌, ◌-◌, cond, Some, None};
ghost use Rattle.numerals.specs.Numerals.{number_in, zero_digit};
ghost use Rattle.numerals.specs.Numerals.{digit as is_digit};

fn digit(byte: u8) -> Option<u16>
    ensures { result ≡ cond (is_digit byte) (Some (byte - zero_digit)) None }
{
    if byte.is_ascii_digit() {
        Some(u16::from(byte - b'0'))
    } else {
        None
    }
}

// The number that the bytes write, if they write one.
#[tactic(auto, using(crate::proofs::Reading::none_after_zero, crate::proofs::Reading::none_behind))]
pub fn number(bytes: &[u8]) -> Option<u16>
    ensures { result ≡ number_in bytes.now }
{
    let (first, rest) = bytes.split_first()?;
    let mut value = digit(*first)?;
    if value == 0 && !rest.is_empty() {
        return None;
    }
    for byte in rest {
        value = value.checked_mul(10)?.checked_add(digit(*byte)?)?;
    }
    Some(value)
}
