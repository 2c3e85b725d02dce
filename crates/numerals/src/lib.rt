// Numbers as lines write them: in base ten, without leading zeros, at most 65535, alone or ended by a comma.

#![tactic(auto)]

mod digits;
mod field;

pub use digits::number;
pub use field::read_field;

#[cfg(test)]
mod tests {
    use super::number;
    use std::test::Fail;

    #[test]
    fn a_leading_zero_and_a_number_too_large_are_not_read(rt: HostRuntime) -> Result<(), Fail> {
        assert_eq!(rt; number(b"0"), Some(0));
        assert_eq!(rt; number(b"01"), None);
        assert_eq!(rt; number(b"65535"), Some(65535));
        assert_eq!(rt; number(b"65536"), None);
        assert_eq!(rt; number(b""), None);
        Ok(())
    }
}
