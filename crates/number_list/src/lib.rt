// Lists of numbers as lines write them, read into a Vec. A crate of its own, on which no other is built: nothing below the programs allocates.
// So `rule_check` and `board_bench` do not call it, and have a `numbers` each of the same text.

#![tactic(auto)]

mod list;

pub use list::numbers;

#[cfg(test)]
mod tests {
    use super::numbers;
    use std::test::Fail;

    #[test]
    fn numbers_with_commas_between_are_read(rt: HostRuntime) -> Result<(), Fail> {
        let read = numbers(rt.alloc(), b"0,65535,10")?;
        let found = match &read {
            Some(values) => values.as_slice() == [0u16, 65535, 10].as_slice(),
            None => false,
        };
        assert!(rt; found);
        assert!(rt; numbers(rt.alloc(), b"1,,2")?.is_none());
        Ok(())
    }
}
