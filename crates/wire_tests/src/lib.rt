// Stories about the wire, each proved and then run. They stand apart from the crate so that it is proved once.

#![tactic(auto)]

#[cfg(test)]
mod tests {
    use refusal::{Layer, Refusal};
    use std::test::Fail;
    use wire::{FRAME_MAX, FrameFault, SLIP_MAX, Slip, Word, read_frame, write_word};

    const LONGEST: Word = Word {
        group: 65535,
        change: 65535,
        sender: 15,
        kind: 5,
        value: 8,
    };

    const SHORTEST: Word = Word {
        group: 1,
        change: 1,
        sender: 0,
        kind: 1,
        value: 3,
    };

    // Last autumn the tail of an older frame was counted as a vote.
    #[test]
    fn a_short_frame_after_a_long_one_leaves_no_tail(rt: HostRuntime) -> Result<(), Fail> {
        let mut buf = [b'#'; 24];
        assert_eq!(rt; write_word(LONGEST, &mut buf)?, FRAME_MAX);
        assert_eq!(rt; read_frame(&buf[0..19])?, LONGEST);
        assert_eq!(rt; write_word(SHORTEST, &mut buf)?, 10);
        assert_eq!(rt; &buf[0..10], b"1,1,0,1,3\n".as_slice());
        assert_eq!(rt; &buf[10..24], [0u8; 14].as_slice());
        assert_eq!(rt; read_frame(&buf[0..10])?, SHORTEST);
        Ok(())
    }

    #[test]
    fn a_frame_with_the_tail_of_another_is_refused(rt: HostRuntime) {
        assert_eq!(rt;
            read_frame(b"1,1,0,1,3\n5,8\n"),
            Err(FrameFault::Trailing(10))
        );
    }

    #[test]
    fn a_buffer_too_short_is_left_as_it_was(rt: HostRuntime) {
        let mut buf = [b'#'; 9];
        assert_eq!(rt;
            write_word(SHORTEST, &mut buf),
            Err(FrameFault::ShortBuffer)
        );
        assert_eq!(rt; &buf[0..9], b"#########".as_slice());
    }

    #[test]
    fn a_word_that_no_frame_can_carry_is_not_written(rt: HostRuntime) {
        let mut buf = [b'#'; 24];
        let word = Word {
            sender: 16,
            ..SHORTEST
        };
        assert_eq!(rt; write_word(word, &mut buf), Err(FrameFault::OutOfRange(4)));
        assert_eq!(rt; &buf[0..3], b"###".as_slice());
    }

    #[test]
    fn a_refusal_tells_number_place_and_layer(rt: HostRuntime) {
        let told = Refusal::from(FrameFault::LeadingZero(4));
        assert_eq!(rt;
            told,
            Refusal {
                number: 12,
                place: Some(4),
                board: None,
            }
        );
        assert_eq!(rt; told.layer(), Layer::Frame);
    }

    #[test]
    fn a_slip_is_written_by_kind_and_then_value(rt: HostRuntime) -> Result<(), Fail> {
        let mut buf = [b'#'; SLIP_MAX];
        let mut slip = Slip::empty(1, 7, 2)?;
        let last = slip.post(5, 0);
        let second = slip.post(1, 4);
        let first = slip.post(1, 2);
        let again = slip.post(1, 4);
        let outside = slip.post(6, 0);
        let count = slip.count();
        let written = slip.write(&mut buf);
        let left = slip.count();
        let Ok(len) = written else { unreachable() };
        last?;
        second?;
        first?;
        again?;
        assert_eq!(rt; outside, Err(FrameFault::OutOfRange(6)));
        assert_eq!(rt; count, 3);
        assert_eq!(rt; left, 0);
        assert_eq!(rt; len, 30);
        assert_eq!(rt;
            &buf[0..30],
            b"1,7,2,1,2\n1,7,2,1,4\n1,7,2,5,0\n".as_slice()
        );
        assert_eq!(rt; &buf[30..60], [0u8; 30].as_slice());
        Ok(())
    }

    #[test]
    fn a_slip_that_does_not_fit_is_handed_back_with_its_words(rt: HostRuntime) -> Result<(), Fail> {
        let mut slip = Slip::empty(1, 1, 0)?;
        let posted = slip.post(1, 3);
        let mut short = [b'#'; 9];
        let mut long = [b'#'; SLIP_MAX];
        let refused = slip.write(&mut short);
        let count = slip.count();
        let written = slip.write(&mut long);
        let Ok(len) = written else { unreachable() };
        posted?;
        assert_eq!(rt; refused, Err(FrameFault::ShortBuffer));
        assert_eq!(rt; &short[0..9], b"#########".as_slice());
        assert_eq!(rt; count, 1);
        assert_eq!(rt; len, 10);
        Ok(())
    }
}
