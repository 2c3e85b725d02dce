// A slip: the words that a board has just posted, to be written out before the slip is let go.
ghost use Rattle.std.specs.Prelude.{◌≡◌, ℕ, ◌*◌, ◌≤◌, ◌==◌, true, [], length, is_ok, IfOk, IfErr, if◌then◌else◌, Ok, OnOk, slice_index};
ghost use Rattle.wire.specs.Slips.{words_of, word_of, frames_of, addressed, slip_made, with_word, OneMore, ReadsBack, emptied, mapped, mapped_both};
ghost use Rattle.wire.specs.Writes.{range_fault, unless, fitting, buffer_after};

use crate::fault::FrameFault;
use crate::posted::Posted;
use crate::write::check_ranges;

pub struct Slip {
    posted: Posted,
    ghost sound: { addressed posted ≡ true },
}

impl Drop for Slip {
    // A slip with words is not let go.
    fn drop(self)
        requires { words_of self.posted ≡ [] }
    {
        let Slip { posted: _ } = self;
    }
}

impl Slip {
    // A slip without words.
    #[tactic(auto, using(crate::proofs::Slipped::made_empty, crate::proofs::Slipped::none_posted_none))]
    pub fn empty(group: u16, change: u16, sender: u8) -> Result<Slip, FrameFault>
        ensures value { mapped (λ s. s.posted) result ≡ slip_made group change sender }
        ensures no_words { IfOk result (λ s. words_of s.posted ≡ []) }
    {
        Slip::holding(Posted::none(group, change, sender))
    }

    // A slip with these words. Of a set of values, what is above the largest value stands for no word.
    #[tactic(auto, using(crate::proofs::Ranging::passed_ranges, crate::proofs::Slipped::address_sound))]
    pub fn holding(posted: Posted) -> Result<Slip, FrameFault>
        ensures { mapped (λ s. s.posted) result ≡ unless (range_fault (word_of posted 1 0)) (Ok posted) }
    {
        check_ranges(posted.word(1, 0))?;
        Ok(Slip { posted })
    }

    // Whether there is no word on the slip.
    pub fn is_empty(&self) -> bool
        ensures { result ≡ (length (words_of self.now.posted) == 0) }
    {
        self.posted.is_empty()
    }

    // How many words are on the slip.
    pub fn count(&self) -> usize
        ensures { result ≡ length (words_of self.now.posted) }
    {
        self.posted.count()
    }

    // Puts the word of this kind and value, whatever these numbers are, so that a bad one gets its refusal, on the slip; or refuses, and leaves the slip as it was.
    #[tactic(auto, using(crate::proofs::Ranging::passed_ranges, crate::proofs::Slipped::same_address))]
    pub fn post(&mut self, kind: u8, value: u8) -> Result<(), FrameFault>
        ensures value { result ≡ unless (range_fault (word_of self.old.posted kind value)) (Ok tt) }
        ensures posted { self.new.posted ≡ (if is_ok result then with_word self.old.posted kind value else self.old.posted) }
        ensures one_word_more_and_no_other { OnOk result (OneMore self.old.posted self.new.posted kind value) }
    {
        check_ranges(self.posted.word(kind, value))?;
        self.posted.post(kind, value);
        Ok(())
    }

    // Writes the frames, by kind and then value, and then zero bytes to the end of the buffer, and empties the slip;
    // answers how many bytes the frames have. Or refuses, and leaves the buffer and the slip as they were.
    #[tactic(auto, using(crate::proofs::Slipped::frames_short, crate::proofs::Counting::words_le, crate::proofs::Slipped::same_address, crate::proofs::Slipped::none_posted_none, crate::proofs::Slipped::reads_back))]
    pub fn write(&mut self, buf: &mut [u8]) -> Result<usize, FrameFault>
        ensures value { result ≡ fitting (frames_of self.old.posted) (length buf.old) }
        ensures buffer { buf.new ≡ buffer_after (frames_of self.old.posted) result buf.old }
        ensures posted { self.new.posted ≡ (if is_ok result then emptied self.old.posted else self.old.posted) }
        ensures a_written_slip_is_empty { OnOk result (words_of self.new.posted ≡ []) }
        ensures each_frame_reads_back_as_its_word { OnOk result (ReadsBack self.old.posted) }
        ensures at_most_19_bytes_for_each_word { IfOk result (λ n. n ≤ length (words_of self.old.posted) * 19) }
        ensures a_buffer_of_19_bytes_for_each_word_is_enough { length (words_of self.old.posted) * 19 ≤ length buf.old → is_ok result ≡ true }
        ensures a_buffer_of_855_bytes_is_always_enough { 855 ≤ length buf.old → is_ok result ≡ true }
        ensures no_byte_behind_is_other_than_zero { IfOk result (λ n. (k : ℕ) → n ≤ k → slice_index buf.new k ≡ 0) }
    {
        if buf.len() < self.posted.frames_len() {
            return Err(FrameFault::ShortBuffer);
        }
        let len = self.posted.put_frames(buf);
        buf[len..].fill(0);
        self.posted.clear();
        Ok(len)
    }

    // Writes the slip and lets it go; or hands it back as it was, with the refusal.
    pub fn write_out(mut self, buf: &mut [u8]) -> Result<usize, (Slip, FrameFault)>
        ensures value { mapped_both (λ n. n) (λ e. e.1) result ≡ fitting (frames_of self.posted) (length buf.old) }
        ensures buffer { buf.new ≡ buffer_after (frames_of self.posted) (mapped_both (λ n. n) (λ e. e.1) result) buf.old }
        ensures handed_back { IfErr result (λ e. e.0.posted ≡ self.posted) }
    {
        // matched by hand: a closure for `map_err` would capture the slip, which may not be let go with words
        match self.write(buf) {
            Ok(len) => Ok(len),
            Err(fault) => Err((self, fault)),
        }
    }
}
