// The frames of the words that a board has posted, put one after the other.
ghost use Rattle.std.specs.Prelude.{◌≡◌, ◌≤◌, ◌==◌, length};
ghost use Rattle.std.specs.List.{flat_map};
ghost use Rattle.wire.specs.Frames.{frame_of};
ghost use Rattle.wire.specs.Limits.{IsKind};
ghost use Rattle.wire.specs.Slips.{words_of, words_of_kind, frames_of};
ghost use Rattle.wire.specs.Writes.{put_front};

use crate::limits::MAX_VALUE;
use crate::posted::{KINDS, Posted};
use crate::write::{frame_len, put_frame};

// How many values a word can have, 0 included. `vote` has this number too, and `quorum` a test of such bits: this crate builds on neither.
const VALUES: u8 = MAX_VALUE as u8 + 1;

// How many sets of values there are.
const VALUE_SETS: u16 = 1 << VALUES;

impl Posted {
    // Puts the frames of one kind, a number as in a Word, at the front, by value, and answers how many bytes they have.
    #[tactic(auto, using(crate::proofs::Counting::none_of_kind))]
    fn put_kind(&self, kind: u8, buf: &mut [u8]) -> usize
        requires kind { IsKind kind }
        requires room { length (flat_map frame_of (words_of_kind self.now kind)) ≤ length buf.old }
        ensures value { result ≡ length (flat_map frame_of (words_of_kind self.now kind)) }
        ensures buffer { buf.new ≡ put_front (flat_map frame_of (words_of_kind self.now kind)) buf.old }
    {
        let values = self.kinds[(kind - 1) as usize];
        if values % VALUE_SETS == 0 {
            return 0;
        }
        let mut len = 0;
        // a range: the value itself is wanted, not a place in a list
        for value in 0..VALUES {
            if (values >> value) % 2 == 1 {
                len += put_frame(self.word(kind, value), &mut buf[len..]);
            }
        }
        len
    }

    // Puts all frames from the front of the buffer on, by kind and then value, and answers how many bytes they have.
    pub(crate) fn put_frames(&self, buf: &mut [u8]) -> usize
        requires { length (frames_of self.now) ≤ length buf.old }
        ensures value { result ≡ length (frames_of self.now) }
        ensures buffer { buf.new ≡ put_front (frames_of self.now) buf.old }
    {
        let mut len = 0;
        // a range: the kind itself is wanted, not its set alone
        for kind in 1..=KINDS as u8 {
            len += self.put_kind(kind, &mut buf[len..]);
        }
        len
    }

    // Whether no word is posted.
    pub(crate) fn is_empty(&self) -> bool
        ensures { result ≡ (length (words_of self.now) == 0) }
    {
        self.kinds.iter().all(|values| values % VALUE_SETS == 0)
    }

    // How many words are posted.
    pub(crate) fn count(&self) -> usize
        ensures value { result ≡ length (words_of self.now) }
        ensures bound { result ≤ 45 }
    {
        self.kinds
            .iter()
            .map(|values| (values % VALUE_SETS).count_ones() as usize)
            .sum()
    }

    // How many bytes their frames have: all are of one length, since a kind and a value are one digit each.
    #[tactic(auto, using(crate::proofs::Counting::frames_weigh))]
    pub(crate) fn frames_len(&self) -> usize
        ensures { result ≡ length (frames_of self.now) }
    {
        self.count() * frame_len(self.word(1, 0))
    }
}
