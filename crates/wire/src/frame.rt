// Reads a frame to the word it carries.
ghost use Rattle.std.specs.Prelude.{◌≡◌, ℕ, ◌≤◌, true, List, IfOk, IfSome, Ok};
ghost use Rattle.wire.specs.Fields.{place_after};
ghost use Rattle.wire.specs.Frames.{ended_field, frame_at, word_in, frame_of, carried};
ghost use Rattle.wire.specs.Marked.{MarkedCasesHold};

use crate::fault::FrameFault;
use crate::limits::{MAX_ID, MAX_KIND, MAX_SENDER, MAX_VALUE};
use crate::reader::Reader;
use crate::word::Word;

impl<'a> Reader<'a> {
    // A field and the byte that ends it: the number, and the place after that byte.
    #[tactic(auto, unfolding(crate::specs::Frames::ended_field))]
    #[inline(always)]
    fn ended_field(&mut self, low: u16, high: u16, end: u8) -> Result<(u16, usize), FrameFault>
        ensures value { result ≡ ended_field self.old.bytes.now self.old.place low high end }
        ensures range { IfOk result (λ x. (low ≤ x.0) × (x.0 ≤ high)) }
        ensures place { IfOk result (λ x. self.new.place ≡ x.1) }
        ensures same { self.new.bytes.now ≡ self.old.bytes.now }
    {
        let (number, _) = self.field(low, high)?;
        let place = self.pass(end)?;
        Ok((number, place))
    }

    // The word of the frame that begins here, and the place after its line feed, where the reader then is.
    pub fn frame(&mut self) -> Result<(Word, usize), FrameFault>
        ensures value { result ≡ frame_at self.old.bytes.now self.old.place }
        ensures place { self.new.place ≡ place_after (λ x. x.1) result self.old.place }
        ensures same { self.new.bytes.now ≡ self.old.bytes.now }
    {
        // five calls and no loop: each field has a range, an end and a type of its own
        let mut ahead = *self;
        let (group, _) = ahead.ended_field(1, MAX_ID, b',')?;
        let (change, _) = ahead.ended_field(1, MAX_ID, b',')?;
        let (sender, _) = ahead.ended_field(0, MAX_SENDER, b',')?;
        let (kind, _) = ahead.ended_field(1, MAX_KIND, b',')?;
        let (value, end) = ahead.ended_field(0, MAX_VALUE, b'\n')?;
        let word = Word {
            group,
            change,
            sender: sender as u8,
            kind: kind as u8,
            value: value as u8,
        };
        *self = ahead;
        Ok((word, end))
    }
}

// The digits of the largest kind and of the largest value.
const LAST_KIND_DIGIT: u8 = b'0' + MAX_KIND as u8;

const LAST_VALUE_DIGIT: u8 = b'0' + MAX_VALUE as u8;

// The word of a frame whose five fields are one digit each and in range: nearly all frames are such, and this way takes some 75 instructions less
// for each line of `bench`.
#[tactic(auto, using(crate::proofs::ShortFrames::short_reads))]
#[inline(always)]
fn short_frame(bytes: &[u8]) -> Option<Word>
    ensures { IfSome result (λ w. word_in bytes.now ≡ Ok w) }
{
    let [
        group @ b'1'..=b'9',
        b',',
        change @ b'1'..=b'9',
        b',',
        sender @ b'0'..=b'9',
        b',',
        kind @ b'1'..=LAST_KIND_DIGIT,
        b',',
        value @ b'0'..=LAST_VALUE_DIGIT,
        b'\n',
    ] = bytes
    else {
        return None;
    };
    Some(Word {
        group: (group - b'0') as u16,
        change: (change - b'0') as u16,
        sender: sender - b'0',
        kind: kind - b'0',
        value: value - b'0',
    })
}

// The word that the bytes carry, which are one frame and nothing more.
#[tactic(auto, using(crate::proofs::MarkedCases::marked_cases_hold), unfolding(crate::specs::Frames::word_in))]
pub fn read_frame(bytes: &[u8]) -> Result<Word, FrameFault>
    ensures value { result ≡ word_in bytes.now }
    ensures an_accepted_frame_is_the_one_its_word_has { IfOk result (λ w. (carried w ≡ true) × (bytes.now ≡ frame_of w)) }
    ensures each_word_has_one_frame { IfOk result (λ w. (xs : List ℕ) → word_in xs ≡ Ok w → xs ≡ bytes.now) }
    ensures the_marked_cases_hold { MarkedCasesHold }
{
    if let Some(word) = short_frame(bytes) {
        return Ok(word);
    }
    let mut reader = Reader::new(bytes);
    let (word, end) = reader.frame()?;
    if end != bytes.len() {
        return Err(FrameFault::Trailing(end));
    }
    Ok(word)
}
