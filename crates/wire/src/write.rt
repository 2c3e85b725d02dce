// Writes a word as its frame, and leaves nothing behind it.
ghost use Rattle.std.specs.Prelude.{◌≡◌, ℕ, ◌+◌, ◌≤◌, length, take, IfOk, IfSome, OnSome, Ok, None, slice_index};
ghost use Rattle.wire.specs.Fields.{is_within};
ghost use Rattle.wire.specs.Frames.{frame_of, word_in};
ghost use Rattle.wire.specs.Writes.{put_front, range_fault, unless, place_behind, word_written, buffer_after};

use crate::fault::FrameFault;
use crate::limits::{MAX_ID, MAX_KIND, MAX_SENDER, MAX_VALUE};
use crate::number::{put_field, width};
use crate::word::Word;

// The largest kind and the largest value, as wide as a word has them.
const LAST_KIND: u8 = MAX_KIND as u8;

const LAST_VALUE: u8 = MAX_VALUE as u8;

// How many bytes the word's frame has.
#[tactic(auto, using(crate::proofs::FrameText::frame_length, std::proofs::lemmas::List::length_push))]
pub(crate) fn frame_len(word: Word) -> usize
    ensures value { result ≡ length (frame_of word) }
    ensures bound { result ≤ 30 }
{
    // the five fields stand one by one, here and twice below: loops over one array of them were tried, prove, and cost 94 instructions more for each line of `bench`
    width(word.group)
        + width(word.change)
        + width(word.sender as u16)
        + width(word.kind as u16)
        + width(word.value as u16)
        + 5
}

// The frame of a word whose five numbers are one digit each and in range: nearly all words are such, and this way takes some 55 instructions less
// for each line of `bench`.
#[tactic(auto, using(crate::proofs::ShortFrames::short_in_range, crate::proofs::ShortFrames::short_frame_is))]
#[inline(always)]
fn short_frame_of(word: Word) -> Option<[u8; 10]>
    ensures in_range { OnSome result (range_fault word ≡ None) }
    ensures bytes { IfSome result (λ bytes. bytes ≡ frame_of word) }
{
    let Word {
        group: 1..=9,
        change: 1..=9,
        sender: 0..=9,
        kind: 1..=LAST_KIND,
        value: 0..=LAST_VALUE,
    } = word
    else {
        return None;
    };
    Some([
        b'0' + word.group as u8,
        b',',
        b'0' + word.change as u8,
        b',',
        b'0' + word.sender,
        b',',
        b'0' + word.kind,
        b',',
        b'0' + word.value,
        b'\n',
    ])
}

// Puts the bytes at the front, and answers how many they are.
#[inline(always)]
fn put(bytes: &[u8], buf: &mut [u8]) -> usize
    requires { length bytes.now ≤ length buf.old }
    ensures value { result ≡ length bytes.now }
    ensures buffer { buf.new ≡ put_front bytes.now buf.old }
{
    buf[..bytes.len()].copy_from_slice(bytes);
    bytes.len()
}

// Puts the word's frame at the front, and answers how many bytes it has.
#[tactic(auto, using(crate::proofs::FrameText::frame_length))]
#[inline(always)]
pub(crate) fn put_frame(word: Word, buf: &mut [u8]) -> usize
    requires { length (frame_of word) ≤ length buf.old }
    ensures value { result ≡ length (frame_of word) }
    ensures buffer { buf.new ≡ put_front (frame_of word) buf.old }
{
    if let Some(frame) = short_frame_of(word) {
        return put(&frame, buf);
    }
    let change = put_field(word.group, b',', buf);
    let sender = change + put_field(word.change, b',', &mut buf[change..]);
    let kind = sender + put_field(word.sender as u16, b',', &mut buf[sender..]);
    let value = kind + put_field(word.kind as u16, b',', &mut buf[kind..]);
    value + put_field(word.value as u16, b'\n', &mut buf[value..])
}

// The place after the field of this number that begins at `place`, where the number is in its range.
fn place_behind(number: u16, low: u16, high: u16, place: usize) -> Result<usize, FrameFault>
    requires { place ≤ 30 }
    ensures value { result ≡ place_behind number low high place }
    ensures bound { IfOk result (λ p. p ≤ place + 6) }
{
    if !(low..=high).contains(&number) {
        return Err(FrameFault::OutOfRange(place));
    }
    Ok(place + width(number) + 1)
}

// Refuses a word that no frame can carry: tells its first number that is out of its range, by the place where the field would begin.
#[tactic(auto, using(crate::proofs::Ranging::by_places))]
pub(crate) fn check_ranges(word: Word) -> Result<(), FrameFault>
    ensures { result ≡ unless (range_fault word) (Ok tt) }
{
    let change = place_behind(word.group, 1, MAX_ID, 0)?;
    let sender = place_behind(word.change, 1, MAX_ID, change)?;
    let kind = place_behind(word.sender as u16, 0, MAX_SENDER, sender)?;
    let value = place_behind(word.kind as u16, 1, MAX_KIND, kind)?;
    place_behind(word.value as u16, 0, MAX_VALUE, value)?;
    Ok(())
}

// Writes the word's frame and then zero bytes to the end of the buffer, and answers the frame's length;
// or refuses, and leaves the buffer as it was.
#[tactic(auto, using(crate::proofs::FrameText::word_reads, crate::proofs::FrameText::frame_max_length, crate::proofs::Ranging::passed_ranges, crate::proofs::Ranging::none_ranges, crate::proofs::PutFront::front_kept))]
pub fn write_word(word: Word, buf: &mut [u8]) -> Result<usize, FrameFault>
    ensures value { result ≡ word_written word (length buf.old) }
    ensures buffer { buf.new ≡ buffer_after (frame_of word) result buf.old }
    ensures the_frame_reads_back_as_the_word { IfOk result (λ n. word_in (take n buf.new) ≡ Ok word) }
    ensures a_frame_is_at_most_19_bytes { IfOk result (λ n. n ≤ 19) }
    ensures no_byte_behind_is_other_than_zero { IfOk result (λ n. (k : ℕ) → n ≤ k → slice_index buf.new k ≡ 0) }
{
    if let Some(frame) = short_frame_of(word)
        && frame.len() <= buf.len()
    {
        let end = put(&frame, buf);
        buf[end..].fill(0);
        return Ok(end);
    }
    check_ranges(word)?;
    // these lines stand in `Slip::write` too: a helper would take what puts the bytes as a closure, with clauses longer than they are
    if buf.len() < frame_len(word) {
        return Err(FrameFault::ShortBuffer);
    }
    let len = put_frame(word, buf);
    buf[len..].fill(0);
    Ok(len)
}
