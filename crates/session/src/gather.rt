// The bytes of a line as they come in, and of an answer as it goes out, with room for one more than a line can have, which is enough to see that a longer one cannot be read.
ghost use Rattle.std.specs.Prelude.{◌≡◌, [], ◌∷◌, ◌++◌, ◌==◌, ◌≤◌, length, take, decimal};
ghost use Rattle.fixed.specs.Items.{items_of};
ghost use Rattle.session.specs.Gathering.{ReadsTheSame, EndsWith};

use fixed::Fixed;
use itoa::Buffer;

pub const ROOM: usize = 122;

#[derive(Clone, Copy)]
pub struct Gathered {
    pub(crate) bytes: Fixed<u8, ROOM>,
}

impl Gathered {
    pub fn new() -> Gathered
        ensures { items_of result.bytes ≡ [] }
    {
        Gathered {
            bytes: Fixed::new(0),
        }
    }

    // Nothing is gathered, whatever was.
    pub fn clear(&mut self)
        ensures { items_of self.new.bytes ≡ [] }
    {
        self.bytes.clear();
    }

    // One byte more; whether it ends the line.
    pub fn add(&mut self, byte: u8) -> bool
        ensures ends { result ≡ (byte == 10) }
        ensures gathers { items_of self.new.bytes ≡ take 122 (items_of self.old.bytes ++ byte ∷ []) }
    {
        // A byte that finds no room is dropped.
        let _ = self.bytes.push(byte);
        byte == b'\n'
    }

    // The bytes, one after the other.
    pub fn add_all(&mut self, bytes: &[u8])
        ensures { items_of self.new.bytes ≡ take 122 (items_of self.old.bytes ++ bytes.now) }
    {
        // nearly all that is added has room, and goes in as a whole
        if self.bytes.extend(bytes) {
            return;
        }
        for byte in bytes {
            self.add(*byte);
        }
    }

    // The line that was begun and that these bytes end, or the front of a longer one: the bytes alone where nothing was begun.
    // Those are not gathered, for speed: that takes about 22 instructions a line fewer.
    #[inline(always)]
    pub(crate) fn ended<'a>(&'a mut self, end: &'a [u8]) -> &'a [u8]
        ensures { EndsWith (items_of self.old.bytes) end.now result.now }
    {
        if self.line().is_empty() {
            return end;
        }
        self.add_all(end);
        self.line()
    }

    // The number as it is written in base ten.
    #[tactic(auto, using(std::proofs::lemmas::Fmt::decimal_digit, crate::proofs::Telling::digits_fit))]
    #[inline(always)]
    pub(crate) fn add_number(&mut self, number: usize)
        ensures gathers { items_of self.new.bytes ≡ take 122 (items_of self.old.bytes ++ decimal number) }
        ensures digits { length (decimal number) ≤ 20 }
    {
        // nearly all numbers are of one digit, and this way takes some 40 instructions less for each
        if number < 10 {
            self.add(b'0' + number as u8);
        } else {
            self.add_all(Buffer::new().format(number).as_bytes());
        }
    }

    // The line, or the front of a longer one.
    #[tactic(auto, using(crate::proofs::Cutting::cut))]
    pub fn line(&self) -> &[u8]
        ensures line { result.now ≡ items_of self.now.bytes }
        ensures a_line_cut_at_the_room_reads_the_same { ReadsTheSame }
    {
        self.bytes.as_slice()
    }
}
