// The words that one board has posted of one change, as a set.
ghost use Rattle.std.specs.Prelude.{◌≡◌, ◌≤◌};

use crate::limits::MAX_KIND;
use crate::word::Word;

// How many kinds of words there are, counted from 1.
pub const KINDS: usize = MAX_KIND as usize;

// Group, change and sender stay three fields, as in `Word`: each is read alone where a frame or a refusal is made, and only the two calls that make
// an empty set take the three together.
#[derive(Clone, Copy, Debug)]
pub struct Posted {
    pub group: u16,
    pub change: u16,
    pub sender: u8,
    // for each kind, from 1 on, the set of its values: value v adds 2 to the power v (a number each: no heap)
    pub kinds: [u16; KINDS],
}

impl Posted {
    ghost use Rattle.wire.specs.Limits.{IsKind};
    ghost use Rattle.wire.specs.Slips.{word_of, none_posted, emptied, with_word, OneMore};

    // Nothing posted yet.
    pub(crate) fn none(group: u16, change: u16, sender: u8) -> Posted
        ensures { result ≡ none_posted group change sender }
    {
        Posted {
            group,
            change,
            sender,
            kinds: [0; KINDS],
        }
    }

    // The word of this kind and value that the board posts of the change. They stay numbers, as in a Word: a slip asks of any whether a frame can carry them.
    pub(crate) fn word(&self, kind: u8, value: u8) -> Word
        ensures { result ≡ word_of self.now kind value }
    {
        Word {
            group: self.group,
            change: self.change,
            sender: self.sender,
            kind,
            value,
        }
    }

    // Posts the word of this kind and value too, numbers as in a Word.
    pub(crate) fn post(&mut self, kind: u8, value: u8)
        requires kind { IsKind kind }
        requires value { value ≤ 8 }
        ensures value { self.new ≡ with_word self.old kind value }
        ensures one_more { OneMore self.old self.new kind value }
    {
        let index = (kind - 1) as usize;
        self.kinds[index] |= 1 << value;
    }

    // Takes all words off again.
    pub(crate) fn clear(&mut self)
        ensures { self.new ≡ emptied self.old }
    {
        self.kinds = [0; KINDS];
    }
}
