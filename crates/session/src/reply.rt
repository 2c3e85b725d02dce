// What a line is answered, and how the answer is written.
ghost use Rattle.std.specs.Prelude.{◌≡◌, ◌<◌, [], ◌∷◌, ◌++◌, length, Some};
ghost use Rattle.fixed.specs.Items.{items_of};
ghost use Rattle.lines.specs.Lines.{line_feed};
ghost use Rattle.session.specs.Texts.{reply_text};

use crate::fault::SessionFault;
use crate::gather::Gathered;
use crate::letter::Letter;
use refusal::Refusal;
use std::fmt;
use vote::Decision;

// What an accepted line did: how many words were posted, and what the board that the line names first has decided, if it has.
#[derive(Clone, Copy)]
pub struct Played {
    pub words: usize,
    pub decision: Option<Decision>,
}

#[derive(Clone, Copy)]
pub struct Reply {
    pub letter: Letter,
    pub answer: Result<Played, SessionFault>,
}

impl Reply {
    // No call can be read from the line.
    pub(crate) const UNREADABLE: Reply = Reply {
        letter: Letter::Unreadable,
        answer: Err(SessionFault::Unreadable),
    };

    // Puts the answer, as its line tells it, in the place of what was gathered, without the line feed. By hand and not by `write!`, for speed:
    // part by part through a formatter it takes some 250 instructions more for each line of `bench`. `Display` writes the same bytes.
    fn put_text(&self, text: &mut Gathered)
        ensures value { items_of text.new.bytes ≡ reply_text self.now }
        ensures short { length (items_of text.new.bytes) < 122 }
    {
        text.clear();
        text.add(u8::from(self.letter));
        match self.answer {
            Err(fault) => {
                text.add(b',');
                text.add_number(usize::from(Refusal::from(fault).number));
                text.add_all(b",0,-,-");
            }
            Ok(played) => {
                text.add_all(b",0,");
                text.add_number(played.words);
                match played.decision {
                    None => text.add_all(b",-,-"),
                    Some(decision) => {
                        text.add(b',');
                        text.add_number(usize::from(decision.value));
                        text.add(b',');
                        text.add_number(usize::from(decision.grade));
                    }
                }
            }
        }
    }

    // Puts the line that answers, with its line feed, in the place of what was gathered.
    pub fn put_line(&self, line: &mut Gathered)
        ensures { items_of line.new.bytes ≡ reply_text self.now ++ line_feed ∷ [] }
    {
        self.put_text(line);
        line.add(b'\n');
    }
}

impl fmt::Display for Reply {
    ghost output = { λ r. Some (reply_text r) };

    fn fmt<W: fmt::Write>(&self, f: &mut fmt::Formatter<W>) -> fmt::Result {
        let mut text = Gathered::new();
        self.put_text(&mut text);
        let text = str::from_utf8(text.line()).map_err(|_| fmt::Error)?;
        f.write_str(text)
    }
}
