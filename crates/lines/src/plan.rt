// A group as a line asks for it.
ghost use Rattle.std.specs.Prelude.{◌≡◌};
ghost use Rattle.lines.specs.Told.{sets_of, starts_of, sets_many};

use crate::list::Numbers;
use vote::Method;

// What the boards fail by: at most so many together, or so many listed sets.
#[derive(Clone, Copy)]
pub enum By {
    Count(u16),
    Sets(u16),
}

// The numbers are the listed sets, and then the character that each board starts from. They stay in one list, which `by` parts: either may be
// as long as a line allows, so that two lists would take twice the room. Characters go from 1 to `characters`; `listed` is the set of boards
// listed bad. All are the numbers of the line, in range or not, so that a bad one gets its refusal.
#[derive(Clone, Copy)]
pub struct Plan {
    pub method: Method,
    pub depth: u16,
    pub crew: u16,
    pub by: By,
    pub characters: u16,
    pub listed: u16,
    pub numbers: Numbers,
}

impl By {
    // How many listed sets lead the numbers.
    pub(crate) fn sets(self) -> usize
        ensures { result ≡ sets_many self }
    {
        match self {
            By::Count(_) => 0,
            By::Sets(many) => usize::from(many),
        }
    }
}

impl Plan {
    // The sets, and the character that each board starts from.
    fn parts(&self) -> (&[u16], &[u16])
        ensures sets { result.0.now ≡ sets_of self.now }
        ensures starts { result.1.now ≡ starts_of self.now }
    {
        let all = self.numbers.as_slice();
        let many = self.by.sets().min(all.len());
        all.split_at(many)
    }

    pub fn sets(&self) -> &[u16]
        ensures { result.now ≡ sets_of self.now }
    {
        self.parts().0
    }

    // The character that each board starts from.
    pub fn starts(&self) -> &[u16]
        ensures { result.now ≡ starts_of self.now }
    {
        self.parts().1
    }
}
