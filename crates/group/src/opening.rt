// What an opening asks for, and what stands against it.
ghost use Rattle.std.specs.Prelude.{◌≡◌, length};
ghost use Rattle.group.specs.Opening.{opening_fault};

use crate::fault::GroupFault;
use crate::limits::BOARDS;
use quorum::FailureRule;
use vote::Method;

// As it is asked for; numbers of any size, so that a bad one gets its refusal. Of the starting characters the first `crew` count.
#[derive(Clone, Copy)]
pub struct Opening {
    pub method: Method,
    pub depth: u32,
    pub characters: u32,
    pub group: u32,
    pub change: u32,
    // the boards listed bad, as a set
    pub listed: u16,
    pub starts: [u16; BOARDS],
}

// What stands against opening a group under the rule, by rising number.
pub fn opening_fault<R: FailureRule>(rule: &R, opening: &Opening) -> Option<GroupFault>
    ensures value { result ≡ opening_fault (R.meaning rule.now) opening.now }
    ensures sixteen { length opening.now.starts ≡ 16 }
{
    opening.terms(rule).err()
}
