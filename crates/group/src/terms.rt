// What an accepted opening settles for a group.
ghost use Rattle.std.specs.Prelude.{◌≡◌, true};
ghost use Rattle.group.specs.Sound.{sound_terms};

use crate::limits::BOARDS;
use vote::{Depth, Method};

// What a board's `Fit` has too is spelled out in both: `Fit`, `Settings` and `Opening` are public with public fields, which a struct of the shared numbers would change.
#[derive(Clone, Copy)]
pub struct Terms {
    pub(crate) method: Method,
    pub(crate) depth: Depth,
    pub(crate) characters: u8,
    pub(crate) group: u16,
    pub(crate) change: u16,
    // the boards listed bad, as a set
    pub(crate) listed: u16,
    // the starting character of each board; beyond the crew it means nothing
    pub(crate) starts: [u8; BOARDS],
    ghost sound: { sound_terms characters group change starts ≡ true },
}
