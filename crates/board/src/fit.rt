// The settings of a board, in the sizes that it keeps them.
ghost use Rattle.std.specs.Prelude.{◌≡◌, true};
ghost use Rattle.board.specs.Sound.{sound_fit};

use vote::{Depth, Method};

#[derive(Clone, Copy)]
pub struct Fit {
    pub method: Method,
    pub depth: Depth,
    pub characters: u8,
    pub group: u16,
    pub change: u16,
    pub board: u8,
    pub start: u8,
}

// Settings that nothing stands against, whatever the rule.
#[derive(Clone, Copy)]
pub struct Fitting {
    pub fit: Fit,
    ghost sound: { sound_fit fit.characters fit.group fit.change fit.board fit.start ≡ true },
}
