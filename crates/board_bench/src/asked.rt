// What the first line asks for: a count rule, and the settings of a board under it.
ghost use Rattle.std.specs.Prelude.{◌≡◌, IfOk};
ghost use Rattle.board_bench.specs.Asking.{asked_with, asked_by, asked_in};

use crate::numbers::numbers;
use board::Settings;
use std::alloc::{AllocError, Global};
use vote::Method;

#[derive(Clone, Copy)]
pub struct Asked {
    pub crew: u16,
    pub cover: u16,
    pub f: u16,
    pub settings: Settings,
}

// What just nine numbers ask for.
fn asked_with(numbers: &[u16], method: Method) -> Option<Asked>
    ensures { result ≡ asked_with numbers.now method }
{
    let &[
        depth,
        crew,
        cover,
        f,
        characters,
        group,
        change,
        board,
        start,
    ] = numbers
    else {
        return None;
    };
    let settings = Settings {
        method,
        depth: u32::from(depth),
        characters: u32::from(characters),
        group: u32::from(group),
        change: u32::from(change),
        board: u32::from(board),
        start: u32::from(start),
    };
    Some(Asked {
        crew,
        cover,
        f,
        settings,
    })
}

fn asked_by(letter: u8, numbers: &[u16]) -> Option<Asked>
    ensures { result ≡ asked_by letter numbers.now }
{
    let method = Method::try_from(letter).ok()?;
    asked_with(numbers, method)
}

// What the line asks for, if it is a letter, a comma and nine numbers.
pub fn read_asked(heap: Global, line: &[u8]) -> Result<Option<Asked>, AllocError>
    ensures { IfOk result (λ o. o ≡ asked_in line.now) }
{
    let &[letter, b',', ref written @ ..] = line else {
        return Ok(None);
    };
    let Some(values) = numbers(heap, written)? else {
        return Ok(None);
    };
    Ok(asked_by(letter, &values))
}
