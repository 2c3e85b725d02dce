// What a board is fitted with, and what stands against it.
ghost use Rattle.std.specs.Prelude.{◌≡◌, true};
ghost use Rattle.vote.specs.Setting.{grades};
ghost use Rattle.board.specs.Fitting.{settings_fault, crew_fault, cover_fault, vote_fault, address_fault, Judged};
ghost use Rattle.wire.specs.Fields.{is_within};

use crate::fault::BoardFault;
use quorum::{FailureRule, MAX_COVER, MAX_CREW, MIN_COVER};
use vote::{Depth, MAX_CHARACTERS, Method};
use wire::MAX_ID;

// The echo method needs a cover of 3.
const ECHO_COVER: u8 = 3;

// As they are asked for; numbers of any size, so that a bad one gets its refusal.
#[derive(Clone, Copy)]
pub struct Settings {
    pub method: Method,
    pub depth: u32,
    pub characters: u32,
    pub group: u32,
    pub change: u32,
    pub board: u32,
    pub start: u32,
}

// What stands against fitting a board with these settings under the rule, by rising number.
pub fn settings_fault<R: FailureRule>(rule: &R, settings: &Settings) -> Option<BoardFault>
    ensures { result ≡ settings_fault (R.meaning rule.now) settings.now }
{
    settings.fitting(rule).err()
}

// The crew of the rule, unless it is none that a board can be of.
pub(crate) fn kept_crew<R: FailureRule>(rule: &R) -> Result<u8, BoardFault>
    ensures { Judged (crew_fault (R.meaning rule.now)) (λ n. n ≡ (R.meaning rule.now).crew) result }
{
    let crew = rule.crew();
    if !(1..=MAX_CREW).contains(&crew) {
        return Err(BoardFault::Crew);
    }
    Ok(crew)
}

// The cover of the rule, unless no board votes under it.
pub(crate) fn kept_cover<R: FailureRule>(rule: &R) -> Result<u8, BoardFault>
    ensures { Judged (cover_fault (R.meaning rule.now)) (λ n. n ≡ (R.meaning rule.now).cover) result }
{
    let cover = rule.cover();
    if !(MIN_COVER..=MAX_COVER).contains(&cover) {
        return Err(BoardFault::Cover);
    }
    Ok(cover)
}

// The depth and the last character of a vote, in the sizes that they are kept, or what stands against them under the rule, by rising number.
pub fn kept_vote<R: FailureRule>(
    rule: &R,
    method: Method,
    depth: u32,
    characters: u32,
) -> Result<(Depth, u8), BoardFault>
    ensures { Judged (vote_fault (R.meaning rule.now) method depth characters) (λ v. (grades v.0 ≡ depth) × (v.1 ≡ characters)) result }
{
    kept_crew(rule)?;
    if !(1..=u32::from(MAX_CHARACTERS)).contains(&characters) {
        return Err(BoardFault::Characters);
    }
    let depth = Depth::try_from(depth).map_err(|_| BoardFault::Depth)?;
    let cover = kept_cover(rule)?;
    if method == Method::Echo && cover < ECHO_COVER {
        return Err(BoardFault::EchoCover);
    }
    Ok((depth, characters as u8))
}

// The group and the change, in the sizes that they are kept, unless one is not of those that there are.
pub fn kept_address(group: u32, change: u32) -> Result<(u16, u16), BoardFault>
    ensures { Judged (address_fault group change) (λ a. (a.0 ≡ group) × (a.1 ≡ change)) result }
{
    let ids = 1..=u32::from(MAX_ID);
    if !ids.contains(&group) || !ids.contains(&change) {
        return Err(BoardFault::Address);
    }
    Ok((group as u16, change as u16))
}
