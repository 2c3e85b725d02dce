// Sets of boards as numbers: board i adds 2 to the power i.
ghost use Rattle.std.specs.Prelude.{◌≡◌, ◌-◌, ◌≤◌, bit_and};
ghost use Rattle.quorum.specs.Limits.{max_crew};
ghost use Rattle.quorum.specs.Sets.{member, rest, part, in_crew};

use crate::limits::MAX_CREW;

// Whether the board is in the set; a board from 16 up is in none.
#[tactic(auto, using(crate::specs::Members::member_is, crate::proofs::Wide::none_beyond))]
pub fn has(set: u16, board: u8) -> bool
    ensures { result ≡ member board set }
{
    board < MAX_CREW && (set >> board) % 2 == 1
}

// The boards of the crew that are not in the set.
pub(crate) fn outside(crew: u8, set: u16) -> u16
    requires { crew ≤ max_crew }
    ensures { result ≡ rest crew set }
{
    let full = (1u32 << crew) - 1;
    without(full as u16, set)
}

// The boards of the one set that are not in the other.
pub fn without(set: u16, other: u16) -> u16
    ensures { result ≡ set - bit_and set other }
{
    set - (set & other)
}

// Whether each board of the one set is in the other.
pub fn part(set: u16, of: u16) -> bool
    ensures { result ≡ part set of }
{
    set | of == of
}

// Whether the set has no board outside the crew; it can have none outside a crew of 16 or more.
#[tactic(auto, using(crate::proofs::Wide::wide_crew))]
pub fn in_crew(crew: u8, set: u16) -> bool
    ensures { result ≡ in_crew crew set }
{
    crew >= MAX_CREW || set < 1 << crew
}
