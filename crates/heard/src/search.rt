// What a look through the values, 0 too, finds in their sets of senders.
ghost use Rattle.std.specs.Prelude.{◌≡◌, suc};
ghost use Rattle.heard.specs.Masks.{others as others_of, ample_from, backed_in};
ghost use Rattle.quorum.specs.Rules.{strong as is_strong};
ghost use Rattle.vote.specs.Search.{seek, all_below};

use crate::tally::Tally;
use quorum::{FailureRule, ample, strong};
use vote::{VALUES, Voting};

// The lowest value from `from` on whose senders are ample.
pub(crate) fn lowest_ample<R: FailureRule>(
    voting: &Voting<R>,
    senders: &[u16; VALUES],
    from: u8,
) -> Option<u8>
    ensures { result ≡ seek (suc voting.now.characters) (ample_from (R.meaning voting.now.rule.now) senders.now from) }
{
    voting.lowest(|v| from <= v && ample(voting.rule, senders[v as usize]))
}

// Whether for each value the senders whose opening is another are strong.
pub(crate) fn parted_among<R: FailureRule>(voting: &Voting<R>, openings: &Tally) -> bool
    ensures { result ≡ all_below (suc voting.now.characters) (λ u. is_strong (R.meaning voting.now.rule.now) (others_of openings.now u)) }
{
    voting
        .lowest(|u| !strong(voting.rule, openings.others(u)))
        .is_none()
}

// The lowest character with a sender in `fifth` and strong senders in `fourth`.
pub(crate) fn lowest_backed<R: FailureRule>(
    voting: &Voting<R>,
    fourth: &[u16; VALUES],
    fifth: &[u16; VALUES],
) -> Option<u8>
    ensures { result ≡ seek (suc voting.now.characters) (backed_in (R.meaning voting.now.rule.now) fourth.now fifth.now) }
{
    voting.lowest_character(|w| fifth[w as usize] != 0 && strong(voting.rule, fourth[w as usize]))
}
