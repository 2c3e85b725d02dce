// A failure rule made outside of `quorum`, to show that its interface can be met from elsewhere: the boards on one of two cables fail together.
// As some board is on neither cable, no number of such sets holds the whole crew: the cover may be any, and the crew larger than other rules allow.

#![tactic(auto)]

ghost use Rattle.std.specs.Prelude.{◌≡◌, true, false, MatchOption};
ghost use Rattle.cable_rule.specs.Cables.{cable_rule, fair};
ghost use Rattle.cable_rule.specs.CablesLemmas.{cable_lawful};

use quorum::{FailureRule, has, in_crew, part};

#[derive(Clone, Copy)]
pub struct CableRule {
    crew: u8,
    cover: u8,
    spare: u8,
    first: u16,
    second: u16,
    ghost good: { fair crew spare first second ≡ true },
}

impl CableRule {
    // `spare` is a board on neither cable. Nothing is made where it is on one, or where a board is outside the crew.
    pub fn new(crew: u8, cover: u8, spare: u8, first: u16, second: u16) -> Option<CableRule>
        ensures { MatchOption result (fair crew spare first second ≡ false) (λ x. (fair crew spare first second ≡ true) × (cable_rule x.crew x.cover x.first x.second ≡ cable_rule crew cover first second)) }
    {
        let spared = spare < crew && !has(first, spare) && !has(second, spare);
        if spared && in_crew(crew, first) && in_crew(crew, second) {
            Some(CableRule {
                crew,
                cover,
                spare,
                first,
                second,
            })
        } else {
            None
        }
    }
}

impl FailureRule for CableRule {
    ghost meaning = { λ x. cable_rule x.crew x.cover x.first x.second };

    ghost lawful = { λ x. cable_lawful x.crew x.cover x.spare x.first x.second x.good };

    fn crew(&self) -> u8 {
        self.crew
    }

    fn cover(&self) -> u8 {
        self.cover
    }

    fn may_fail(&self, set: u16) -> bool {
        part(set, self.first) || part(set, self.second)
    }
}

#[cfg(test)]
mod tests {
    use super::CableRule;
    use quorum::{CountRule, EitherRule, ample, count_fault, listed_fault, strong};
    use std::test::Fail;

    // Boards 0 and 1 on one cable, 2 and 3 on the other, board 4 on neither.
    #[test]
    fn both_cables_without_the_board_on_neither_are_strong_and_not_ample(
        rt: HostRuntime,
    ) -> Result<(), Fail> {
        let rule = CableRule::new(5, 5, 4, 3, 12).ok_or("not made")?;
        assert!(rt; !strong(&rule, 3));
        assert!(rt; strong(&rule, 15));
        assert!(rt; !ample(&rule, 15));
        assert!(rt; ample(&rule, 28));
        Ok(())
    }

    #[test]
    fn a_crew_beyond_sixteen_can_be_made_elsewhere_and_has_no_ample_set(
        rt: HostRuntime,
    ) -> Result<(), Fail> {
        let rule = CableRule::new(17, 3, 16, 1, 2).ok_or("not made")?;
        assert!(rt; !ample(&rule, 65535));
        Ok(())
    }

    #[test]
    fn a_cable_with_every_board_makes_no_rule(rt: HostRuntime) {
        assert!(rt; CableRule::new(2, 3, 1, 3, 0).is_none());
    }

    #[test]
    fn the_lowest_number_is_told_where_all_is_wrong(rt: HostRuntime) -> Result<(), Fail> {
        let crew = count_fault(17, 9, 65535).ok_or("good")?;
        assert!(rt; crew.number() == 1);
        let cover = count_fault(16, 9, 65535).ok_or("good")?;
        assert!(rt; cover.number() == 3);
        let sets = listed_fault(2, 2, &[1, 2, 4]).ok_or("good")?;
        assert!(rt; sets.number() == 4);
        Ok(())
    }

    #[test]
    fn no_listed_sets_is_a_good_rule_under_which_nobody_fails(rt: HostRuntime) -> Result<(), Fail> {
        let rule = EitherRule::listed(1, 3, &[]).map_err(|_| "refused")?;
        assert!(rt; !strong(&rule, 0));
        assert!(rt; strong(&rule, 1));
        assert!(rt; ample(&rule, 1));
        assert!(rt; !ample(&rule, 0));
        Ok(())
    }

    #[test]
    fn boards_outside_the_crew_make_a_set_strong_and_not_ample(
        rt: HostRuntime,
    ) -> Result<(), Fail> {
        let rule = CountRule::new(4, 3, 1).map_err(|_| "refused")?;
        assert!(rt; strong(&rule, 16));
        assert!(rt; !ample(&rule, 16 + 3));
        assert!(rt; ample(&rule, 16 + 7));
        Ok(())
    }
}
