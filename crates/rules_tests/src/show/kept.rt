//! Results from the kept points of one problem's shows.
ghost use Rattle.crib_show.specs.Extremes.{AreExtremesFor};

use crate::asserts::{ensure, same};
use crate::reading::counted;
use crate::show::{ACES, twos_against};
use crib_cards::Side;
use crib_show::{ExtremesByRanks, WorstShow, demand_of_show};
use std::process::Abort;

// checks that the result from kept points equals the one computed anew
fn answers_alike(rt: &impl Abort, worst: &WorstShow, shows: &mut ExtremesByRanks)
    requires { AreExtremesFor worst.now shows.old }
    ensures { AreExtremesFor worst.now shows.new }
{
    ensure(rt, worst.has_deal());
    let hand = shows.own.hand;
    let demand = demand_of_show(worst.dealer, worst.scores, worst.target, worst.stop, hand);
    let kept = shows.meets_all(worst, demand);
    same(rt, kept, worst.first_failure().is_none());
}

#[test]
fn answers_from_what_is_kept(rt: HostRuntime) {
    let mut worst = twos_against(&rt, "5H", "5C 5D", ACES, "");
    worst.stop = true;
    let mut shows = ExtremesByRanks::new(&worst.own_hold, &worst.own_throw, worst.starter);
    for _turn in 0..2 {
        // the opponent gets twelve points for the hand and 29 for the crib
        worst.ranks = counted(&rt, ACES);
        worst.scores.opponent = 79;
        answers_alike(&rt, &worst, &mut shows);
        worst.scores.opponent = 80;
        answers_alike(&rt, &worst, &mut shows);
        // the owner deals now, with the same ranks, and then with others
        worst.dealer = Side::Owner;
        worst.scores.opponent = 109;
        answers_alike(&rt, &worst, &mut shows);
        worst.ranks = counted(&rt, "7C 7D 8C 9C");
        answers_alike(&rt, &worst, &mut shows);
        worst.dealer = Side::Opponent;
        answers_alike(&rt, &worst, &mut shows);
    }
}
