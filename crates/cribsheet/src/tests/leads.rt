//! What may be played next.
use crate::tests::runs::writes;
use crib_run::Status;
use crib_sheet::SheetJob;
use example_texts::plans::TWOS;
use example_texts::problems::{BEGUN, BEGUN_SHORT, LAST_TWO_BEHIND, TWELVE};

/// A hole is left to the owner, and 8C and 7D make fifteen.
const AT_120: &str =
    "problem 2\ndealer owner\nscore 120 100\nstarter KC\nhold AC 7D 9H JS\nthrow 2C QD\ngoal win\nplayed 1\nopp 8C\n";

/// The count is 28 after 9H TD 8S AC, and 7S and 9D are left to the owner.
const AT_28: &str =
    "problem 2\ndealer owner\nscore 118 100\nstarter 9C\nhold AC 7S 9D TD\nthrow JH KD\ngoal win\n\
     played 4\nopp 9H\nown TD\nopp 8S\nown AC\n";

/// The owner has said go at 28, and a card of the opponent is left.
const ONE_IS_LEFT: &str =
    "problem 2\ndealer opponent\nscore 60 90\nstarter 5S\nhold 2S 8D 8H 8S\nthrow KS QS\ngoal holes 13\n\
     played 9\nown 8D\nopp KC\nown 2S\nopp KD\nown go\nopp go\nown 8H\nopp KH\nown 8S\n";

#[test]
fn each_two_is_sure(rt: HostRuntime) {
    let text = "\
You are at 0 now, and the dealer is at 0. You still hold 2D 2H 2S.
2D: sure, 2 nodes
2H: sure, 2 nodes
2S: sure, 2 nodes
";
    writes(&rt, SheetJob::Leads, &[BEGUN], text, Status::Yes);
}

#[test]
fn more_than_half_beat_each_two(rt: HostRuntime) {
    let text = "\
You are at 0 now, and the dealer is at 0. You still hold 2D 2H 2S.
2D: not sure; a plan fails with 6,218,060 of 10,860,080 deals
2H: not sure; a plan fails with 6,218,060 of 10,860,080 deals
2S: not sure; a plan fails with 6,218,060 of 10,860,080 deals
More than half of the deals beat each of them, so their order says little.

The plan of cribsheet try begins with 2D:
This plan is not sure. It reaches your goal with 4,642,020 of the
10,860,080 deals that they may have, whatever they play. With the other
6,218,060 they can beat it.
";
    writes(&rt, SheetJob::Leads, &[BEGUN_SHORT], text, Status::No);
}

#[test]
fn the_seven_wins_at_once(rt: HostRuntime) {
    let text = "\
You are at 120 now, and the pone is at 100. You still hold AC 7D 9H JS.
AC: sure, 18 nodes
7D: sure: reaches the goal at once
9H: sure, 16 nodes
JS: sure, 14 nodes
";
    writes(&rt, SheetJob::Leads, &[AT_120], text, Status::Yes);
}

#[test]
fn they_may_play_a_low_card_or_say_go(rt: HostRuntime) {
    let text = "\
You are at 118 now, and the pone is at 103. You still hold 7S 9D.
It is their turn. After what they may play:
A: sure
2: sure
3: sure
go: sure
";
    writes(&rt, SheetJob::Leads, &[AT_28], text, Status::Yes);
}

// If they say go, they go on with a card that doesn't fit, and the owner has the hole for the last card.
#[test]
fn a_last_card_ends_the_deal(rt: HostRuntime) {
    let text = "\
You are at 60 now, and the dealer is at 91. You still hold no card.
It is their turn. After what they may play:
2: not sure; after 2C some deals miss the goal
3: not sure; after 3C some deals miss the goal
4: not sure; after 4C some deals miss the goal
5: not sure; after 5C some deals miss the goal
go: sure

The plan of cribsheet try:
This plan is not sure. It reaches your goal with 19,680 of the
31,160 deals that they may have, whatever they play. With the other
11,480 they can beat it.
";
    writes(&rt, SheetJob::Leads, &[ONE_IS_LEFT], text, Status::No);
}

// The same deals beat the plan for the goal `stop`.
#[test]
fn a_go_is_not_sure(rt: HostRuntime) {
    let text = "\
You are at 118 now, and the pone is at 117. You still hold 7S 9S.
go: not sure; a plan fails with 238,620 of 546,120 deals; stop: 238,620

The plan of cribsheet try:
This plan is not sure. It reaches your goal with 307,500 of the
546,120 deals that they may have, whatever they play. With the other
238,620 they can beat it.
";
    writes(&rt, SheetJob::Leads, &[LAST_TWO_BEHIND], text, Status::No);
}

// The numbers and the lines are those of `cribplan solve`.
#[test]
fn refuses_what_solve_refuses(rt: HostRuntime) {
    let wanted = "refused line 8: 8\n";
    writes(
        &rt,
        SheetJob::Leads,
        &[TWELVE, TWOS],
        wanted,
        Status::Refused,
    );
}
