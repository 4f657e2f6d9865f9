//! How many holes are sure, at all and with each turn.
use crate::tests::growths::{Growth, growth_after};
use crate::tests::runs::{prints, writes, written_of};
use crib_run::Status;
use crib_sheet::SheetJob;
use example_texts::plans::TWOS;
use example_texts::problems::TWELVE;

// The owner is the pone, and their hand counts twelve.
const EIGHTS: &str = "\
problem 1
dealer opponent
score 20 20
starter 5S
hold 2S 8D 8H 8S
throw KS QS
goal holes 1
";

// The dealer is near hole 121.
const LATE: &str = "\
problem 2
dealer opponent
score 110 115
starter 5S
hold 2S 8D 8H 8S
throw KS QS
goal win
played 2
own 8D
opp 2C
";

// The owner deals, has pegged nothing in the opening and is to say go.
const DEALER: &str = "\
problem 2
dealer owner
score 118 100
starter 9C
hold AC 7S 9D TD
throw JH KD
goal holes 1
played 5
opp 9H
own TD
opp 8C
own AC
opp go
";

// The figure doesn't rest on the goal, and the play has none of these holes.
#[test]
fn counts_the_play_and_the_show(rt: HostRuntime) {
    let wanted =
        "sure: 12 holes, 0 in the play and 12 in the show\nwith 2S: 12 holes\nwith 8D: 12 holes\n\
        with 8H: 12 holes\nwith 8S: 12 holes\n";
    writes(&rt, SheetJob::Holes, &[EIGHTS], wanted, Status::Yes);
}

// At 115 the dealer may be out before the pone has more than these.
#[test]
fn tells_what_is_not_exact(rt: HostRuntime) {
    let parts = [
        "pegs now: owner 110, opponent 115\nsure: 2 holes\n",
        "not exact: from 110 115 somebody may be at hole 121 before all is counted\n",
        "sure at 0 to 0: 14 holes, 2 in the play and 12 in the show\nwith 2S: 2 holes, and 14 at 0 to 0\n",
    ];
    prints(&rt, SheetJob::Holes, &[LATE], &parts, Status::Yes);
}

// The crib isn't known.
#[test]
fn counts_the_hand_of_a_dealer(rt: HostRuntime) {
    let parts = [
        "pegs now: owner 118, opponent 103\nsure: 3 holes\n",
        "\nsure at 0 to 0: 4 holes\nthe hand counts 2; the crib counts too and isn't known, so no figure for the play ",
        "\nwith go: 3 holes, and 4 at 0 to 0\n",
    ];
    prints(&rt, SheetJob::Holes, &[DEALER], &parts, Status::Yes);
}

// The numbers and the lines are those of `cribplan solve`.
#[test]
fn refuses_what_solve_refuses(rt: HostRuntime) {
    let wanted = "refused line 8: 8\n";
    writes(
        &rt,
        SheetJob::Holes,
        &[TWELVE, TWOS],
        wanted,
        Status::Refused,
    );
    let wanted = "refused line 1: 3\n";
    writes(&rt, SheetJob::Holes, &[], wanted, Status::Refused);
}

// A failed allocation of the input is reported, and one of a table of answers changes nothing.
#[test]
fn fails_if_an_allocation_fails(rt: HostRuntime) {
    let whole = written_of(&rt, SheetJob::Holes, &[LATE]);
    let mut reported = 0u32;
    let mut passed_over = 0u32;
    for served in 0..40 {
        match growth_after(&rt, SheetJob::Holes, &[LATE], served, &whole) {
            Growth::Reported => reported = reported.saturating_add(1),
            Growth::PassedOver => passed_over = passed_over.saturating_add(1),
            Growth::NotMade => (),
        }
    }
    assert!(rt; reported >= 1);
    assert!(rt; passed_over > 0);
}
