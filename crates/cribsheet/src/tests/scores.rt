//! At which scores turns are sure, or a plan is.
use crate::tests::growths::{Growth, growth_after};
use crate::tests::runs::{prints, writes, written_of};
use crib_run::Status;
use crib_sheet::SheetJob;
use example_texts::plans::TWOS;
use example_texts::problems::TWELVE;

// A hole is left to the owner, and 8C and 7D make fifteen.
const AT_120: &str = "\
problem 2
dealer owner
score 120 100
starter KC
hold AC 7D 9H JS
throw 2C QD
goal win
played 1
opp 8C
";

// Three holes are left to the owner. The opponent has pegged three in the opening.
const LATE: &str = "\
problem 2
dealer owner
score 118 116
starter 9C
hold AC 7S 9D TD
throw JH KD
goal win
played 3
opp 9H
own TD
opp 8S
";

// The same, and the owner has played the only card that fits.
const LATER: &str = "\
problem 2
dealer owner
score 118 116
starter 9C
hold AC 7S 9D TD
throw JH KD
goal win
played 4
opp 9H
own TD
opp 8S
own AC
";

// Nobody is near hole 121, and the opponent is to lead.
const BEFORE: &str = "\
problem 1
dealer owner
score 40 40
starter 2S
hold AD 9S KC 3S
throw 8S 7D
goal win
";

// So many holes are left at 0 alone.
const ALL_HOLES: &str = "\
problem 1
dealer opponent
score 0 0
starter 5S
hold 2S 8D 8H 8S
throw KS QS
goal holes 121
";

// A card that ends the deal counts too: 7D is sure at 120, and no card but it from 119 on.
#[test]
fn counts_turns(rt: HostRuntime) {
    let parts = [
        "Turns that are sure now: a digit is how many, and . is none.\n",
        "hold AC 7D 9H JS, throw 2C QD, starter KC, dealer owner, goal win\nplayed opp 8C\n",
        "The owner's score at the first lead is at the side, the opponent's at the top.\n\n     ",
        "\n    9 9 9 9 9 9 9 9 9 9 0 0 0 0 0 0 0 0 0 0 1\n",
        "\n117 . . . . . . . . . . . . . . . . . . . . .\n118 1 ",
        "\n119 1 1 1 1 1 1 1 1 1 1 1 ",
        "\n120 4 4 4 4 4 4 4 4 4 4 4 ",
    ];
    prints(&rt, SheetJob::Scores, &[AT_120], &parts, Status::Yes);
}

// At 118 the opponent is at 121 after the opening.
#[test]
fn leaves_scores_blank(rt: HostRuntime) {
    let parts = [
        "\nplayed opp 9H, own TD, opp 8S\n",
        "\nA blank is a score that the goal or the turns can't have.\n\n    1 1 1 ",
        "\n117 . . . . . . . . . . . . . . . . . .\n118 1 . . . . . . . . . . . . . . . . .\n119 1 1 ",
    ];
    prints(&rt, SheetJob::Scores, &[LATE], &parts, Status::Yes);
    let parts = [
        "Cards that are sure to lead: a digit is how many, and . is none.\n",
        "\nThe owner's score is at the side, the opponent's at the top.\nA blank is ",
        "\n\n                        1 1 1 ",
        "\n  0 . . . . . . . . . . . . . . . . . . . . .\n  1\n  2\n",
        "\n 10\n",
    ];
    prints(&rt, SheetJob::Scores, &[ALL_HOLES], &parts, Status::Yes);
}

// If the owner is not to move, a mark says whether a plan is sure.
#[test]
fn decides_plans(rt: HostRuntime) {
    let parts = [
        "Scores at which a plan is sure now: + is yes, and . is no.\n",
        "\n117 . . . . . . . . . . . . . . . . . .\n118 + . . . . . . . . . . . . . . . . .\n119 + + ",
    ];
    prints(&rt, SheetJob::Scores, &[LATER], &parts, Status::Yes);
    let parts = [
        "Scores at which a plan is sure before the lead: + is yes, and . is no.\n",
        "\nThe owner's score is at the side, the opponent's at the top.\n\n    3 3 ",
        "\n 40 . . . . . . . . . . . . . . . . . . . . .\n",
    ];
    prints(&rt, SheetJob::Scores, &[BEFORE], &parts, Status::Yes);
}

// The numbers and the lines are those of `cribplan solve`.
#[test]
fn refuses_what_solve_refuses(rt: HostRuntime) {
    let wanted = "refused line 8: 8\n";
    writes(
        &rt,
        SheetJob::Scores,
        &[TWELVE, TWOS],
        wanted,
        Status::Refused,
    );
    let wanted = "refused line 1: 3\n";
    writes(&rt, SheetJob::Scores, &[], wanted, Status::Refused);
}

// A failed allocation of the input is reported, and one of a table of answers changes nothing.
#[test]
fn fails_if_an_allocation_fails(rt: HostRuntime) {
    let whole = written_of(&rt, SheetJob::Scores, &[LATE]);
    let mut reported = 0u32;
    let mut passed_over = 0u32;
    for served in 0..40 {
        match growth_after(&rt, SheetJob::Scores, &[LATE], served, &whole) {
            Growth::Reported => reported = reported.saturating_add(1),
            Growth::PassedOver => passed_over = passed_over.saturating_add(1),
            Growth::NotMade => (),
        }
    }
    assert!(rt; reported >= 1);
    assert!(rt; passed_over > 0);
}
