//! Games that show that nobody is sure.
use crate::tests::runs::{prints, writes};
use crib_run::Status;
use crib_sheet::SheetJob;
use example_texts::problems::{BEGUN_SHORT, TWELVE};

// Before the lead KC has to be kept against the jack of clubs, and QH against the jack of spades.
const JACK_TO_COME: &str = "\
problem 2
dealer owner
score 111 113
starter KS
hold 6C JH KC QH
throw QC QS
goal win
played 6
opp 2C
own 6C
opp 4C
own JH
opp go
own go
";

#[test]
fn some_plan_is_sure(rt: HostRuntime) {
    writes(&rt, SheetJob::Refute, &[TWELVE], "sure\n", Status::Yes);
    let text = "Some plan is sure: cribplan solve prints one.\n";
    writes(&rt, SheetJob::Why, &[TWELVE], text, Status::Yes);
}

// The hand makes twelve holes, and against an ace, two fives and a jack the play none, in each order of the other twos.
#[test]
fn nobody_is_sure(rt: HostRuntime) {
    let parts = [
        "refuted 6\ngame 1\nhold AD 5C 5D JC\nthrow AC AH\nacts 8\nown 2C\nopp AD\n",
        "\nown 2D\n",
        "\nown 2H\n",
        "\nown 2S\n",
    ];
    prints(&rt, SheetJob::Refute, &[BEGUN_SHORT], &parts, Status::No);
}

// The three twos are one row.
#[test]
fn nobody_is_sure_in_words(rt: HostRuntime) {
    let parts = [
        "Whatever you play, some hand and\nsome play of theirs beat it:\n\n2, they ",
        "    A 5 5 J (A A)    12 ",
        "\n\nEach row is a play to its end",
    ];
    prints(&rt, SheetJob::Why, &[BEGUN_SHORT], &parts, Status::No);
}

#[test]
fn suits_decide(rt: HostRuntime) {
    let text = "suits J\n";
    writes(&rt, SheetJob::Refute, &[JACK_TO_COME], text, Status::No);
    let parts = [
        "No plan is sure",
        "\nLook at the suit if they show one of these next: J\n",
    ];
    prints(&rt, SheetJob::Why, &[JACK_TO_COME], &parts, Status::No);
}
