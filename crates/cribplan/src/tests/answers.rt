//! What the commands write to inputs that they accept.
use crate::tests::runs::{ONE_GAME, text_of, writes};
use crib_answer::Job;
use crib_run::Status;
use example_texts::boards::*;
use example_texts::games::*;
use example_texts::plans::*;
use example_texts::problems::*;
use std::process::Abort;

// The sections of an input, and what is written.
type Row = (&'static [&'static str], &'static str);

// Asserts that a job writes each of these texts, with this status.
fn answers(rt: &(impl Abort + AllocGlobal), job: Job, rows: &[Row], status: Status) {
    for (sections, wanted) in rows {
        writes(rt, job, sections, wanted, status);
    }
}

const BOARDS: &[Row] = &[
    (&[TENS, LAST_CARD], LAST_CARD_BOARD),
    (&[CLOSE, PAIRED], PEGGED_OUT_BOARD),
    (&[TENS, NO_TEN_PLAYED], OPEN_BOARD),
];

#[test]
fn draws_boards(rt: HostRuntime) {
    answers(&rt, Job::Board, BOARDS, Status::Yes);
}

const SURE_PLANS: &[Row] = &[
    (&[NEAR, TWOS], "holds\n"),
    (&[TWELVE, TWOS], "holds\n"),
    (&[TWELVE, LOOK], "holds\n"),
    (&[DEALERS_THIRTEEN, TWOS], "holds\n"),
    (&[BEGUN, REST], "holds\n"),
    (&[STOP_FAR, TWOS], "holds\n"),
];

#[test]
fn passes_sure_plans(rt: HostRuntime) {
    answers(&rt, Job::Check, SURE_PLANS, Status::Yes);
}

// A problem, a plan that fails, the ending, and the first failing game.
type Failure = (&'static str, &'static str, &'static str, &'static str);

// The dealer's hand is counted after the pone's, and the crib last. In the first game of `DEALERS_FOURTEEN` that is
// short, the opponent's throw makes no pair and no run with the owner's throw.
const FAILURES: &[Failure] = &[
    (THIRTEEN, TWOS, "short", OWNER_LEADS),
    (TWELVE, NO_PLAN, "stuck", NO_ACTS),
    (CLOSE, ACE, "lost", PAIRED),
    (NEAR, NO_PLAN, "stuck", ONE_ACE),
    (TWELVE, TWICE, "stuck", TWO_AND_ACE),
    (DEALERS_FOURTEEN, TWOS, "short", OPPONENT_LEADS_TO_NOTHING),
    (RACE, TWOS, "lost", OPPONENT_LEADS),
    (TWELVE, LATE_LOOK, "stuck", GO_AT_22),
    (TWELVE, NO_KING, "stuck", KING),
    (BEGUN_SHORT, REST, "short", DIAMOND_FIRST),
    (STOP_FAR, NO_PLAN, "stuck", NO_ACTS),
    (STOP_NEAR, TWOS, "lost", OWNER_LEADS),
    (STOP_SHOW, TWOS, "lost", OWNER_LEADS_TO_SIXTEEN),
];

#[test]
fn names_the_first_failing_game(rt: HostRuntime) {
    for (problem, plan, ending, game) in FAILURES {
        let wanted = text_of(&rt, &["fails ", ending, "\n", game]);
        let sections = [*problem, *plan];
        writes(&rt, Job::Check, &sections, wanted.as_str(), Status::No);
    }
}

#[test]
fn ends_each_failing_game_as_check_does(rt: HostRuntime) {
    for (problem, plan, ending, game) in FAILURES {
        let wanted = text_of(&rt, &[ending, "\n"]);
        let sections = [*problem, *plan, *game];
        writes(&rt, Job::Follow, &sections, wanted.as_str(), Status::No);
    }
}

const REACHED: &[Row] = &[(&[TWELVE, TWOS, OWNER_LEADS], "reached\n")];

const NOT_REACHED: &[Row] = &[
    (&ONE_GAME, "short\n"),
    (&[THIRTEEN, TWOS, NO_ACTS], "open\n"),
    (&[THIRTEEN, NO_PLAN, NO_ACTS], "stuck\n"),
];

#[test]
fn tells_how_a_game_stands(rt: HostRuntime) {
    answers(&rt, Job::Follow, REACHED, Status::Yes);
    answers(&rt, Job::Follow, NOT_REACHED, Status::No);
}

const REPLAYED: &[Row] = &[
    (&[TENS, LAST_CARD], LAST_CARD_ANSWER),
    (
        &[LAST_MAKES_31, MAKES_31],
        "play 1 2\nhand owner 11 12 2\nhand opponent 9 12 11\ncrib opponent 2 12 13\nshort\n",
    ),
    (&[CLOSE, PAIRED], "play 100 121\nlost\n"),
    (
        &[RACE, OPPONENT_LEADS],
        "play 109 109\nhand opponent 12 109 121\nlost\n",
    ),
    (&[TENS, NO_TEN_PLAYED], "play 0 0\nopen\n"),
    (
        &[BEGUN, OWNER_LEADS],
        "play 0 1\nhand owner 12 12 1\nreached\n",
    ),
    (
        &[STOP_SHOW, OWNER_LEADS_TO_SIXTEEN],
        "play 0 93\nhand owner 12 12 93\nhand opponent 12 12 105\ncrib opponent 16 12 121\nlost\n",
    ),
];

#[test]
fn tells_the_scores_the_show_and_the_outcome(rt: HostRuntime) {
    answers(&rt, Job::Replay, REPLAYED, Status::Yes);
}

// The owner leads a nine and looks whether the opponent pairs it. If they do, a third nine makes six points. The plan
// was worked out by hand:
// - The owner's hand has 8 points, for a pair and two runs of eight, nine and ten, and is counted first. The opponent
//   can't peg 121 holes in the play. So a sure plan goes on after every card, and the owner plays the first one that
//   they still have and that fits. The order is 9S, 9D, TD, QC.
// - The deal is done when the owner has pegged five holes. If the opponent shows a nine, the owner's second nine makes
//   three alike, six points. If they show another rank, it makes nothing: the count is more than 15 and less than 31,
//   and two nines are in no run.
// - The ten pegs three holes at most, with the hole for a last card before it. It makes 31, or it answers a lead with a
//   pair or a fifteen. So the queen is always in the plan, and is the last card.
// So the plan is a look with two branches. One leads to three more cards, and the other to one. The walk that numbers
// the nodes leaves the branch of the ace first. Its three cards have the highest numbers, 3 to 5. The card in the
// branch of the nine is 2.
const THIRD_NINE: &str = "plan 1\nnodes 6\n0 play 9S 1\n1 see A2345678TJQK:3 9:2\n2 play 9D end\n\
    3 play 9D 4\n4 play TD 5\n5 play QC end\n";

const FOUND: &[Row] = &[(&[TWELVE], TWOS), (&[BEGUN], REST), (&[NINES], THIRD_NINE)];

const NOT_FOUND: &[Row] = &[(&[THIRTEEN], "none\n"), (&[STOP_SHOW], "none\n")];

#[test]
fn finds_a_sure_plan_or_none(rt: HostRuntime) {
    answers(&rt, Job::Solve, FOUND, Status::Yes);
    answers(&rt, Job::Solve, NOT_FOUND, Status::No);
}
