//! Runs in which one allocation after another fails.
use crate::tests::runs::{ONE_GAME, numbered, outcome_of, text_of, text_with};
use crate::tests::{same, same_for};
use crib_answer::Job;
use crib_run::Status;
use example_texts::boards::LAST_CARD_BOARD;
use example_texts::games::{LAST_CARD, LAST_CARD_ANSWER, NO_ACTS, OWNER_LEADS};
use example_texts::plans::{NO_PLAN, TWOS};
use example_texts::problems::{TENS, THIRTEEN, TWELVE};
use refusing_alloc::Refusing;
use std::process::Abort;

// How many failed allocations led to `fault 11`, and how many changed nothing in the output.
#[derive(Clone, Copy, Debug, PartialEq, Eq)]
struct Refusals {
    reported: u32,
    passed_over: u32,
}

fn reported_alone(reported: u32) -> Refusals {
    Refusals {
        reported,
        passed_over: 0,
    }
}

// Fails the first allocation of a run, then the second, and so on, until none fails. Asserts that each time `fault 11`
// alone was written, or `wanted` with `status`. Returns how many there were of each.
fn refuse_each(
    rt: &(impl Abort + AllocGlobal),
    job: Job,
    sections: &[&str],
    wanted: &str,
    status: Status,
) -> Refusals {
    let input = text_of(rt, sections);
    let mut refusals = reported_alone(0);
    for served in 0..1000 {
        let heap = Refusing::after(rt.alloc(), served);
        let outcome = outcome_of(rt.alloc(), &heap, job, input.as_bytes());
        let what = numbered(rt, "growth", served);
        if outcome.status == Status::Fault {
            assert!(rt; heap.has_refused());
            outcome.is(rt, "fault 11\n", Status::Fault, what.as_str());
            refusals.reported = refusals.reported.saturating_add(1);
        } else {
            outcome.is(rt, wanted, status, what.as_str());
            if !heap.has_refused() {
                return refusals;
            }
            refusals.passed_over = refusals.passed_over.saturating_add(1);
        }
    }
    panic!(rt; "a run that never ends to grow")
}

// Asserts that a run allocates `reported` times, and that each failure is reported.
fn reports_each(
    rt: &(impl Abort + AllocGlobal),
    job: Job,
    sections: &[&str],
    wanted: &str,
    status: Status,
    reported: u32,
) {
    let refusals = refuse_each(rt, job, sections, wanted, status);
    same_for(rt, refusals, reported_alone(reported), wanted);
}

// Each run allocates memory for its input first. `replay` allocates nothing more.
#[test]
fn of_replay(rt: HostRuntime) {
    let sections = [TENS, LAST_CARD];
    reports_each(
        &rt,
        Job::Replay,
        &sections,
        LAST_CARD_ANSWER,
        Status::Yes,
        1,
    );
}

// `board` allocates its text.
#[test]
fn of_board(rt: HostRuntime) {
    let sections = [TENS, LAST_CARD];
    reports_each(&rt, Job::Board, &sections, LAST_CARD_BOARD, Status::Yes, 2);
}

// `follow` allocates the plan, unless it has no nodes.
#[test]
fn of_follow(rt: HostRuntime) {
    reports_each(&rt, Job::Follow, &ONE_GAME, "short\n", Status::No, 2);
    let open = [THIRTEEN, TWOS, NO_ACTS];
    reports_each(&rt, Job::Follow, &open, "open\n", Status::No, 2);
    let stuck = [THIRTEEN, NO_PLAN, NO_ACTS];
    reports_each(&rt, Job::Follow, &stuck, "stuck\n", Status::No, 1);
    let strays = text_with(&rt, &ONE_GAME, 20, "own 2H");
    let refused = "refused line 20: 46\n";
    reports_each(
        &rt,
        Job::Follow,
        &[strays.as_str()],
        refused,
        Status::Refused,
        2,
    );
}

// `check` allocates the plan, and reports it if that fails. The position table allocates too, and a failure there
// changes nothing.
#[test]
fn of_check(rt: HostRuntime) {
    let checked = refuse_each(&rt, Job::Check, &[TWELVE, TWOS], "holds\n", Status::Yes);
    same(&rt, checked.reported, 2);
    assert!(rt; checked.passed_over > 0);
}

// `check` allocates the plan, and the text of the failing game. The first game fails, so the position table keeps
// nothing.
#[test]
fn of_check_that_fails(rt: HostRuntime) {
    let short = text_of(&rt, &["fails short\n", OWNER_LEADS]);
    let sections = [THIRTEEN, TWOS];
    reports_each(&rt, Job::Check, &sections, short.as_str(), Status::No, 3);
}

// `solve` allocates the nodes and the text of the plan, and reports it if one of these allocations fails. Its tables
// allocate too, and a failure there changes nothing.
#[test]
fn of_solve(rt: HostRuntime) {
    let solved = refuse_each(&rt, Job::Solve, &[TWELVE], TWOS, Status::Yes);
    assert!(rt; solved.reported >= 3, "the input, the nodes and the text");
    assert!(rt; solved.passed_over > 0);
}

// If there is no plan, only its tables allocate.
#[test]
fn of_solve_without_a_plan(rt: HostRuntime) {
    let unsolved = refuse_each(&rt, Job::Solve, &[THIRTEEN], "none\n", Status::No);
    same(&rt, unsolved.reported, 1);
    assert!(rt; unsolved.passed_over > 0);
}

// A job, its sections, and its answer.
const REFUSED: &[(Job, &[&str], &str)] = &[
    (Job::Replay, &[TWELVE, TWOS], "refused line 8: 4\n"),
    (Job::Check, &[TENS, LAST_CARD], "refused line 8: 4\n"),
    (Job::Board, &[TWELVE, TWOS], "refused line 8: 4\n"),
    (Job::Solve, &[TWELVE, TWOS], "refused line 8: 8\n"),
    (Job::Check, &[TWELVE], "refused line 8: 3\n"),
    (Job::Follow, &["problem 1\n"], "refused line 2: 3\n"),
];

// A refused input needs memory for itself only, unless it has a plan that is read.
#[test]
fn of_refused_inputs(rt: HostRuntime) {
    for (job, sections, wanted) in REFUSED {
        reports_each(&rt, *job, sections, wanted, Status::Refused, 1);
    }
}
