//! Inputs that are cut short at any byte, or have a CR at any place.
use crate::tests::runs::{ONE_GAME, numbered, outcome_of, text_of, text_with};
use crib_answer::Job;
use crib_run::Status;
use example_texts::games::*;
use example_texts::plans::*;
use example_texts::problems::*;
use std::process::Abort;

// The number of LFs in a text.
fn count_lines(text: &[u8]) -> usize {
    text.iter().filter(|byte| **byte == b'\n').count()
}

// Asserts that a run refuses an input with a number, at the line after the last LF of `front`, a beginning of it.
fn refuses_after(
    rt: &(impl Abort + AllocGlobal),
    job: Job,
    input: &[u8],
    front: &[u8],
    number: u32,
) {
    let line = count_lines(front).saturating_add(1);
    let wanted = format!(in rt.alloc(); "refused line {line}: {number}\n").expect(rt, "memory");
    let what = numbered(rt, "the front of length", front.len() as u64);
    let written = outcome_of(rt.alloc(), rt.alloc(), job, input);
    written.is(rt, wanted.as_str(), Status::Refused, what.as_str());
}

// Asserts that each proper beginning of these inputs is refused as cut short, at the line after its last LF.
fn refuses_beginnings(rt: &(impl Abort + AllocGlobal), job: Job, inputs: &[&[&str]]) {
    for sections in inputs {
        let text = text_of(rt, sections);
        let input = text.as_bytes();
        for len in 0..input.len() {
            refuses_after(rt, job, &input[..len], &input[..len], 3);
        }
    }
}

const CHECKED: &[&[&str]] = &[
    &[TWELVE, TWOS],
    &[TWELVE, LOOK],
    &[TWELVE, NO_KING],
    &[BEGUN, NO_PLAN],
];

#[test]
fn of_check(rt: HostRuntime) {
    refuses_beginnings(&rt, Job::Check, CHECKED);
}

#[test]
fn of_solve(rt: HostRuntime) {
    refuses_beginnings(&rt, Job::Solve, &[&[TWELVE], &[THIRTEEN]]);
}

const REPLAYED: &[&[&str]] = &[&[TENS, LAST_CARD], &[BEGUN, OWNER_LEADS], &[TENS, FALSE_GO]];

#[test]
fn of_replay(rt: HostRuntime) {
    refuses_beginnings(&rt, Job::Replay, REPLAYED);
}

const FOLLOWED: &[&[&str]] = &[
    &ONE_GAME,
    &[THIRTEEN, TWOS, NO_ACTS],
    &[THIRTEEN, NO_PLAN, NO_ACTS],
];

#[test]
fn of_follow(rt: HostRuntime) {
    refuses_beginnings(&rt, Job::Follow, FOLLOWED);

    // The whole game strays from the plan. Each beginning of it is refused as cut short and not for straying.
    let strays = text_with(&rt, &ONE_GAME, 20, "own 2H");
    refuses_beginnings(&rt, Job::Follow, &[&[strays.as_str()]]);
}

// An input with any one byte replaced by CR is refused, at the line of the CR.
#[test]
fn refuses_carriage_returns(rt: HostRuntime) {
    let text = text_of(&rt, &ONE_GAME);
    let input = text.as_bytes();
    for place in 0..input.len() {
        let mut changed = Vec::from_slice(rt.alloc(), input).expect(&rt, "memory");
        changed.as_mut_slice()[place] = b'\r';
        refuses_after(&rt, Job::Follow, changed.as_slice(), &input[..place], 1);
    }
}
