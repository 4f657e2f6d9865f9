//! One test of each public function. The tests of `cribplan` have the answers, as a run writes them.
use crate::{is_answer, same};
use crib_answer::*;
use crib_run::{Answer, Status};
use example_texts::boards::LAST_CARD_BOARD;
use example_texts::games::{LAST_CARD, LAST_CARD_ANSWER, OWNER_LEADS};
use example_texts::joined;
use example_texts::plans::TWOS;
use example_texts::problems::{LAST_TWO, TENS, THIRTEEN, TWELVE, WHOLE_PLAY};
use std::alloc::Global;
use std::process::Abort;

// The answer of a job to an input. It has no contract: a test judges the answer when it runs.
fn answer_of(alloc: Global, job: Job, input: &[u8]) -> Answer<Global> {
    answer_to(alloc, job, input)
}

// Asserts that the answer of a job to some sections is this text, with this status.
fn answers(
    rt: &(impl Abort + AllocGlobal),
    job: Job,
    sections: &[&str],
    wanted: &str,
    status: Status,
) {
    let input = joined(rt.alloc(), sections).expect(rt, "memory");
    let answer = answer_of(rt.alloc(), job, input.as_bytes());
    is_answer(rt, &answer, wanted, status);
}

#[test]
fn answers_each_job(rt: HostRuntime) {
    answers(
        &rt,
        Job::Replay,
        &[TENS, LAST_CARD],
        LAST_CARD_ANSWER,
        Status::Yes,
    );
    answers(
        &rt,
        Job::Board,
        &[TENS, LAST_CARD],
        LAST_CARD_BOARD,
        Status::Yes,
    );
    answers(
        &rt,
        Job::Follow,
        &[THIRTEEN, TWOS, OWNER_LEADS],
        "short\n",
        Status::No,
    );
    answers(&rt, Job::Check, &[TWELVE, TWOS], "holds\n", Status::Yes);
    answers(&rt, Job::Solve, &[TWELVE], TWOS, Status::Yes);
    answers(
        &rt,
        Job::Solve,
        &[TWELVE, TWOS],
        "refused line 8: 8\n",
        Status::Refused,
    );
}

// The checker, which shares nothing with the search, checks the plan that is found.
fn plan_that_is_found_holds(rt: &(impl Abort + AllocGlobal), problem: &str) {
    let found = answer_of(rt.alloc(), Job::Solve, problem.as_bytes());
    let plan = std::str::from_utf8(found.as_slice()).expect(rt, "a text");
    answers(rt, Job::Check, &[problem, plan], "holds\n", Status::Yes);
}

#[test]
fn plans_that_are_found_hold(rt: HostRuntime) {
    plan_that_is_found_holds(&rt, LAST_TWO);
    plan_that_is_found_holds(&rt, WHOLE_PLAY);
}

#[test]
fn reads_the_names_of_jobs(rt: HostRuntime) {
    same(&rt, "check".parse::<Job>(), Ok(Job::Check));
    same(&rt, "solve".parse::<Job>(), Ok(Job::Solve));
    same(&rt, "replay".parse::<Job>(), Ok(Job::Replay));
    same(&rt, "board".parse::<Job>(), Ok(Job::Board));
    same(&rt, "follow".parse::<Job>(), Ok(Job::Follow));
    same(&rt, "Check".parse::<Job>(), Err(UnknownJob));
    same(&rt, "".parse::<Job>(), Err(UnknownJob));
}
