//! Sections that are read from texts.
use crib_game::{Game, read_game};
use crib_plan::{Plan, read_plan};
use crib_problem::{Problem, read_problem};
use crib_text::Lines;
use std::alloc::Global;
use std::process::Abort;

pub(crate) fn problem(rt: &impl Abort, text: &str) -> Problem {
    read_problem(&mut lines(rt, text)).expect(rt, "a problem")
}

pub(crate) fn plan(rt: &(impl Abort + AllocGlobal), text: &str) -> Plan<Global> {
    read_plan(rt.alloc(), &mut lines(rt, text)).expect(rt, "a plan")
}

pub(crate) fn game(rt: &impl Abort, text: &str) -> Game {
    read_game(&mut lines(rt, text)).expect(rt, "a game")
}

pub(crate) fn lines<'a>(rt: &impl Abort, text: &'a str) -> Lines<'a> {
    let bytes = text.as_bytes();
    assert!(rt; bytes.len() <= 1000);
    Lines::new(bytes).expect(rt, "lines")
}
