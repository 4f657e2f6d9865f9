//! The texts of the tests as the values that they are read as, and what is asserted of these.
use crib_game::*;
use crib_plan::{Plan, read_plan};
use crib_problem::{Problem, read_problem};
use crib_text::{Lines, MAX_INPUT, TextFault};
use example_texts::joined_with;
use refusing_alloc::Refusing;
use std::alloc::{Allocator, Global};
use std::fmt::Debug;
use std::process::Abort;

/// Asserts that two values are equal.
pub(crate) fn same<T: PartialEq + Debug + Drop>(rt: &impl Abort, found: T, wanted: T) {
    assert_eq!(rt; found, wanted);
}

/// Asserts that two values are equal. A failed assertion names `what` they belong to.
pub(crate) fn same_for<T: PartialEq + Debug + Drop>(
    rt: &impl Abort,
    found: T,
    wanted: T,
    what: &str,
) {
    assert_eq!(rt; found, wanted, "for {what}");
}

pub(crate) fn lines<'a>(rt: &impl Abort, text: &'a str) -> Lines<'a> {
    let bytes = text.as_bytes();
    assert!(rt; bytes.len() <= MAX_INPUT);
    Lines::new(bytes).expect(rt, "lines")
}

pub(crate) fn next_number(rt: &impl Abort, lines: &mut Lines<'_>) -> u32 {
    lines.next_line().expect(rt, "a line").number()
}

fn finish(rt: &impl Abort, lines: &Lines<'_>) {
    lines.finish().expect(rt, "no line after the section");
}

pub(crate) fn problem(rt: &impl Abort, text: &str) -> Problem {
    let mut lines = lines(rt, text);
    let problem = read_problem(&mut lines).expect(rt, "a problem");
    finish(rt, &lines);
    problem
}

pub(crate) fn plan(rt: &(impl Abort + AllocGlobal), text: &str) -> Plan<Global> {
    let mut lines = lines(rt, text);
    let plan = read_plan(rt.alloc(), &mut lines).expect(rt, "a plan");
    finish(rt, &lines);
    plan
}

pub(crate) fn game(rt: &impl Abort, text: &str) -> Game {
    let mut lines = lines(rt, text);
    let game = read_game(&mut lines).expect(rt, "a game");
    finish(rt, &lines);
    game
}

/// The text with `changed` in the place of line `number`.
pub(crate) fn with_line(
    rt: &(impl Abort + AllocGlobal),
    text: &str,
    number: usize,
    changed: &str,
) -> String {
    joined_with(rt.alloc(), &[text], number, changed).expect(rt, "memory")
}

/// Asserts that this text was written.
pub(crate) fn writes<E: Debug + Drop>(rt: &impl Abort, written: Result<Vec<u8>, E>, wanted: &str) {
    let text = written.expect(rt, "a text");
    same(rt, text.as_slice(), wanted.as_bytes());
}

/// Asserts that a writer allocated once. If `heap` served no allocation first, it failed for want of memory. If not, it
/// wrote this text.
pub(crate) fn grows_once<A: Allocator>(
    rt: &impl Abort,
    heap: &Refusing<Global>,
    served: u64,
    written: Result<Vec<u8, A>, TextFault>,
    wanted: &str,
) {
    same(rt, heap.has_refused(), served == 0);
    same(rt, written.is_err(), served == 0);
    match written {
        Ok(text) => same(rt, text.as_slice(), wanted.as_bytes()),
        Err(fault) => same(rt, (fault.line, fault.cause.number()), (0, 11)),
    }
}

/// A problem, a plan, and a game.
pub(crate) type Texts = (&'static str, &'static str, &'static str);

/// Asserts the ending of these games under their plans, or the refusal.
pub(crate) fn stand(
    rt: &(impl Abort + AllocGlobal),
    rows: &[Texts],
    wanted: Result<Ending, GameFault>,
) {
    for (problem_text, plan_text, game_text) in rows {
        let game = game(rt, game_text);
        let followed = follow(&problem(rt, problem_text), &plan(rt, plan_text), &game);
        assert_eq!(rt; followed, wanted, "{problem_text}{plan_text}{game_text}");
    }
}

/// Asserts that a game is refused at this line, in an input whose game begins at line `first`, with this number.
pub(crate) fn is_refused_at<T: Debug + Drop>(
    rt: &impl Abort,
    judged: Result<T, GameFault>,
    first: u8,
    game_text: &str,
    wanted: (u32, u8),
) {
    let acts = game(rt, game_text).acts.len();
    let fault = judged.expect_err(rt, "a refusal");
    let refused = (fault.line(u32::from(first), acts), fault.number());
    same_for(rt, refused, wanted, game_text);
}
