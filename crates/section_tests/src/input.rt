//! The line, the number and the sentence of each refusal of an input.
ghost use Rattle.std.specs.Prelude.{◌≤◌, length};

use crate::inputs::{same, same_for};
use crib_game::{follow, replay};
use crib_input::*;
use crib_text::{MAX_INPUT, TextCause, TextFault};
use std::fmt::Display;
use std::process::Abort;

// A problem with tens and small clubs: its version, its starter, its scores and its goal, and the lines after these.
macro_rules! problem {
    ($version:literal, $starter:literal, $scores:literal, $goal:literal, $($after:literal),*) => {
        concat!(
            "problem ", $version, "\ndealer opponent\nscore ", $scores, "\nstarter ", $starter,
            "\nhold TC 9C 2C 8C\nthrow 4S 6S\ngoal ", $goal, "\n", $($after),*
        )
    };
}

// A problem in version 2: the lines of its opening, and those after them.
macro_rules! begun {
    ($lines:literal) => {
        problem!("2", "3H", "0 0", "win", $lines)
    };
}

// A problem in version 1, and the lines of a plan.
macro_rules! planned {
    ($lines:literal) => {
        problem!("1", "3H", "0 0", "win", $lines)
    };
}

// A problem whose opponent is two holes from 121, and a game: its acts.
macro_rules! played {
    ($acts:literal) => {
        problem!(
            "1", "3H", "0 119", "win", "game 1\nhold TD KD KH QS\nthrow 5H 7D\nacts ", $acts
        )
    };
}

// An input, and the line, the number and the sentence of its refusal.
type Row = (&'static str, u32, u8, &'static str);

const PROBLEMS: &[Row] = &[
    ("problem 1\t\n", 1, 1, "neither LF nor 32 to 126"),
    ("problem 1\n", 2, 3, "cut short"),
    ("problems 1\n", 1, 4, "not expected here"),
    (problem!("1", "3X", "0 0", "win", ""), 4, 5, "not a card"),
    (
        problem!("1", "3H", "0 x", "win", ""),
        3,
        6,
        "not a valid number here",
    ),
    ("problem 3\n", 1, 7, "not a version of this section"),
    (
        problem!("1", "3H", "0 0", "win", "x\n"),
        8,
        8,
        "after the last section",
    ),
    (problem!("1", "8C", "0 0", "win", ""), 5, 20, "already used"),
    (problem!("1", "3H", "0 121", "win", ""), 3, 21, "above 120"),
    (
        problem!("1", "3H", "0 0", "holes 0", ""),
        7,
        22,
        "out of range",
    ),
    (
        begun!("played 2\nown TC\nopp go\n"),
        10,
        23,
        "a turn that no deal lets the opponent show",
    ),
    (
        problem!("2", "3H", "0 119", "win", "played 2\nown TC\nopp TD\n"),
        10,
        24,
        "a turn that ends the deal",
    ),
    (begun!("played 1\nown KC\n"), 9, 41, "not held"),
    (
        begun!("played 4\nown TC\nopp TD\nown 9C\nopp KD\n"),
        12,
        42,
        "a card that does not fit",
    ),
    (
        begun!("played 1\nown go\n"),
        9,
        43,
        "not allowed while a card fits",
    ),
    (begun!("played 1\nopp TD\n"), 9, 44, "not the side to move"),
];

const PLANS: &[Row] = &[
    (planned!("plan 2\n"), 8, 7, "not a version of this section"),
    (
        planned!("plan 1\nnodes 1\n0 play TC 0\n"),
        10,
        30,
        "not a later node of the plan",
    ),
    (
        planned!("plan 1\nnodes 2\n0 see :1\n1 play TC end\n"),
        10,
        31,
        "not a valid branch",
    ),
    (planned!("plan 1\nnodes 65536\n"), 9, 32, "above 65,535"),
];

const GAMES: &[Row] = &[
    (
        problem!(
            "1",
            "3H",
            "0 0",
            "win",
            "game 1\nhold 3H KD KH QS\nthrow 5H 7D\nacts 0\n"
        ),
        9,
        40,
        "card 1 of the opponent is known or stood before",
    ),
    (
        played!("1\nown KC\n"),
        12,
        41,
        "act 1 plays a card that is not held",
    ),
    (
        played!("4\nown TC\nopp KD\nown 9C\nopp TD\n"),
        15,
        42,
        "act 4 plays a card that does not fit",
    ),
    (
        played!("1\nown go\n"),
        12,
        43,
        "act 1 is a go while a card fits",
    ),
    (played!("1\nopp TD\n"), 12, 44, "act 1 is out of turn"),
    (
        played!("3\nown TC\nopp TD\nown 9C\n"),
        14,
        45,
        "act 3 comes after the end",
    ),
    (
        begun!("played 1\nown TC\ngame 1\nhold TD KD KH QS\nthrow 5H 7D\nacts 0\n"),
        13,
        47,
        "act 1 is not as it was played",
    ),
];

const STRAYS: Row = (
    planned!(
        "plan 1\nnodes 1\n0 play TC end\ngame 1\nhold TD KD KH QS\nthrow 5H 7D\nacts 1\nown 9C\n"
    ),
    15,
    46,
    "act 1 strays from the plan",
);

// The bytes of an input, which is not too long.
fn input<'a>(rt: &impl Abort, row: &'a Row) -> &'a [u8]
    ensures { length result.now ≤ MAX_INPUT }
{
    let bytes = row.0.as_bytes();
    assert!(rt; bytes.len() <= MAX_INPUT);
    bytes
}

// Asserts that a value is written so.
fn says(rt: &(impl Abort + AllocGlobal), value: &impl Display, sentence: &str) {
    let text = format!(in rt.alloc(); "{value}").expect(rt, "memory");
    same(rt, text.as_str(), sentence);
}

// Asserts that a refusal has this line, this number and this sentence.
fn is_refusal(rt: &(impl Abort + AllocGlobal), refusal: Option<Refusal>, row: &Row) {
    let (input, line, number, sentence) = *row;
    let Some(refusal) = refusal else {
        panic!(rt; "not refused: {input}");
    };
    let found = (refusal.line, refusal.cause.number());
    same_for(rt, found, (line, number), input);
    says(rt, &refusal.cause, sentence);
    let whole = format!(in rt.alloc(); "line {line}: {sentence}").expect(rt, "memory");
    says(rt, &refusal, whole.as_str());
    says(rt, &Reason::Refused(refusal), whole.as_str());
}

#[test]
fn problems_are_refused_with_a_sentence(rt: HostRuntime) {
    for row in PROBLEMS {
        is_refusal(&rt, problem_of(input(&rt, row)).err(), row);
    }
}

#[test]
fn plans_are_refused_with_a_sentence(rt: HostRuntime) {
    for row in PLANS {
        match question_of(rt.alloc(), input(&rt, row)) {
            Err(Reason::Refused(refusal)) => is_refusal(&rt, Some(refusal), row),
            _ => panic!(rt; "read, or out of memory"),
        }
    }
}

// The refusal of a game that was read, and does not fit its problem.
fn judged(played: &Played) -> Option<Refusal> {
    match replay(&played.problem, &played.game) {
        Ok(_) => None,
        Err(fault) => Some(Refusal::of_game(fault, played.first, &played.game)),
    }
}

#[test]
fn games_are_refused_with_a_sentence(rt: HostRuntime) {
    for row in GAMES {
        let played = played_of(input(&rt, row)).expect(&rt, "a game");
        is_refusal(&rt, judged(&played), row);
    }
}

#[test]
fn a_game_that_strays_is_refused_with_a_sentence(rt: HostRuntime) {
    let played = played_under_of(rt.alloc(), input(&rt, &STRAYS)).expect(&rt, "a game");
    let refusal = match follow(&played.problem, &played.plan, &played.game) {
        Ok(_) => None,
        Err(fault) => Some(Refusal::of_game(fault, played.first, &played.game)),
    };
    is_refusal(&rt, refusal, &STRAYS);
}

#[test]
fn an_input_that_is_too_long_has_a_sentence(rt: HostRuntime) {
    let refusal = Refusal::from(TextFault::of_input(TextCause::TooLong));
    let row = ("too long", 0, 2, "longer than 8,388,608 bytes");
    is_refusal(&rt, Some(refusal), &row);
    says(&rt, &Reason::Fault(FaultCause::NoMemory), "out of memory");
}
