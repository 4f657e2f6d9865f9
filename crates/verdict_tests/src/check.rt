use crate::check::rows::{BEGUN_ROWS, LOST, Row, SHORT, STOPPING, STUCK, SURE};
use crate::same;
use crate::sections::{game, plan, problem};
use crib_check::{Verdict, check};
use crib_game::follow;
use std::process::Abort;

mod demands;
mod rows;
mod tables;

/// Asserts that the verdict is that of the row.
fn is_verdict(rt: &impl Abort, row: Row, verdict: &Verdict) {
    let (_, _, fails) = row;
    let wanted = match fails {
        None => Verdict::Holds,
        Some((ending, named)) => Verdict::Fails(ending, game(rt, named)),
    };
    assert!(rt; verdict == &wanted);
}

/// Checks the verdict of a row, and that `follow` returns the same ending for the game that it names.
fn comes_out(rt: &(impl Abort + AllocGlobal), row: Row) {
    let (of, by, fails) = row;
    let problem = problem(rt, of);
    let plan = plan(rt, by);
    is_verdict(rt, row, &check(&problem, &plan));
    if let Some((ending, named)) = fails {
        same(rt, follow(&problem, &plan, &game(rt, named)), Ok(ending));
    }
}

/// Checks each row.
fn come_out(rt: &(impl Abort + AllocGlobal), rows: &[Row]) {
    for row in rows {
        comes_out(rt, *row);
    }
}

#[test]
fn passes_sure_plans(rt: HostRuntime) {
    come_out(&rt, &SURE);
}

#[test]
fn names_the_first_game_that_falls_short(rt: HostRuntime) {
    come_out(&rt, &SHORT);
}

#[test]
fn names_the_first_game_that_is_lost(rt: HostRuntime) {
    come_out(&rt, &LOST);
}

#[test]
fn names_the_first_game_that_is_stuck(rt: HostRuntime) {
    come_out(&rt, &STUCK);
}

#[test]
fn goes_on_from_the_turns_that_are_played(rt: HostRuntime) {
    come_out(&rt, &BEGUN_ROWS);
}

#[test]
fn stops_the_opponent_or_names_the_first_game_in_which_he_is_not_stopped(rt: HostRuntime) {
    come_out(&rt, &STOPPING);
}
