//! Replays of whole games, of games that are open, and of games that are not legal.
use crate::inputs::*;
use crib_cards::{Scores, Side};
use crib_game::*;
use crib_show::{Outcome, ShowRow};
use example_texts::games::*;
use example_texts::problems::*;
use std::process::Abort;

fn report(rt: &impl Abort, problem_text: &str, game_text: &str) -> Report {
    replay(&problem(rt, problem_text), &game(rt, game_text)).expect(rt, "a report")
}

fn scores(owner: u8, opponent: u8) -> Scores {
    Scores { owner, opponent }
}

// The points of a hand, and the scores after it.
fn hand(side: Side, points: u8, owner: u8, opponent: u8) -> ShowRow {
    ShowRow {
        crib: false,
        side,
        points,
        scores: scores(owner, opponent),
    }
}

// The points of a crib, and the scores after it.
fn crib(side: Side, points: u8, owner: u8, opponent: u8) -> ShowRow {
    ShowRow {
        crib: true,
        ..hand(side, points, owner, opponent)
    }
}

// Asserts that a report has this show: the pone's hand, the dealer's and the crib, as far as they are counted.
fn shows(rt: &impl Abort, report: &Report, wanted: &[ShowRow]) {
    same(rt, report.show.as_slice(), wanted);
}

// Asserts that a report has these scores after the play, and this outcome.
fn ends(rt: &impl Abort, report: &Report, owner: u8, opponent: u8, outcome: Option<Outcome>) {
    same(rt, report.scores, scores(owner, opponent));
    same(rt, report.over, outcome);
}

// The count, the points and the scores after each act of `LAST_CARD`.
const LAST_CARD_ROWS: &[(u8, u8, u8, u8)] = &[
    (10, 0, 0, 0),
    (20, 2, 0, 2),
    (29, 0, 0, 2),
    (29, 0, 0, 2),
    (31, 2, 2, 2),
    (10, 0, 2, 2),
    (18, 0, 2, 2),
    (28, 0, 2, 2),
    (28, 1, 2, 3),
    (10, 1, 2, 4),
];

fn numbers(row: &Row) -> (u8, u8, u8, u8) {
    (row.count, row.points, row.scores.owner, row.scores.opponent)
}

#[test]
fn replays_a_whole_game(rt: HostRuntime) {
    let report = report(&rt, TENS, LAST_CARD);
    same(&rt, report.rows.len(), LAST_CARD_ROWS.len());
    for (row, wanted) in report.rows.as_slice().iter().zip(LAST_CARD_ROWS) {
        same(&rt, numbers(row), *wanted);
    }
    let show = [
        hand(Side::Owner, 9, 11, 4),
        hand(Side::Opponent, 2, 11, 6),
        crib(Side::Opponent, 9, 11, 15),
    ];
    shows(&rt, &report, &show);
    ends(&rt, &report, 2, 4, Some(Outcome::Short));
}

#[test]
fn counts_two_for_an_eighth_card_that_makes_31(rt: HostRuntime) {
    let report = report(&rt, LAST_MAKES_31, MAKES_31);
    let show = [
        hand(Side::Owner, 11, 12, 2),
        hand(Side::Opponent, 9, 12, 11),
        crib(Side::Opponent, 2, 12, 13),
    ];
    shows(&rt, &report, &show);
    ends(&rt, &report, 1, 2, Some(Outcome::Short));
}

#[test]
fn ends_in_the_play(rt: HostRuntime) {
    let report = report(&rt, CLOSE, PAIRED);
    shows(&rt, &report, &[]);
    ends(&rt, &report, 100, 121, Some(Outcome::Lost));
}

#[test]
fn ends_in_the_show(rt: HostRuntime) {
    let report = report(&rt, RACE, OPPONENT_LEADS);
    shows(&rt, &report, &[hand(Side::Opponent, 12, 109, 121)]);
    ends(&rt, &report, 109, 109, Some(Outcome::Lost));
}

// The opponent counts twelve for the hand and sixteen for the crib.
#[test]
fn counts_the_show_where_the_goal_is_to_stop_the_opponent(rt: HostRuntime) {
    let beaten = report(&rt, STOP_SHOW, OWNER_LEADS_TO_SIXTEEN);
    let show = [
        hand(Side::Owner, 12, 12, 93),
        hand(Side::Opponent, 12, 12, 105),
        crib(Side::Opponent, 16, 12, 121),
    ];
    shows(&rt, &beaten, &show);
    ends(&rt, &beaten, 0, 93, Some(Outcome::Lost));
    let stopped = report(&rt, STOP_FAR, OWNER_LEADS);
    same(&rt, stopped.show.len(), 3);
    same(&rt, stopped.over, Some(Outcome::Reached));
    let pegged_out = report(&rt, STOP_NEAR, OWNER_LEADS);
    shows(&rt, &pegged_out, &[]);
    ends(&rt, &pegged_out, 0, 121, Some(Outcome::Lost));
}

#[test]
fn stays_open_before_the_first_act(rt: HostRuntime) {
    let report = report(&rt, TENS, NO_TEN_PLAYED);
    assert!(rt; report.rows.is_empty());
    shows(&rt, &report, &[]);
    ends(&rt, &report, 0, 0, None);
}

// Asserts that a game is refused at this line, in an input whose game begins at line 8, with this number.
fn is_refused(rt: &impl Abort, problem_text: &str, game_text: &str, line: u32, number: u8) {
    let replayed = replay(&problem(rt, problem_text), &game(rt, game_text));
    is_refused_at(rt, replayed, 8, game_text, (line, number));
}

#[test]
fn tells_the_go_that_was_false(rt: HostRuntime) {
    is_refused(&rt, TENS, FALSE_GO, 15, 43);
}

#[test]
fn tells_the_first_fault(rt: HostRuntime) {
    is_refused(&rt, TENS, TAKES_THE_LEAD, 12, 44);
    is_refused(&rt, TENS, LEADS_A_KING, 12, 41);
    is_refused(&rt, TENS, PAST_31, 15, 42);
    let leads = with_line(&rt, LAST_CARD, 5, "opp TD");
    is_refused(&rt, TENS, leads.as_str(), 12, 44);
    let known = with_line(&rt, LAST_CARD, 2, "hold TC KD KH QS");
    is_refused(&rt, TENS, known.as_str(), 9, 40);
    is_refused(&rt, CLOSE, PAIRED_AND_LATE, 14, 45);
}
