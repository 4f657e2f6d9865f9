use crate::inputs::{problem, same};
use crib_cards::{Act, Card, Move, Scores, Side, read_card};
use crib_problem::*;
use std::process::Abort;

// A problem of version 2 with tens and small clubs: the dealer, the scores, the goal, and the lines of the opening.
macro_rules! tens {
    ($dealer:literal, $score:literal, $goal:literal, $opening:literal) => {
        concat!(
            "problem 2\ndealer ", $dealer, "\nscore ", $score,
            "\nstarter 3H\nhold TC 9C 2C 8C\nthrow 4S 6S\ngoal ", $goal, "\n", $opening
        )
    };
}

// The same at the first lead of the owner.
const TENS: &str = tens!("opponent", "0 0", "win", "played 0\n");

// A pair of tens: two holes for the opponent.
const PAIRED: &str = tens!("opponent", "0 0", "win", "played 2\nown TC\nopp TD\n");

// Fifteen with an eight: two holes for the owner.
const FIFTEEN: &str = tens!("owner", "0 0", "win", "played 2\nopp 7D\nown 8C\n");

fn card(rt: &impl Abort, word: &str) -> Card {
    read_card(word.as_bytes()).expect(rt, "a card")
}

fn plays(rt: &impl Abort, side: Side, word: &str) -> Act {
    Act {
        side,
        what: Move::Card(card(rt, word)),
    }
}

fn says_go(side: Side) -> Act {
    Act {
        side,
        what: Move::Go,
    }
}

// The problem with tens and small clubs, with this throw.
fn made(rt: &impl Abort, scores: Scores, throw: [&str; 2], goal: Goal) -> Option<Problem> {
    let hold = [
        card(rt, "TC"),
        card(rt, "9C"),
        card(rt, "2C"),
        card(rt, "8C"),
    ];
    let [first, second] = throw;
    let thrown = [card(rt, first), card(rt, second)];
    Problem::of(Side::Opponent, scores, card(rt, "3H"), hold, thrown, goal)
}

fn level(owner: u8, opponent: u8) -> Scores {
    Scores { owner, opponent }
}

#[test]
fn makes_what_is_read(rt: HostRuntime) {
    let tens = made(&rt, level(0, 0), ["4S", "6S"], Goal::Win);
    same(&rt, tens, Some(problem(&rt, TENS)));
    let last = tens!("opponent", "119 120", "holes 2", "played 0\n");
    let hole = made(&rt, level(119, 120), ["4S", "6S"], Goal::Holes(2));
    same(&rt, hole, Some(problem(&rt, last)));
    let stop = made(&rt, level(0, 0), ["4S", "6S"], Goal::Stop);
    let stops = tens!("opponent", "0 0", "stop", "played 0\n");
    same(&rt, stop, Some(problem(&rt, stops)));
}

#[test]
fn makes_no_other_problem(rt: HostRuntime) {
    for throw in [["4S", "4S"], ["4S", "3H"], ["8C", "6S"]] {
        same(&rt, made(&rt, level(0, 0), throw, Goal::Win), None);
    }
    for scores in [level(121, 0), level(0, 121)] {
        same(&rt, made(&rt, scores, ["4S", "6S"], Goal::Win), None);
    }
    for holes in [0, 3, 255] {
        same(
            &rt,
            made(&rt, level(119, 0), ["4S", "6S"], Goal::Holes(holes)),
            None,
        );
    }
}

#[test]
fn goes_on_with_a_turn(rt: HostRuntime) {
    let led = problem(&rt, TENS)
        .after(plays(&rt, Side::Owner, "TC"))
        .expect(&rt, "a lead");
    let paired = led
        .after(plays(&rt, Side::Opponent, "TD"))
        .expect(&rt, "a pair");
    same(&rt, paired, problem(&rt, PAIRED));
}

// Asserts that the turn is refused with this number.
fn refuses(rt: &impl Abort, problem: &Problem, act: Act, number: u8) {
    let cause = problem.after(act).expect_err(rt, "a refusal");
    same(rt, cause.number(), number);
}

#[test]
fn refuses_turns_that_may_not_come_next(rt: HostRuntime) {
    let tens = problem(&rt, TENS);
    refuses(&rt, &tens, plays(&rt, Side::Opponent, "TD"), 44);
    refuses(&rt, &tens, plays(&rt, Side::Opponent, "TC"), 20);
    refuses(&rt, &tens, plays(&rt, Side::Owner, "KC"), 41);
    refuses(&rt, &tens, says_go(Side::Owner), 43);
    let paired = problem(&rt, PAIRED);
    let high = paired
        .after(plays(&rt, Side::Owner, "9C"))
        .expect(&rt, "a nine");
    refuses(&rt, &high, plays(&rt, Side::Opponent, "KD"), 42);
    refuses(
        &rt,
        &paired
            .after(plays(&rt, Side::Owner, "2C"))
            .expect(&rt, "a two"),
        plays(&rt, Side::Opponent, "TD"),
        20,
    );
    let led = problem(&rt, tens!("opponent", "0 119", "win", "played 1\nown TC\n"));
    refuses(&rt, &led, plays(&rt, Side::Opponent, "TD"), 24);
    refuses(&rt, &led, says_go(Side::Opponent), 23);
}

#[test]
fn aims_at_another_goal(rt: HostRuntime) {
    let fifteen = problem(&rt, FIFTEEN);
    let three = tens!("owner", "0 0", "holes 3", "played 2\nopp 7D\nown 8C\n");
    same(
        &rt,
        fifteen.with_goal(Goal::Holes(3)),
        Some(problem(&rt, three)),
    );
    same(&rt, fifteen.with_goal(Goal::Holes(2)), None);
    same(&rt, fifteen.with_goal(Goal::Holes(0)), None);
    same(&rt, fifteen.at_lead().with_goal(Goal::Holes(122)), None);
}

#[test]
fn plays_at_other_scores(rt: HostRuntime) {
    let paired = problem(&rt, PAIRED);
    let close = tens!("opponent", "0 118", "win", "played 2\nown TC\nopp TD\n");
    same(
        &rt,
        paired.with_scores(level(0, 118)),
        Some(problem(&rt, close)),
    );
    same(&rt, paired.with_scores(level(0, 119)), None);
    same(&rt, paired.with_scores(level(121, 0)), None);
    let holes = paired.with_goal(Goal::Holes(3)).expect(&rt, "three holes");
    same(&rt, holes.with_scores(level(119, 0)), None);
}
