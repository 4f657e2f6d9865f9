//! Games of problems that begin after an opening.
use crate::inputs::*;
use crib_game::*;
use example_texts::games::*;
use example_texts::plans::*;
use example_texts::problems::*;
use std::process::Abort;

// The report of a replay does not depend on where the problem begins.
fn replays_as(rt: &impl Abort, begun: &str, whole: &str, game_text: &str) {
    let game = game(rt, game_text);
    let report = replay(&problem(rt, begun), &game);
    assert!(rt; report.is_ok());
    assert!(rt; report == replay(&problem(rt, whole), &game));
}

#[test]
fn replays_from_the_first_lead(rt: HostRuntime) {
    replays_as(&rt, BEGUN, TWELVE, OWNER_LEADS);
    replays_as(&rt, TENS_BEGUN, TENS, LAST_CARD);
}

// Asserts that the replay of a game is refused so. Following a plan through the game is refused for the same.
fn is_refused(
    rt: &(impl Abort + AllocGlobal),
    problem_text: &str,
    game_text: &str,
    fault: GameFault,
) {
    let problem = problem(rt, problem_text);
    let game = game(rt, game_text);
    let replayed = replay(&problem, &game);
    same_for(rt, replayed.err(), Some(fault), game_text);
    let followed = follow(&problem, &plan(rt, REST), &game);
    same(rt, followed, Err(fault));
}

// Asserts that an act is refused as not played, at this line of an input whose game begins at line 11.
fn is_not_as_played(
    rt: &(impl Abort + AllocGlobal),
    game_text: &str,
    acts: usize,
    act: u8,
    line: u32,
) {
    let fault = GameFault::NotAsPlayed(act);
    is_refused(rt, BEGUN, game_text, fault);
    same(rt, (fault.number(), fault.line(11, acts)), (47, line));
}

#[test]
fn tells_the_act_that_is_not_as_it_was_played(rt: HostRuntime) {
    let diamond = with_line(&rt, OWNER_LEADS, 6, "opp AD");
    is_not_as_played(&rt, diamond.as_str(), 8, 2, 16);
    is_not_as_played(&rt, NO_ACTS, 0, 1, 14);
    is_not_as_played(&rt, ONE_PLAYED, 1, 2, 14);
}

// A line of `OWNER_LEADS`, what is put in its place, and the refusal.
const CHANGED: &[(usize, &str, GameFault)] = &[
    (5, "own 2H", GameFault::NotAsPlayed(1)),
    (5, "own 9C", GameFault::NotAsPlayed(1)),
    (5, "opp AC", GameFault::NotAsPlayed(1)),
    (6, "own 2D", GameFault::NotAsPlayed(2)),
    (6, "opp go", GameFault::NotAsPlayed(2)),
    (2, "hold AD 2C AH AS", GameFault::NotUnseen(2)),
];

// An act that was not played is refused as such, whatever else is wrong with it. A card of the opponent comes first.
#[test]
fn tells_first_that_an_act_was_not_played(rt: HostRuntime) {
    for (number, changed, fault) in CHANGED {
        let text = with_line(&rt, OWNER_LEADS, *number, changed);
        is_refused(&rt, BEGUN, text.as_str(), *fault);
    }
    is_refused(&rt, TENS_BEGUN, PAST_31, GameFault::NotAsPlayed(4));
}

#[test]
fn tells_an_act_after_the_end(rt: HostRuntime) {
    let mut text = with_line(&rt, OWNER_LEADS, 4, "acts 9");
    text.push_str("own 2C\n").expect(&rt, "memory");
    is_refused(&rt, BEGUN, text.as_str(), GameFault::AfterEnd(9));
}

const STUCK: &[Texts] = &[(BEGUN, NO_PLAN, TWO_AND_ACE), (BEGUN, TWOS, TWO_AND_ACE)];

#[test]
fn a_plan_begins_after_the_opening(rt: HostRuntime) {
    stand(&rt, &[(BEGUN, REST, TWO_AND_ACE)], Ok(Ending::Open));
    stand(&rt, &[(BEGUN, REST, OWNER_LEADS)], Ok(Ending::Reached));
    stand(
        &rt,
        &[(BEGUN_SHORT, REST, DIAMOND_FIRST)],
        Ok(Ending::Short),
    );
    stand(&rt, STUCK, Ok(Ending::Stuck));
}

// A card of the opening does not stray, though no plan states it. The first card after it does.
const STRAYING: &[Texts] = &[
    (BEGUN, REST, STRAYS),
    (BEGUN, TWOS, OWNER_LEADS),
    (BEGUN, NO_PLAN, OWNER_LEADS),
];

#[test]
fn tells_the_card_that_strays_after_the_opening(rt: HostRuntime) {
    stand(&rt, STRAYING, Err(GameFault::Strays(3)));
}
