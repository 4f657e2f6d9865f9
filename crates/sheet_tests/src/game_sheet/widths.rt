//! No line of the sheet of a game has more than 78 columns: `sheet` asserts it of each sheet that it makes.
use crate::game_sheet::{played, sheet, sheet_of};
use crate::{append, same};
use crib_cards::{Act, Card, Move, Side};
use crib_game::{Game, replay};
use crib_input::Played;
use crib_problem::Problem;
use example_texts::games::*;
use example_texts::problems::*;
use failing_devices::Trouble;
use std::process::Abort;

const PACK: &str = "AC AD AH AS 2C 2D 2H 2S 3C 3D 3H 3S 4C 4D 4H 4S 5C 5D 5H 5S 6C 6D 6H 6S 7C 7D \
                    7H 7S 8C 8D 8H 8S 9C 9D 9H 9S TC TD TH TS JC JD JH JS QC QD QH QS KC KD KH KS";

// A problem, from the scores on, and a game without acts. Each `?` is a card.
const DEAL: &str = "
score 100 99
starter ?
hold ? ? ? ?
throw ? ?
goal win
game 1
hold ? ? ? ?
throw ? ?
acts 0
";

// The other examples have sheets in `game_sheets`.
#[test]
fn the_sheets_of_the_examples_are_narrow(rt: HostRuntime) {
    let _last_makes_31 = sheet_of(&rt, LAST_MAKES_31, MAKES_31, Trouble::Never);
    let _last_two = sheet_of(&rt, LAST_TWO, RUN_LOST, Trouble::Never);
}

// A card that a text has not yet, drawn from the pack by a seed.
fn drawn(rt: &impl Abort, text: &str, seed: &mut u32) -> &'static str {
    for _turn in 0..10_000 {
        *seed = seed.wrapping_mul(1_664_525).wrapping_add(1_013_904_223);
        let place = (*seed >> 16) as usize % 52;
        let card = PACK.split(' ').nth(place).expect(rt, "a card");
        if !text.contains(card) {
            return card;
        }
    }
    rt.abort()
}

// A problem and a game without acts, with cards that are drawn by a seed.
fn dealt(rt: &(impl Abort + AllocGlobal), mut seed: u32) -> Played {
    let dealer = if seed % 2 == 0 { "owner" } else { "opponent" };
    let mut text = String::new(rt.alloc());
    append(rt, &mut text, "problem 1\ndealer ");
    append(rt, &mut text, dealer);
    for letter in DEAL.chars() {
        if letter == '?' {
            let card = drawn(rt, text.as_str(), &mut seed);
            append(rt, &mut text, card);
        } else {
            text.push(letter).expect(rt, "memory");
        }
    }
    played(rt, text.as_str())
}

// Whether a move of a side is legal after the acts of a game. If it is, it is the next act.
fn goes_on(problem: &Problem, game: &mut Game, side: Side, what: Move) -> bool {
    if game.acts.is_full() {
        return false;
    }
    game.acts.push(Act { side, what });
    if replay(problem, game).is_ok() {
        return true;
    }
    game.acts.pop();
    false
}

// Plays one more act: the first legal card of a side, or its go.
fn play_one(problem: &Problem, game: &mut Game, side: Side, cards: &[Card; 4]) {
    for card in cards {
        if goes_on(problem, game, side, Move::Card(*card)) {
            return;
        }
    }
    let _said_go = goes_on(problem, game, side, Move::Go);
}

// Plays a game to its end.
fn play_out(played: &mut Played) {
    let mine = played.problem.hold();
    let theirs = played.game.opp.hold;
    for _turn in 0..32 {
        play_one(&played.problem, &mut played.game, Side::Owner, &mine);
        play_one(&played.problem, &mut played.game, Side::Opponent, &theirs);
    }
}

#[test]
fn the_sheets_of_dealt_games_are_narrow(rt: HostRuntime) {
    for seed in 0..60 {
        let mut dealt = dealt(&rt, seed);
        play_out(&mut dealt);
        let report = replay(&dealt.problem, &dealt.game).expect(&rt, "a report");
        assert!(rt; report.over.is_some());
        let (_, is_cut) = sheet(&rt, &dealt, Trouble::Never);
        same(&rt, (seed, is_cut), (seed, false));
    }
}
