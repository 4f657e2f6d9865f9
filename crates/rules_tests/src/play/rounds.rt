use crate::asserts::{ensure, same, same_at};
use crate::reading::{number, parts, rank};
use crib_cards::{Scores, Side};
use crib_play::*;
use std::hash::{DefaultHasher, Hash, Hasher};
use std::process::Abort;

// Returns a round at the first lead with a target of 121.
fn round_of(rt: &impl Abort, dealer: Side, owner: u8, opponent: u8) -> Round {
    ensure(rt, owner < 121);
    ensure(rt, opponent < 121);
    Round::new(dealer, Scores { owner, opponent }, 121)
}

// Takes turns, each a rank or a go, and compares the points behind its colon.
fn take_all(rt: &impl Abort, round: &mut Round, turns: &str) {
    for turn in turns.split(' ') {
        let (letter, points) = parts(rt, turn, ":");
        ensure(rt, round.next() != Turn::Over);
        let brought = if letter == "go" {
            ensure(rt, round.count() >= 22);
            round.say_go()
        } else {
            let rank = rank(rt, number(rt, letter));
            ensure(rt, round.fits(rank));
            round.play(rank)
        };
        same_at(rt, turn, brought, number(rt, points));
    }
}

// Asserts that the play is over, with these scores.
fn is_over(rt: &impl Abort, round: &Round, owner: u8, opponent: u8) {
    ensure(rt, round.next() == Turn::Over);
    same(rt, round.scores(), Scores { owner, opponent });
}

fn hash_of(round: &Round) -> u64 {
    let mut state = DefaultHasher::new();
    round.hash(&mut state);
    state.finish()
}

#[test]
fn counts_the_last_card_of_a_close(rt: HostRuntime) {
    let mut round = round_of(&rt, Side::Opponent, 0, 0);
    ensure(&rt, round.next() == Turn::Owner);
    ensure(&rt, round.next().asks(Side::Owner));
    ensure(&rt, !round.next().asks(Side::Opponent));
    take_all(&rt, &mut round, "10:0 10:2 9:0 go:0");
    same(&rt, round.count(), 29);
    same(&rt, round.pile().len(), 3);
    take_all(&rt, &mut round, "2:2 13:0 8:0 13:0");
    same(&rt, round.cards_left(Side::Owner), 0);
    same(&rt, round.cards_left(Side::Opponent), 1);
    ensure(&rt, round.next() == Turn::Opponent);
    take_all(&rt, &mut round, "go:1");
    same(&rt, round.count(), 0);
    take_all(&rt, &mut round, "12:1");
    is_over(&rt, &round, 2, 4);
}

#[test]
fn counts_two_where_the_last_card_makes_31(rt: HostRuntime) {
    let mut round = round_of(&rt, Side::Opponent, 0, 0);
    take_all(&rt, &mut round, "10:0 12:0 13:0 go:0 go:1");
    ensure(&rt, round.next() == Turn::Opponent);
    take_all(&rt, &mut round, "9:0 4:0 7:0 3:0 8:2");
    is_over(&rt, &round, 1, 2);
}

#[test]
fn ends_where_a_score_decides(rt: HostRuntime) {
    let mut round = round_of(&rt, Side::Opponent, 100, 119);
    take_all(&rt, &mut round, "1:0 1:2");
    is_over(&rt, &round, 100, 121);
}

#[test]
fn gives_the_last_card_to_the_dealer(rt: HostRuntime) {
    let mut round = round_of(&rt, Side::Owner, 108, 109);
    ensure(&rt, round.next() == Turn::Opponent);
    take_all(&rt, &mut round, "1:0 2:0 1:0 2:0 1:0 2:0 1:0 2:1");
    is_over(&rt, &round, 109, 109);
}

#[test]
fn is_a_value(rt: HostRuntime) {
    let mut tens = round_of(&rt, Side::Opponent, 0, 0);
    let mut kings = tens.copy();
    let mut queen = tens.copy();
    take_all(&rt, &mut tens, "10:0 10:2 9:0");
    take_all(&rt, &mut kings, "13:0 13:2 9:0");
    ensure(&rt, tens != kings);
    take_all(&rt, &mut tens, "go:0 2:2");
    take_all(&rt, &mut kings, "go:0 2:2");
    take_all(&rt, &mut queen, "10:0 12:0 9:0 go:0 2:2");
    ensure(&rt, tens == kings);
    same(&rt, hash_of(&tens), hash_of(&kings));
    ensure(&rt, tens != queen);
}
