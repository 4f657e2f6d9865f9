use crate::asserts::{ensure, same, same_at};
use crate::reading::{card, dealt, number, parts, rank, set};
use crib_know::*;
use crib_play::Turn;
use crib_problem::read_problem;
use crib_text::Lines;
use std::process::Abort;

const ONE_GO: &[u8] =
    b"problem 1\ndealer opponent\nscore 0 0\nstarter 3H\nhold TC 9C 2C 8C\nthrow 4S 6S\ngoal win\n";

const TWO_GOS: &[u8] =
    b"problem 1\ndealer opponent\nscore 0 0\nstarter 2H\nhold TC KC 4C 3C\nthrow 5S 6S\ngoal win\n";

const NEARLY_LOST: &[u8] =
    b"problem 1\ndealer opponent\nscore 100 119\nstarter KD\nhold AC 2C 2D 2H\nthrow 4C 6D\ngoal win\n";

const FOUR_TWOS: &[u8] =
    b"problem 1\ndealer opponent\nscore 0 0\nstarter KD\nhold 2C 2D 2H 2S\nthrow 4C 6D\ngoal holes 13\n";

// The first problem with an opening: of two turns here, and of four turns with a go below.
const AFTER_TWO: &[u8] =
    b"problem 2\ndealer opponent\nscore 0 0\nstarter 3H\nhold TC 9C 2C 8C\nthrow 4S 6S\ngoal win\n\
      played 2\nown TC\nopp TD\n";

const AFTER_A_GO: &[u8] =
    b"problem 2\ndealer opponent\nscore 0 0\nstarter 3H\nhold TC 9C 2C 8C\nthrow 4S 6S\ngoal win\n\
      played 4\nown TC\nopp TS\nown 9C\nopp go\n";

fn start(rt: &impl Abort, text: &[u8]) -> Know {
    ensure(rt, text.len() <= 1000);
    let mut lines = Lines::new(text).expect(rt, "lines");
    let problem = read_problem(&mut lines).expect(rt, "a problem");
    Know::start(&problem)
}

// The owner plays this card, or says go.
fn own_move(rt: &impl Abort, know: &mut Know, word: &str) {
    if word == "go" {
        ensure(rt, know.must_go());
        know.own_go();
    } else {
        let card = card(rt, word);
        ensure(rt, know.turn() == Turn::Owner);
        ensure(rt, know.own_left().has(card));
        ensure(rt, know.round().fits(card.rank()));
        know.own_play(card);
    }
}

// The opponent plays a card of the rank with this number, or says go.
fn saw(rt: &impl Abort, know: &mut Know, word: &str) {
    if word == "go" {
        ensure(rt, know.can_go());
        know.saw_go();
    } else {
        let rank = rank(rt, number(rt, word));
        ensure(rt, know.can_play(rank));
        know.saw_play(rank);
    }
}

// The letters that the opponent can show, from the ace to the king, and then the go.
fn shown(rt: &impl Abort, know: &Know, letters: &str) {
    let mut letters = letters.bytes();
    for number in 1..14u8 {
        let wanted = letters.next() != Some(b'.');
        same_at(rt, number, know.can_play(rank(rt, number)), wanted);
    }
    same(rt, know.can_go(), letters.next() == Some(b'g'));
    ensure(rt, letters.next().is_none());
}

// Takes turns, each of which may come next, and checks what is known between them.
fn follow(rt: &impl Abort, know: &mut Know, lines: &str) {
    for line in lines.split("; ") {
        let (word, text) = parts(rt, line, " ");
        match word {
            "own" => own_move(rt, know, text),
            "opp" => saw(rt, know, text),
            "count" => same(rt, know.round().count(), number(rt, text)),
            "least" => same(rt, know.least(), number(rt, text)),
            "shown" => shown(rt, know, text),
            "deal" => same(rt, some_deal(know), dealt(rt, text)),
            _ => panic!(rt; "nothing to check"),
        }
    }
}

#[test]
fn bounds_the_cards_held_after_a_go(rt: HostRuntime) {
    let mut know = start(&rt, ONE_GO);
    let turns = "own TC; opp 10; own 9C; count 29; least 1; shown A2...........g";
    follow(&rt, &mut know, turns);
    let before = know.copy();
    ensure(&rt, know == before);
    follow(&rt, &mut know, "opp go");
    ensure(&rt, know != before);
    let turns = "least 3; own 2C; count 0; shown ..3456789TJQK.; deal 3C 3D 3S TD, AC AD";
    follow(&rt, &mut know, turns);
    ensure(&rt, know.turn() == Turn::Opponent);
    same(&rt, know.ranks_seen().of(rank(&rt, 10)), 1);
    same(&rt, know.own_left(), set(&rt, "8C"));
}

#[test]
fn tells_little_by_a_go_at_thirty(rt: HostRuntime) {
    let mut know = start(&rt, TWO_GOS);
    let turns = "own TC; opp 12; own KC; shown A............g; opp go; own go; least 2; \
        shown .23456789TJQK.; deal 2C 2D 2S QC, AC AD; opp 9; own 4C; opp 7; own 3C; \
        shown .2345678.....g; deal 2C 7C 9C QC, AC AD; opp 8; \
        shown ..............; deal 7C 8C 9C QC, AC AD";
    follow(&rt, &mut know, turns);
    ensure(&rt, know.turn() == Turn::Over);
}

#[test]
fn leaves_out_known_cards(rt: HostRuntime) {
    let mut know = start(&rt, FOUR_TWOS);
    let turns = "shown ..............; deal AC AD AH AS, 3C 3D; own 2C; shown A.3456789TJQK.";
    follow(&rt, &mut know, turns);
    let mut know = start(&rt, NEARLY_LOST);
    follow(&rt, &mut know, "own AC; opp 1; deal AD AH AS 2S, 3C 3D");
    ensure(&rt, know.turn() == Turn::Over);
}

#[test]
fn starts_after_turns_that_are_played(rt: HostRuntime) {
    let mut know = start(&rt, AFTER_TWO);
    ensure(&rt, know.turn() == Turn::Owner);
    same(&rt, know.fixed(), set(&rt, "TD"));
    same(&rt, know.own_left(), set(&rt, "9C 2C 8C"));
    same(&rt, know.ranks_seen().of(rank(&rt, 10)), 1);
    follow(&rt, &mut know, "count 20; deal AC AD AH TD, AS 2D");
    let mut know = start(&rt, AFTER_A_GO);
    let turns = "least 3; own 2C; shown ..3456789TJQK.; deal 3C 3D 3S TS, AC AD; opp 10; \
        deal 3C 3D TD TS, AC AD";
    follow(&rt, &mut know, turns);
    same(&rt, start(&rt, ONE_GO).fixed().lowest(), None);
}

#[test]
fn has_two_halves(rt: HostRuntime) {
    let know = start(&rt, AFTER_A_GO);
    let other = start(&rt, AFTER_TWO);
    ensure(&rt, know.sight().round == *know.round());
    ensure(&rt, know.sight().fixed.has(card(&rt, "TS")));
    ensure(&rt, know.sight() != other.sight());
    same(&rt, know.shown().ranks_seen, other.shown().ranks_seen);
    same(&rt, know.shown().opponent_left, 3);
    same(&rt, know.shown().least, 3);
    same(&rt, other.shown().least, 1);
    let (sight, shown) = start(&rt, AFTER_A_GO).halves();
    ensure(&rt, sight == *know.sight());
    ensure(&rt, shown == *know.shown());
}
