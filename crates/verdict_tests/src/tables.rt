//! At which scores turns are sure, or a plan is, and how many holes are sure.
use crate::same;
use crate::sections::problem;
use crib_cards::Move;
use crib_play::Turn;
use crib_tables::{Holes, Mark, ScoreTable, TurnHoles, holes_of, scores_of};
use refusing_alloc::Refusing;
use std::alloc::Allocator;
use std::process::Abort;

/// Three holes are left to the owner. The opponent has pegged three in the opening, and only AC fits.
const LATE: &str =
    "problem 2\ndealer owner\nscore 118 116\nstarter 9C\nhold AC 7S 9D TD\nthrow JH KD\ngoal win\nplayed 3\n\
     opp 9H\nown TD\nopp 8S\n";

/// The same, and AC was played.
const LATER: &str =
    "problem 2\ndealer owner\nscore 118 116\nstarter 9C\nhold AC 7S 9D TD\nthrow JH KD\ngoal win\nplayed 4\n\
     opp 9H\nown TD\nopp 8S\nown AC\n";

/// The table of a problem.
fn table<A: Allocator + Copy>(
    rt: &(impl Abort + AllocGlobal),
    alloc: A,
    of: &str,
) -> Option<ScoreTable> {
    match scores_of(alloc, &problem(rt, of)) {
        Ok(table) => Some(table),
        Err(_) => None,
    }
}

/// Asserts the first marks of the row of 118, from the opponent's 100 on, and of the last column, which is 120.
fn marks(rt: &(impl Abort + AllocGlobal), of: &str, turn: Turn, wanted: [Mark; 3]) {
    let table = table(rt, rt.alloc(), of).expect(rt, "memory");
    assert!(rt; table.turn == turn);
    same(rt, table.columns.as_slice().first().copied(), Some(100));
    let row = table.rows.as_slice().get(18).expect(rt, "a row");
    same(rt, row.owner, 118);
    let marks = row.marks.as_slice();
    let [first, second, last] = wanted;
    same(rt, marks.first().copied(), Some(first));
    same(rt, marks.get(1).copied(), Some(second));
    same(rt, marks.get(20).copied(), Some(last));
}

// The opponent's hand may be worth enough from 101 on, and at 120 they are at 121 after the opening.
#[test]
fn one_card_is_sure_at_100(rt: HostRuntime) {
    let wanted = [Mark::Turns(1), Mark::Turns(0), Mark::Impossible];
    marks(&rt, LATE, Turn::Owner, wanted);
    let wanted = [Mark::Plan(true), Mark::Plan(false), Mark::Impossible];
    marks(&rt, LATER, Turn::Opponent, wanted);
}

// A plan that is found needs memory for its nodes.
#[test]
fn a_table_without_memory_is_none(rt: HostRuntime) {
    let heap = Refusing::after(rt.alloc(), 0);
    let found = table(&rt, &heap, LATE);
    assert!(rt; heap.has_refused());
    drop(found);
}

/// The owner has three eights, and twelve holes are left to 121.
const EIGHTS: &str =
    "problem 1\ndealer opponent\nscore 109 110\nstarter 5S\nhold 2S 8D 8H 8S\nthrow KS QS\ngoal win\n";

/// The opponent is nine holes from 121, and has led 9H.
const PAIR: &str =
    "problem 2\ndealer owner\nscore 100 112\nstarter 9C\nhold AC 7S 9D TD\nthrow JH KD\ngoal win\nplayed 1\nopp 9H\n";

/// The same. The owner has paired it, and the count is 26.
const PAIRED: &str =
    "problem 2\ndealer owner\nscore 100 112\nstarter 9C\nhold AC 7S 9D TD\nthrow JH KD\ngoal win\nplayed 3\n\
     opp 9H\nown 9D\nopp 8S\n";

/// How many holes are sure for a problem.
fn holes<A: Allocator + Copy>(
    rt: &(impl Abort + AllocGlobal),
    alloc: A,
    of: &str,
) -> Option<Holes> {
    match holes_of(alloc, &problem(rt, of)) {
        Ok(holes) => Some(holes),
        Err(_) => None,
    }
}

/// The number of the card of a turn, or 52 for a go, and how many holes are sure with it.
fn row_of(turn: &TurnHoles) -> (u8, u8) {
    match turn.act.what {
        Move::Card(card) => (card.number(), turn.holes),
        Move::Go => (52, turn.holes),
    }
}

/// Asserts the owner's score after the opening, how many holes are sure, and how many with each turn.
fn sure_holes(
    rt: &(impl Abort + AllocGlobal),
    of: &str,
    owner: u8,
    wanted: u8,
    turns: &[(u8, u8)],
) {
    let found = holes(rt, rt.alloc(), of).expect(rt, "memory");
    same(rt, found.pegs.owner, owner);
    same(rt, found.holes, wanted);
    same(rt, found.turns.len(), turns.len());
    for (turn, row) in found.turns.as_slice().iter().zip(turns.iter()) {
        same(rt, row_of(turn), *row);
    }
}

// After 2S the opponent may be at 121 first. With an eight all holes that are left are sure.
#[test]
fn twelve_holes_are_sure_with_an_eight(rt: HostRuntime) {
    let turns = [(7, 0), (29, 12), (30, 12), (31, 12)];
    sure_holes(&rt, EIGHTS, 109, 12, &turns);
}

// The opponent may peg nine holes. 9D pegs two at once, and after AC one hole is sure.
#[test]
fn a_pair_is_sure_at_once(rt: HostRuntime) {
    let turns = [(0, 1), (27, 0), (33, 2), (37, 0)];
    sure_holes(&rt, PAIR, 100, 2, &turns);
}

// The two holes of the pair are pegged, and nothing more is sure.
#[test]
fn what_is_pegged_counts(rt: HostRuntime) {
    sure_holes(&rt, PAIRED, 102, 2, &[(0, 2)]);
}

// On the opponent's turn there are no turns of the owner.
#[test]
fn no_hole_is_sure_before_the_opponent_is_out(rt: HostRuntime) {
    sure_holes(&rt, LATE, 118, 0, &[(0, 0)]);
    sure_holes(&rt, LATER, 118, 0, &[]);
}

#[test]
fn holes_without_memory_are_none(rt: HostRuntime) {
    let heap = Refusing::after(rt.alloc(), 0);
    let found = holes(&rt, &heap, LATE);
    assert!(rt; heap.has_refused());
    drop(found);
}
