use crate::asserts::{ensure, same_at};
use crate::reading::{number, parts, rank};
use crib_play::*;
use std::process::Abort;

// The ranks of a pile, and the points of its last card.
const PILES: &str = "4 2 3: 3
4 2 3 5: 4
4 2 3 5 1: 7
3 2 3 4: 3
3 2 3: 0
5 5 5: 8
7 7 7 7: 12
8 7: 2
11 12 13 1: 2
: 0";

fn points_of(rt: &impl Abort, ranks: &str) -> u8 {
    let mut pile = Pile::new();
    for word in ranks.split_whitespace() {
        ensure(rt, pile.len() < 8);
        pile.push(rank(rt, number(rt, word)));
    }
    play_points(&pile)
}

#[test]
fn counts_the_last_card(rt: HostRuntime) {
    for row in PILES.lines() {
        let (ranks, points) = parts(&rt, row, ": ");
        same_at(&rt, row, points_of(&rt, ranks), number(&rt, points));
    }
}
