//! Numbers, ranks and cards, read from the texts of the tests.
use crate::asserts::ensure;
use crib_cards::{Card, CardSet, Dealt, Rank, RankCounts, read_card};
use std::process::Abort;

// What is before the first of these marks, and what is after it.
pub(crate) fn parts<'a>(rt: &impl Abort, text: &'a str, mark: &str) -> (&'a str, &'a str) {
    text.split_once(mark).expect(rt, "a mark")
}

pub(crate) fn number(rt: &impl Abort, word: &str) -> u8 {
    word.parse::<u8>().expect(rt, "a number")
}

pub(crate) fn rank(rt: &impl Abort, number: u8) -> Rank {
    Rank::new(number).expect(rt, "a rank")
}

pub(crate) fn card(rt: &impl Abort, word: &str) -> Card {
    read_card(word.as_bytes()).expect(rt, "a card")
}

pub(crate) fn two(rt: &impl Abort, text: &str) -> [Card; 2] {
    let (first, second) = parts(rt, text, " ");
    [card(rt, first), card(rt, second)]
}

pub(crate) fn four(rt: &impl Abort, text: &str) -> [Card; 4] {
    let (first, others) = parts(rt, text, " ");
    let (second, others) = parts(rt, others, " ");
    let [third, fourth] = two(rt, others);
    [card(rt, first), card(rt, second), third, fourth]
}

// Reads the hold and the throw, with a comma between them.
pub(crate) fn dealt(rt: &impl Abort, text: &str) -> Dealt {
    let (hold, throw) = parts(rt, text, ", ");
    Dealt {
        hold: four(rt, hold),
        throw: two(rt, throw),
    }
}

// The set of any number of cards, also of none.
pub(crate) fn set(rt: &impl Abort, text: &str) -> CardSet {
    let mut cards = CardSet::new();
    for word in text.split_whitespace() {
        cards = cards.with(card(rt, word));
    }
    cards
}

// Counts the ranks of these cards, at most four of each.
pub(crate) fn counted(rt: &impl Abort, text: &str) -> RankCounts {
    let mut counts = RankCounts::new();
    for word in text.split(' ') {
        let rank = card(rt, word).rank();
        ensure(rt, counts.of(rank) < 4);
        counts.add(rank);
    }
    counts
}
