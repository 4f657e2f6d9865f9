//! What counts in hands and in cribs.
use crate::{append, same};
use crib_cards::{Card, card_text, read_card};
use crib_game_sheet::{Combinations, crib_combinations, hand_combinations};
use std::fmt::Write;
use std::process::Abort;
use std::str;
use std::str::Split;

const BEST_HAND: &str = "\
Fifteen 2: 5C 5D 5H
Fifteen 2: 5C 5D 5S
Fifteen 2: 5C 5H 5S
Fifteen 2: 5C JS
Fifteen 2: 5D 5H 5S
Fifteen 2: 5D JS
Fifteen 2: 5H JS
Fifteen 2: JS 5S
Pair 2: 5C 5D
Pair 2: 5C 5H
Pair 2: 5C 5S
Pair 2: 5D 5H
Pair 2: 5D 5S
Pair 2: 5H 5S
Jack 1: JS
";

const DOUBLE_RUN: &str = "\
Fifteen 2: 5H KC
Fifteen 2: 5S KC
Pair 2: 5H 5S
Run 3: 3C 4D 5H
Run 3: 3C 4D 5S
";

const FLUSH_OF_FOUR: &str = "Flush 4: 2C 4C 6C 8C\n";

const FLUSH_OF_FIVE: &str = "Flush 5: 2C 4C 6C 8C TC\n";

fn next_card(rt: &impl Abort, words: &mut Split<'_, char>) -> Card {
    read_card(words.next().unwrap_or("").as_bytes()).expect(rt, "a card")
}

// Four cards and the starter, which is the last of the five in the text.
fn shown(rt: &impl Abort, text: &str) -> ([Card; 4], Card) {
    let words = &mut text.split(' ');
    let cards = [
        next_card(rt, words),
        next_card(rt, words),
        next_card(rt, words),
        next_card(rt, words),
    ];
    (cards, next_card(rt, words))
}

// What is found is what is expected, in the same order: a line has a kind, its points and its cards.
fn has(rt: &(impl Abort + AllocGlobal), found: &Combinations, expected: &str) {
    let mut text = String::new(rt.alloc());
    for made in found.iter() {
        write!(text, "{:?} {}:", made.kind, made.points()).expect(rt, "memory");
        for card in made.cards.iter() {
            let word = card_text(*card);
            append(rt, &mut text, " ");
            append(rt, &mut text, str::from_utf8(&word).expect(rt, "a card"));
        }
        append(rt, &mut text, "\n");
    }
    same(rt, text.as_str(), expected);
}

fn hand_has(rt: &(impl Abort + AllocGlobal), cards: &str, expected: &str) {
    let (hand, starter) = shown(rt, cards);
    has(rt, &hand_combinations(&hand, starter), expected);
}

fn crib_has(rt: &(impl Abort + AllocGlobal), cards: &str, expected: &str) {
    let (crib, starter) = shown(rt, cards);
    has(rt, &crib_combinations(&crib, starter), expected);
}

#[test]
fn lists_what_counts(rt: HostRuntime) {
    hand_has(&rt, "5C 5D 5H JS 5S", BEST_HAND);
    crib_has(&rt, "3C 4D 5H 5S KC", DOUBLE_RUN);
}

// A flush of four counts in a hand, and not in a crib.
#[test]
fn lists_flushes(rt: HostRuntime) {
    hand_has(&rt, "2C 4C 6C 8C TD", FLUSH_OF_FOUR);
    crib_has(&rt, "2C 4C 6C 8C TD", "");
    hand_has(&rt, "2C 4C 6C 8C TC", FLUSH_OF_FIVE);
    crib_has(&rt, "2C 4C 6C 8C TC", FLUSH_OF_FIVE);
}
