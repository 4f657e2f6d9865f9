use crate::asserts::{ensure, same};
use crate::reading::{card, rank, set};
use crib_cards::*;

#[test]
fn keeps_cards_in_pack_order(rt: HostRuntime) {
    let clubs = card(&rt, "2C");
    let spades = card(&rt, "2S");
    let three = set(&rt, "TC 2S 2C");
    same(&rt, three.count_rank(rank(&rt, 2)), 2);
    same(&rt, three.lowest(), Some(clubs));
    ensure(&rt, !three.without(spades).has(spades));
    same(&rt, CardSet::new().lowest(), None);
    same(&rt, CardSet::full().count_rank(rank(&rt, 10)), 4);
}

#[test]
fn takes_lists_of_cards(rt: HostRuntime) {
    let clubs = card(&rt, "2C");
    let spades = card(&rt, "2S");
    let hearts = card(&rt, "2H");
    let both = CardSet::new()
        .with(clubs)
        .with_all(&[spades, clubs, spades]);
    same(&rt, both, CardSet::new().with(spades).with(clubs));
    let left = both.without_all(&[clubs, hearts, clubs]);
    same(&rt, left, CardSet::new().with(spades));
    same(&rt, both.with_all(&[]), both);
    same(&rt, both.without_all(&[]), both);
}

#[test]
fn says_which_cards_are_new(rt: HostRuntime) {
    let hearts = card(&rt, "AH");
    let mut set = CardSet::new();
    ensure(&rt, set.insert(hearts));
    ensure(&rt, !set.insert(hearts));
    ensure(&rt, set.insert(card(&rt, "AS")));
}
