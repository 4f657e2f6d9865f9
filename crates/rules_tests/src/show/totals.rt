//! The greatest sum of the opponent's hand and the crib.
use crate::asserts::{ensure, same};
use crate::reading::{card, four};
use crate::show::{ACES, twos_against};
use crib_show::crib_points;
use std::process::Abort;

// checks the points of aces with a jack against the crib 5C 5D and the starter 5H
fn hand_counts(rt: &impl Abort, fixed: &str, hand: u8) {
    let worst = twos_against(rt, "5H", "5C 5D", "AC AC AC JC", fixed);
    ensure(rt, worst.has_deal());
    same(rt, worst.worst_hand(), hand);
    same(rt, worst.most_total(), 37);
}

// checks the points of that hand and of the crib with this jack
fn jack_counts(rt: &impl Abort, jack: &str, hand: u8, crib: u8) {
    let mut cards = four(rt, "5C 5D 5S JC");
    cards[3] = card(rt, jack);
    same(rt, crib_points(&cards, card(rt, "5H")), crib);
    hand_counts(rt, jack, hand);
}

// Separately, the greatest hand has 9 points and the greatest crib 29. Both need the jack of hearts.
#[test]
fn counts_the_most_that_hand_and_crib_of_one_deal_have(rt: HostRuntime) {
    hand_counts(&rt, "", 9);
    jack_counts(&rt, "JC", 8, 28);
    jack_counts(&rt, "JD", 8, 28);
    jack_counts(&rt, "JH", 9, 29);
    jack_counts(&rt, "JS", 8, 28);
}

#[test]
fn counts_no_flush_with_a_pair_in_the_crib(rt: HostRuntime) {
    // the crib 4D 6D and two fives has 16 points; a flush of diamonds with the starter has 13 at most
    let worst = twos_against(&rt, "KD", "4D 6D", ACES, "");
    ensure(&rt, worst.has_deal());
    same(&rt, worst.most_total(), 28);
}
