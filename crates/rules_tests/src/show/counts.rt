//! The points of all 12,994,800 choices of four cards and a starter.
//!
//! `rt test` counts them in a second or two. `rt try --test` doesn't optimise, and gives up on them.
use crate::asserts::same_at;
use crib_cards::{Card, CardSet};
use crib_show::{crib_points, hand_points};
use std::process::Abort;

// How many hands have 0, 1, 2 .. 29 points. Books print this table: four hands have 29, and none has 19, 25, 26 or 27.
const HANDS: [u32; 30] = [
    1_009_008, 99_792, 2_813_796, 505_008, 2_855_676, 697_508, 1_800_268, 751_324, 1_137_236,
    361_224, 388_740, 51_680, 317_340, 19_656, 90_100, 9_168, 58_248, 11_196, 2_708, 0, 8_068,
    2_496, 444, 356, 3_680, 0, 0, 0, 76, 4,
];

// How many cribs have each number of points. A crib has a flush only if the starter is of its suit.
const CRIBS: [u32; 30] = [
    1_022_208, 99_792, 2_839_800, 508_908, 2_868_960, 703_496, 1_787_176, 755_320, 1_118_336,
    358_368, 378_240, 43_880, 310_956, 16_548, 88_132, 9_072, 57_288, 11_196, 2_264, 0, 7_828,
    2_472, 444, 356, 3_680, 0, 0, 0, 76, 4,
];

// one entry for each number of points that the contracts of hand_points and crib_points allow
type Counts = [u32; 103];

fn pack(rt: &impl Abort) -> [Card; 52] {
    let mut cards = [Card::default(); 52];
    let mut left = CardSet::full();
    for place in &mut cards {
        *place = left.lowest().expect(rt, "a card");
        left = left.without(*place);
    }
    cards
}

// four cards with each starter
fn count_starters(cards: &[Card; 52], four: &[Card; 4], hands: &mut Counts, cribs: &mut Counts) {
    for starter in cards {
        if !four.contains(starter) {
            let hand = hand_points(four, *starter) as usize;
            let crib = crib_points(four, *starter) as usize;
            hands[hand] = hands[hand].saturating_add(1);
            cribs[crib] = cribs[crib].saturating_add(1);
        }
    }
}

#[test]
fn counts_every_hand_and_crib(rt: HostRuntime) {
    let cards = pack(&rt);
    let mut hands = [0; 103];
    let mut cribs = [0; 103];
    for first in 0..52usize {
        for second in first + 1..52 {
            for third in second + 1..52 {
                for fourth in third + 1..52 {
                    let four = [cards[first], cards[second], cards[third], cards[fourth]];
                    count_starters(&cards, &four, &mut hands, &mut cribs);
                }
            }
        }
    }
    for points in 0..103usize {
        let wanted = if points < 30 {
            (HANDS[points], CRIBS[points])
        } else {
            (0, 0)
        };
        same_at(&rt, points, (hands[points], cribs[points]), wanted);
    }
}
