use crate::asserts::{ensure, same};
use crate::reading::rank;
use crib_cards::*;
use std::process::Abort;

fn is_ten(rt: &impl Abort, suit: Suit, number: u8) {
    let ten = rank(rt, 10);
    let card = Card::of(ten, suit);
    same(rt, card.number(), number);
    same(rt, card.rank(), ten);
    same(rt, card.suit(), suit);
}

#[test]
fn numbers_the_pack_by_rank_and_then_suit(rt: HostRuntime) {
    is_ten(&rt, Suit::Clubs, 36);
    is_ten(&rt, Suit::Diamonds, 37);
    is_ten(&rt, Suit::Hearts, 38);
    is_ten(&rt, Suit::Spades, 39);
    ensure(&rt, Suit::Clubs < Suit::Diamonds);
    ensure(&rt, Suit::Hearts < Suit::Spades);
}
