use crate::asserts::same;
use crib_cards::*;

#[test]
fn reads_the_pack_in_its_order(rt: HostRuntime) {
    for rank in 0..13u8 {
        for suit in 0..4u8 {
            let text = [b"A23456789TJQK"[rank as usize], b"CDHS"[suit as usize]];
            let card = read_card(&text).expect(&rt, "a card");
            same(&rt, card.number(), 4 * rank + suit);
            same(&rt, card.rank().number(), rank + 1);
            same(&rt, card_text(card), text);
        }
    }
}

#[test]
fn refuses_other_texts(rt: HostRuntime) {
    // the last text is empty
    for text in "1S as 10C A ".split(' ') {
        same(&rt, read_card(text.as_bytes()), None);
    }
}
