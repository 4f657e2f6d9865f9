use crate::asserts::same;
use crate::reading::rank;
use crib_cards::*;
use std::process::Abort;

fn has_value(rt: &impl Abort, number: u8, value: u8) {
    let rank = rank(rt, number);
    same(rt, rank.number(), number);
    same(rt, rank.value(), value);
}

#[test]
fn numbers_ace_to_king(rt: HostRuntime) {
    same(&rt, Rank::new(0), None);
    same(&rt, Rank::new(14), None);
    has_value(&rt, 1, 1);
    has_value(&rt, 9, 9);
    has_value(&rt, 10, 10);
    has_value(&rt, 13, 10);
}
