use crate::asserts::ensure;
use crate::reading::{card, set};
use crib_cards::CardSet;
use crib_play::*;

#[test]
fn fits_up_to_31(rt: HostRuntime) {
    let six = card(&rt, "6H");
    let king = card(&rt, "KC");
    ensure(&rt, fits(king, 21));
    ensure(&rt, !fits(king, 22));
    ensure(&rt, fits(six, 25));
    ensure(&rt, !fits(six, 26));
    ensure(&rt, !fits(six, 255));
    let both = set(&rt, "KC 6H");
    ensure(&rt, any_fits(both, 0));
    ensure(&rt, any_fits(both, 25));
    ensure(&rt, !any_fits(both, 26));
    ensure(&rt, !any_fits(CardSet::new(), 0));
}
