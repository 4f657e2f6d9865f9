use crate::asserts::{ensure, same};
use crate::reading::{counted, rank};
use crib_cards::*;

#[test]
fn counts_each_rank(rt: HostRuntime) {
    let counts = counted(&rt, "AC KC AD");
    same(&rt, counts.of(rank(&rt, 1)), 2);
    same(&rt, counts.of(rank(&rt, 13)), 1);
    let wanted = &[2, 0, 0, 0, 0, 0, 0, 0, 0, 0, 0, 0, 1];
    same(&rt, counts.as_slice(), wanted);
    ensure(&rt, counts != RankCounts::new());
}
