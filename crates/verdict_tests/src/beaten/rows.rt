//! Rows that say which hands beat a plan.
use super::FIVES;
use crate::same;
use crate::sections::{plan, problem};
use crib_beaten::{Term, rows_of, tally_of};
use example_texts::plans::TWOS;
use std::process::Abort;

const TWO_SECOND: &str =
    "problem 1\ndealer opponent\nscore 109 110\nstarter 5S\nhold 2S 8D 8H 8S\nthrow KS QS\ngoal win\n";

const EIGHT_TWO: &str = "plan 1\nnodes 4\n0 play 8D 1\n1 play 2S 2\n2 play 8H 3\n3 play 8S end\n";

// The term whose slots are for these ranks. The ranks of a slot are one word.
fn term(slots: &str) -> Term {
    let mut term = [[false; 13]; 4];
    for (slot, ranks) in term.iter_mut().zip(slots.split(' ')) {
        for (is_there, rank) in slot.iter_mut().zip("A23456789TJQK".chars()) {
            *is_there = ranks.contains(rank);
        }
    }
    term
}

// Asserts that the rows have these terms and count these deals, and that there are no others.
fn has_rows(rt: &(impl Abort + AllocGlobal), of: &str, by: &str, wanted: &[(&str, u32)]) {
    let problem = problem(rt, of);
    let tally = tally_of(rt.alloc(), &problem, &plan(rt, by)).expect(rt, "memory");
    let rows = rows_of(&problem, &tally);
    same(rt, rows.rows.len(), wanted.len());
    for (row, (slots, deals)) in rows.rows.iter().zip(wanted) {
        same(rt, row.term, term(slots));
        same(rt, row.deals, *deals);
    }
    same(rt, rows.others, 0);
}

#[test]
fn four_fives_are_a_row(rt: HostRuntime) {
    has_rows(&rt, FIVES, TWOS, &[("5 5 5 5", 820)]);
}

/// Three twos, four sevens, an eight and four nines are hidden: 72 holds with two twos, and 48 with 2 3 7 8.
#[test]
fn ranks_that_may_stand_for_each_other_are_in_one_row(rt: HostRuntime) {
    let wanted = [("2 2 78 89", 59_040), ("2 3 7 8", 39_360)];
    has_rows(&rt, TWO_SECOND, EIGHT_TWO, &wanted);
}
