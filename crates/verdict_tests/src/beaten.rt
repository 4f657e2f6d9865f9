//! How many deals beat a plan.
mod rows;

use crate::same;
use crate::sections::{plan, problem};
use crib_beaten::*;
use example_texts::plans::{NO_PLAN, TWOS};
use example_texts::problems::{BEGUN, TWELVE};
use refusing_alloc::Refusing;
use std::alloc::Global;
use std::process::Abort;

// The four twos after four turns. The macro takes the dealer, the scores, the starter, the goal and the turns.
macro_rules! after_four {
    ($dealer:literal, $score:literal, $starter:literal, $goal:literal, $turns:literal) => {
        concat!(
            "problem 2\ndealer ", $dealer, "\nscore ", $score, "\nstarter ", $starter,
            "\nhold 2C 2D 2H 2S\nthrow 4C 6D\ngoal ", $goal, "\nplayed 4\n", $turns
        )
    };
}

// The pone leads. The opponent has played an eight and a nine.
macro_rules! pone {
    ($score:literal, $goal:literal) => {
        after_four!("opponent", $score, "KD", $goal, "own 2C\nopp 8S\nown 2D\nopp 9S\n")
    };
}

// The opponent leads, and has played an eight and a nine.
macro_rules! dealer {
    ($score:literal, $goal:literal) => {
        after_four!("owner", $score, "KD", $goal, "opp 8S\nown 2C\nopp 9S\nown 2D\n")
    };
}

/// Plays the two twos that are left.
const LAST_TWOS: &str = "plan 1\nnodes 2\n0 play 2H 1\n1 play 2S end\n";

/// The opponent is 28 holes from 121, and the dealer's goal is to stop them.
pub(crate) const FIVES: &str =
    "problem 2\ndealer owner\nscore 0 93\nstarter KD\nhold 2C 2D 2H 2S\nthrow 4C 6D\ngoal stop\nplayed 0\n";

/// The starter is a five, and the opponent has played two fives and is 29 holes from 121 in the show.
const JACK: &str = after_four!(
    "owner",
    "0 90",
    "5S",
    "stop",
    "opp 5D\nown 2C\nopp 5C\nown 2D\n"
);

fn tally(rt: &(impl Abort + AllocGlobal), of: &str, by: &str) -> Tally<Global> {
    tally_of(rt.alloc(), &problem(rt, of), &plan(rt, by)).expect(rt, "memory")
}

/// Asserts how many deals are open, and how many of them beat the plan. Returns the number of rows.
fn counts(
    rt: &(impl Abort + AllocGlobal),
    of: &str,
    by: &str,
    open_deals: u32,
    beaten: u32,
) -> usize {
    let tally = tally(rt, of, by);
    same(rt, tally.open_deals, open_deals);
    same(rt, tally.beaten, beaten);
    tally.rows.len()
}

/// Of the 1,820 choices of ranks, 455 have a two, and four cards of a four, a six or a king are not hidden.
#[test]
fn every_deal_beats_a_plan_without_nodes(rt: HostRuntime) {
    let rows = counts(&rt, TWELVE, NO_PLAN, 122_175_900, 122_175_900);
    same(&rt, rows, 1_362);
}

#[test]
fn counts_the_deals_with_a_card_that_was_played(rt: HostRuntime) {
    let _rows = counts(&rt, BEGUN, NO_PLAN, 10_860_080, 10_860_080);
}

/// Asserts that the only row has these ranks and counts these deals, and that 820 deals beat the plan.
fn has_one_row(
    rt: &(impl Abort + AllocGlobal),
    of: &str,
    by: &str,
    ranks: [u8; 4],
    open_deals: u32,
) {
    let tally = tally(rt, of, by);
    same(rt, tally.rows.len(), 1);
    let row = tally.rows.first().expect(rt, "a row");
    let [first, second, third, fourth] = row.ranks.map(|rank| rank.number());
    same(rt, [first, second, third, fourth], ranks);
    same(rt, row.open_deals, open_deals);
    same(rt, row.beaten, 820);
    same(rt, tally.beaten, 820);
}

#[test]
fn only_four_fives_count_28_with_a_king(rt: HostRuntime) {
    has_one_row(&rt, FIVES, TWOS, [5, 5, 5, 5], 820);
}

#[test]
fn only_the_jack_of_the_starters_suit_counts_29(rt: HostRuntime) {
    has_one_row(&rt, JACK, LAST_TWOS, [5, 5, 5, 11], 3_280);
}

/// Asserts how many deals beat `LAST_TWOS`, and the number of rows.
fn beat_last_twos(rt: &(impl Abort + AllocGlobal), of: &str, beaten: u32, rows: usize) {
    same(rt, counts(rt, of, LAST_TWOS, 740_460, beaten), rows);
}

/// Another program that lists all deals found the numbers.
#[test]
fn counts_for_each_dealer_and_goal(rt: HostRuntime) {
    beat_last_twos(&rt, pone!("108 100", "win"), 256_660, 27);
    beat_last_twos(&rt, pone!("0 112", "holes 13"), 256_660, 27);
    beat_last_twos(&rt, pone!("0 105", "stop"), 72_953, 78);
    beat_last_twos(&rt, dealer!("105 110", "win"), 361_267, 77);
    beat_last_twos(&rt, dealer!("0 100", "holes 16"), 339_985, 77);
    beat_last_twos(&rt, dealer!("0 108", "stop"), 2_460, 3);
}

#[test]
fn fails_if_an_allocation_fails(rt: HostRuntime) {
    let problem = problem(&rt, JACK);
    let plan = plan(&rt, NO_PLAN);
    for served in 0..20 {
        let heap = Refusing::after(rt.alloc(), served);
        let tally = tally_of(&heap, &problem, &plan);
        same(&rt, heap.has_refused(), tally.is_err());
        if let Ok(tally) = &tally {
            assert!(rt; served > 1);
            same(&rt, tally.beaten, tally.open_deals);
            return;
        }
    }
    panic!(rt; "more than 20 allocations")
}
