//! How many deals beat each plan at least.
use crate::same;
use crate::sections::{plan, problem};
use crib_beaten::tally_of;
use crib_bound::{bound_in_cases, bound_of, unit_of};
use crib_problem::Problem;
use crib_search::{Advice, try_plan};
use refusing_alloc::Refusing;
use std::alloc::Allocator;
use std::process::Abort;

// The four twos of a pone. The opponent has played an eight and a nine. The macro takes the scores and the turns.
macro_rules! twos {
    ($score:literal, $turns:literal) => {
        concat!(
            "problem 2\ndealer opponent\nscore ", $score, "\nstarter KD\nhold 2C 2D 2H 2S\nthrow 4C 6D\ngoal win\n",
            "played ", $turns
        )
    };
}

/// What the search advises for a problem for which no plan is sure.
fn advice<A: Allocator + Copy>(rt: &impl Abort, alloc: A, problem: &Problem) -> Advice<A> {
    let mut advice = None;
    assert!(rt; try_plan(alloc, problem, problem, None, &mut advice).is_ok());
    advice.expect(rt, "no plan is sure")
}

/// Asserts that this is so many times the deals that beat each plan at least, with one part and with twelve of each.
fn is_bound(rt: &(impl Abort + AllocGlobal), of: &str, deals: u64) {
    let problem = problem(rt, of);
    let advice = advice(rt, rt.alloc(), &problem);
    let mut guide = advice.guide(rt.alloc()).expect(rt, "memory");
    for parts in [1u32, 12, 4_096] {
        let bound = bound_of(rt.alloc(), &problem, parts, &mut guide).expect(rt, "memory");
        same(rt, bound, deals.saturating_mul(parts as u64));
        let cases = bound_in_cases(rt.alloc(), &problem, parts, &mut guide).expect(rt, "memory");
        same(rt, cases, bound);
    }
}

/// Another program that lists all deals found the number.
#[test]
fn all_open_deals_beat_each_plan_if_none_reaches_the_goal(rt: HostRuntime) {
    is_bound(
        &rt,
        twos!("0 0", "4\nown 2C\nopp 8S\nown 2D\nopp 9S\n"),
        740_460,
    );
}

/// Asserts that the bound meets the number of deals that beat the plan of the last two, and that it is this one.
fn meets(rt: &(impl Abort + AllocGlobal), of: &str, deals: u32) {
    let problem = problem(rt, of);
    let plan = plan(rt, "plan 1\nnodes 1\n0 play 2S end\n");
    let tally = tally_of(rt.alloc(), &problem, &plan).expect(rt, "memory");
    same(rt, tally.beaten, deals);
    is_bound(rt, of, deals as u64);
}

/// The pone counts twelve in the show. At 29 only an ace fits, and then they get no point for a go. At 30 they say go
/// themselves, and get the last point only if the opponent has an ace. Each card goes with 820 throws.
#[test]
fn meets_the_number_of_deals_if_the_opponent_has_one_card(rt: HostRuntime) {
    meets(
        &rt,
        twos!(
            "108 100",
            "6\nown 2C\nopp 8S\nown 2D\nopp 9S\nown 2H\nopp 4D\n"
        ),
        4 * 820,
    );
    meets(
        &rt,
        twos!(
            "108 100",
            "6\nown 2C\nopp 8S\nown 2D\nopp 9S\nown 2H\nopp 7D\n"
        ),
        38 * 820,
    );
    meets(
        &rt,
        twos!(
            "107 100",
            "6\nown 2C\nopp 8S\nown 2D\nopp 9S\nown 2H\nopp 4D\n"
        ),
        42 * 820,
    );
}

// A dealer who counts the crib, after four turns.
const DEALER: &str =
    "problem 2\ndealer owner\nscore 114 106\nstarter 4C\nhold 6S 7D 8C 8S\nthrow AC QS\ngoal win\n\
    played 4\nopp 9D\nown 6S\nopp 2C\nown 7D\n";

/// Another program found the least numbers of deals that beat any plan. The show decides which deals they are.
#[test]
fn meets_the_least_number_for_a_dealer(rt: HostRuntime) {
    is_bound(&rt, DEALER, 7380);
    is_bound(
        &rt,
        "problem 2\ndealer owner\nscore 111 102\nstarter 3H\nhold 2S 5S TH QS\nthrow 6H 6C\ngoal win\n\
         played 4\nopp 4S\nown TH\nopp 9C\nown 2S\n",
        2460,
    );
}

// Four twos, which count twelve in the show. The macro takes the dealer, the scores and the goal.
macro_rules! for_goal {
    ($dealer:literal, $score:literal, $goal:literal) => {
        concat!(
            "problem 2\ndealer ", $dealer, "\nscore ", $score, "\nstarter KD\nhold 2C 2D 2H 2S\nthrow 4C 6D\ngoal ",
            $goal, "\nplayed 0\n"
        )
    };
}

/// A hold goes with 820 throws. They decide if the opponent's crib may take the opponent out, or if the owner may need
/// points of their own crib beside the one that they always score in the play. In the last row the hand counts six, and
/// with the starter their throw makes two.
#[test]
fn the_unit_is_the_throws_of_a_hold_if_the_crib_does_not_decide(rt: HostRuntime) {
    let units = [
        (for_goal!("opponent", "0 0", "win"), 820),
        (for_goal!("opponent", "100 100", "holes 13"), 820),
        (for_goal!("opponent", "100 100", "stop"), 1),
        (for_goal!("owner", "100 100", "stop"), 820),
        (for_goal!("owner", "107 0", "win"), 1),
        (for_goal!("owner", "108 0", "win"), 820),
        (for_goal!("owner", "0 0", "holes 14"), 1),
        (for_goal!("owner", "0 0", "holes 13"), 820),
        (
            "problem 2\ndealer owner\nscore 112 110\nstarter 8S\nhold AD 3D 4H 7D\nthrow 5C KH\ngoal win\nplayed 0\n",
            820,
        ),
    ];
    for (of, unit) in &units {
        same(&rt, unit_of(&problem(&rt, of)), *unit);
    }
}

/// Whether the bound of a problem is counted if the allocations after the first `served` ones fail.
fn is_served(rt: &(impl Abort + AllocGlobal), of: &str, served: u64) -> bool {
    let problem = problem(rt, of);
    let plenty = Refusing::after(rt.alloc(), u64::MAX);
    let heap = Refusing::after(rt.alloc(), served);
    let other = Refusing::after(rt.alloc(), served);
    let advice = advice(rt, &plenty, &problem);
    let mut guide = advice.guide(&plenty).expect(rt, "memory");
    let is_served = bound_of(&heap, &problem, 1, &mut guide).is_ok();
    let too = bound_in_cases(&other, &problem, 1, &mut guide).is_ok();
    same(rt, too, is_served);
    is_served
}

/// It allocates the room for its lists, and before it the tables, which a pone with this goal doesn't need.
#[test]
fn fails_if_an_allocation_fails(rt: HostRuntime) {
    let pone = twos!("0 0", "4\nown 2C\nopp 8S\nown 2D\nopp 9S\n");
    assert!(rt; !is_served(&rt, pone, 0));
    assert!(rt; is_served(&rt, pone, 1));
    for served in 0..5u64 {
        assert!(rt; !is_served(&rt, DEALER, served));
    }
}

/// A guide asks for room for its notes.
#[test]
fn a_guide_fails_if_an_allocation_fails(rt: HostRuntime) {
    let problem = problem(&rt, DEALER);
    let plenty = Refusing::after(rt.alloc(), u64::MAX);
    let heap = Refusing::after(rt.alloc(), 0);
    let advice = advice(&rt, &plenty, &problem);
    assert!(rt; advice.guide(&heap).is_err());
    assert!(rt; advice.guide(&plenty).is_ok());
}
