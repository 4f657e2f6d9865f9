//! Which deals beat a plan.
use crate::check::rows::{BEGUN_ROWS, LOST, Row, SHORT, STOPPING, STUCK, SURE};
use crate::same;
use crate::sections::{game, plan, problem};
use crib_beaten::Plays;
use crib_cards::{Card, Dealt, Rank};
use crib_know::{Know, some_deal};
use crib_plan::Plan;
use crib_problem::Problem;
use crib_show::{CHOICES, count_ranks, crib_points, hand_points};
use example_texts::problems::BEGUN;
use std::alloc::Global;
use std::process::Abort;

/// Whether a deal meets what the games that follow the plan demand of its ranks.
fn meets(of: &Problem, by: &Plan<Global>, dealt: &Dealt) -> bool {
    let [first, second, third, fourth] = dealt.hold;
    let ranks = [first.rank(), second.rank(), third.rank(), fourth.rank()];
    let choices = [count_ranks(&ranks); CHOICES];
    let [demand, ..] = Plays::new(of, by, &choices).demands();
    let [own, other] = of.thrown();
    let [fifth, sixth] = dealt.throw;
    let crib: [Card; 4] = [own, other, fifth, sixth];
    demand.is_met(
        hand_points(&dealt.hold, of.starter()),
        crib_points(&crib, of.starter()),
    )
}

/// Checks that the deal of a failing game misses its demand, and that the first deal meets that of a sure plan.
fn comes_out(rt: &(impl Abort + AllocGlobal), row: Row) {
    let (of, by, fails) = row;
    let problem = problem(rt, of);
    let plan = plan(rt, by);
    let dealt = match fails {
        Some((_, named)) => game(rt, named).opp,
        None => some_deal(&Know::start(&problem)),
    };
    same(rt, meets(&problem, &plan, &dealt), fails.is_none());
}

/// Checks each row.
fn come_out(rt: &(impl Abort + AllocGlobal), rows: &[Row]) {
    for row in rows {
        comes_out(rt, *row);
    }
}

#[test]
fn deals_of_failing_games_miss_the_demand(rt: HostRuntime) {
    come_out(&rt, &SHORT);
    come_out(&rt, &LOST);
    come_out(&rt, &STUCK);
}

#[test]
fn deals_meet_the_demand_of_a_sure_plan(rt: HostRuntime) {
    come_out(&rt, &SURE);
    come_out(&rt, &BEGUN_ROWS);
    come_out(&rt, &STOPPING);
}

#[test]
fn holds_that_the_opening_rules_out_do_not_pass(rt: HostRuntime) {
    let five = Rank::new(5).expect(&rt, "a rank");
    let start = Know::start(&problem(&rt, BEGUN));
    same(&rt, start.passes(&count_ranks(&[five; 4])), false);
}
