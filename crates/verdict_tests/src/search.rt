use crate::same;
use crate::sections::problem;
use crib_cards::{Act, Card, Move, Rank, Side, Suit};
use crib_plan::{Plan, write_plan};
use crib_problem::Problem;
use crib_search::*;
use example_texts::plans::{LOOKS, REST, TWOS};
use example_texts::problems::*;
use refusing_alloc::Refusing;
use std::alloc::Allocator;
use std::process::Abort;

/// Asserts that the plan has this text.
fn has_text<A: Allocator>(rt: &(impl Abort + AllocGlobal), plan: &Plan<A>, text: &str) {
    let written = write_plan(rt.alloc(), plan).expect(rt, "memory");
    same(rt, written.as_slice(), text.as_bytes());
}

/// Asserts that the plan that is found has this text.
fn finds(rt: &(impl Abort + AllocGlobal), of: &str, text: &str) {
    match &find(rt.alloc(), &problem(rt, of)) {
        Ok(Found::Plan(plan)) => has_text(rt, plan, text),
        _ => panic!(rt; "no plan is found"),
    }
}

fn finds_none(rt: &(impl Abort + AllocGlobal), of: &str) {
    assert!(rt; matches!(&find(rt.alloc(), &problem(rt, of)), Ok(Found::None)));
}

#[test]
fn the_owner_plays_his_hold_in_order(rt: HostRuntime) {
    finds(&rt, TWELVE, TWOS);
}

#[test]
fn the_plan_starts_after_the_turns_that_are_played(rt: HostRuntime) {
    finds(&rt, BEGUN, REST);
}

#[test]
fn the_opponent_is_stopped_where_he_can_be(rt: HostRuntime) {
    finds(&rt, STOP_FAR, TWOS);
    finds_none(&rt, STOP_SHOW);
}

#[test]
fn no_plan_is_sure(rt: HostRuntime) {
    finds_none(&rt, THIRTEEN);
}

#[test]
fn the_card_waits_for_the_letter(rt: HostRuntime) {
    finds(&rt, LAST_TWO, LOOKS);
}

#[test]
fn no_plan_is_sure_where_each_card_fails(rt: HostRuntime) {
    finds_none(&rt, LAST_TWO_BEHIND);
}

/// At the first lead. The opponent may lead a jack, and the jack of spades may count his nobs.
const SPADES_UP: &str =
    "problem 2\ndealer owner\nscore 117 98\nstarter 2S\nhold AD 9S KC 3S\nthrow 8S 7D\ngoal win\nplayed 0\n";

#[test]
fn one_plan_is_sure_after_each_rank_but_the_jack(rt: HostRuntime) {
    let before = problem(&rt, SPADES_UP);
    for number in 1..14u8 {
        let rank = Rank::new(number).expect(&rt, "a rank");
        let is = is_winnable_after(rt.alloc(), &before, rank).expect(&rt, "memory");
        same(&rt, is, number != 11);
    }
}

#[test]
fn a_plan_is_sure_after_each_jack(rt: HostRuntime) {
    let before = problem(&rt, SPADES_UP);
    let jack = Rank::new(11).expect(&rt, "a rank");
    for suit in [Suit::Clubs, Suit::Diamonds, Suit::Hearts, Suit::Spades] {
        let act = Act {
            side: Side::Opponent,
            what: Move::Card(Card::of(jack, suit)),
        };
        let after = before.after(act).expect(&rt, "a problem");
        assert!(rt; matches!(&find(rt.alloc(), &after), Ok(Found::Plan(_))));
    }
}

#[test]
fn a_plan_is_sure_after_a_rank_that_cannot_come(rt: HostRuntime) {
    let own_turn = problem(&rt, THIRTEEN);
    let ace = Rank::new(1).expect(&rt, "a rank");
    assert!(rt; is_winnable_after(rt.alloc(), &own_turn, ace).expect(&rt, "memory"));
}

/// Searches a plan within a limit, and asserts that it has this text if it is found. The allocation after the first
/// `served` ones fails. Returns the fault, if there is no plan, and whether there was such an allocation.
fn fault_without(
    rt: &(impl Abort + AllocGlobal),
    (of, text): (&str, &str),
    served: u64,
    limit: u32,
) -> (Option<SearchFault>, bool) {
    assert!(rt; limit <= 65_535);
    let heap = Refusing::after(rt.alloc(), served);
    let fault = match &find_within(&heap, &problem(rt, of), limit) {
        Ok(Found::Plan(plan)) => {
            has_text(rt, plan, text);
            None
        }
        Ok(Found::None) => panic!(rt; "no plan is found"),
        Err(fault) => Some(*fault),
    };
    (fault, heap.has_refused())
}

/// Fails each allocation in turn. The answer is `NoMemory`, or the plan if the allocation was one of the table.
fn refuses_each_growth(rt: &(impl Abort + AllocGlobal), of: &str, text: &str) {
    let mut told = false;
    let mut passed_over = false;
    for served in 0..200 {
        let (fault, refused) = fault_without(rt, (of, text), served, 4);
        match fault {
            None if refused => passed_over = true,
            None => {
                assert!(rt; told && passed_over);
                return;
            }
            Some(fault) => {
                same(rt, (fault.number(), refused), (11, true));
                told = true;
            }
        }
    }
    panic!(rt; "more growths than 200")
}

#[test]
fn a_refused_growth_is_told_or_passed_over(rt: HostRuntime) {
    refuses_each_growth(&rt, LAST_TWO, LOOKS);
}

#[test]
fn a_refused_growth_of_a_longer_search_is_told_or_passed_over(rt: HostRuntime) {
    refuses_each_growth(&rt, BEGUN, REST);
}

/// Searches the plan of four twos within a limit. The allocation after the first `served` ones fails.
fn twos_without(
    rt: &(impl Abort + AllocGlobal),
    served: u64,
    limit: u32,
) -> (Option<SearchFault>, bool) {
    fault_without(rt, (TWELVE, TWOS), served, limit)
}

/// No search makes so many allocations.
const NEVER: u64 = u64::MAX;

#[test]
fn four_nodes_are_within_four(rt: HostRuntime) {
    same(&rt, twos_without(&rt, NEVER, 4), (None, false));
    let too_large = (Some(SearchFault::TooLarge), false);
    same(&rt, twos_without(&rt, NEVER, 3), too_large);
}

/// Searches the four twos within a limit, and asserts that the fault, or none, is the one that is wanted, or is
/// `NoMemory` because the allocation after the first `served` ones failed. Returns whether there was none to fail.
fn is_served(
    rt: &(impl Abort + AllocGlobal),
    served: u64,
    limit: u32,
    wanted: Option<SearchFault>,
) -> bool {
    let (fault, refused) = twos_without(rt, served, limit);
    let is_right = fault == wanted || (refused && fault == Some(SearchFault::NoMemory));
    assert!(rt; is_right, "after {served} within {limit}");
    !refused
}

/// Fails every fourth allocation in turn, from one of the first four on, until none fails. The answer is `NoMemory`, or
/// the plan if the allocation was one of the table.
fn refuses_every_fourth_within(rt: &(impl Abort + AllocGlobal), first: u8, limit: u32) {
    for round in 0..100u64 {
        if is_served(rt, 4 * round + u64::from(first), limit, None) {
            return;
        }
    }
    panic!(rt; "more growths than 400")
}

/// Does so within the greatest limit and within the least.
fn refuses_every_fourth(rt: &(impl Abort + AllocGlobal), first: u8) {
    refuses_every_fourth_within(rt, first, 65_535);
    refuses_every_fourth_within(rt, first, 4);
}

#[test]
fn a_whole_play_without_its_growths_1_5_9_and_so_on(rt: HostRuntime) {
    refuses_every_fourth(&rt, 0);
}

#[test]
fn a_whole_play_without_its_growths_2_6_10_and_so_on(rt: HostRuntime) {
    refuses_every_fourth(&rt, 1);
}

#[test]
fn a_whole_play_without_its_growths_3_7_11_and_so_on(rt: HostRuntime) {
    refuses_every_fourth(&rt, 2);
}

#[test]
fn a_whole_play_without_its_growths_4_8_12_and_so_on(rt: HostRuntime) {
    refuses_every_fourth(&rt, 3);
}

/// Fails every other allocation in turn, with a limit of three nodes for a plan of four. The answer is `TooLarge` or
/// `NoMemory`.
fn refuses_every_other_of_three(rt: &(impl Abort + AllocGlobal), first: u8) {
    for round in 0..200u64 {
        let served = 2 * round + u64::from(first);
        if is_served(rt, served, 3, Some(SearchFault::TooLarge)) {
            return;
        }
    }
    panic!(rt; "more growths than 400")
}

#[test]
fn a_plan_too_large_without_its_growths_1_3_5_and_so_on(rt: HostRuntime) {
    refuses_every_other_of_three(&rt, 0);
}

#[test]
fn a_plan_too_large_without_its_growths_2_4_6_and_so_on(rt: HostRuntime) {
    refuses_every_other_of_three(&rt, 1);
}

/// The number of allocations that the search within a limit makes if none fails. It is found by bisection, and is at
/// most 400.
fn growths_within(rt: &(impl Abort + AllocGlobal), limit: u32) -> u64 {
    let mut fewest = 0u64;
    let mut most = 400u64;
    for _ in 0..12 {
        let middle = (fewest / 2).saturating_add(most / 2);
        let (_, refused) = twos_without(rt, middle, limit);
        if refused {
            fewest = middle.saturating_add(1);
        } else {
            most = middle;
        }
    }
    most
}

/// The plan's vector is the last allocation. It is not made if the plan is too large.
#[test]
fn the_limit_is_seen_before_the_plan_is_made(rt: HostRuntime) {
    let last = growths_within(&rt, 3);
    same(&rt, growths_within(&rt, 4), last.saturating_add(1));
    let no_memory = (Some(SearchFault::NoMemory), true);
    same(&rt, twos_without(&rt, last, 4), no_memory);
    let too_large = (Some(SearchFault::TooLarge), false);
    same(&rt, twos_without(&rt, last, 3), too_large);
}

/// For `LAST_TWO_BEHIND`. The owner answers a six or a nine with the nine and then the seven, and any other card with
/// the seven and then the nine.
const FEWEST_LOST: &str =
    "plan 1\nnodes 5\n0 see 34578TJQK:3 69:1\n1 play 9S 2\n2 play 7S end\n3 play 7S 4\n4 play 9S end\n";

/// Asserts that the plan that is tried has this text.
fn tries(rt: &(impl Abort + AllocGlobal), of: &str, text: &str, is_sure: bool) {
    let tried = try_plan(
        rt.alloc(),
        &problem(rt, of),
        &problem(rt, of),
        None,
        &mut None,
    )
    .expect(rt, "a plan");
    same(rt, tried.is_sure, is_sure);
    has_text(rt, &tried.plan, text);
}

#[test]
fn a_sure_plan_is_tried(rt: HostRuntime) {
    tries(&rt, TWELVE, TWOS, true);
    tries(&rt, LAST_TWO, LOOKS, true);
}

#[test]
fn a_plan_that_is_not_sure_is_tried(rt: HostRuntime) {
    tries(&rt, LAST_TWO_BEHIND, FEWEST_LOST, false);
}

/// Tries a plan for `LAST_TWO_BEHIND`, and fails the allocation after the first `served` ones. Returns whether there
/// was none to fail.
fn trial_is_served(rt: &(impl Abort + AllocGlobal), of: &Problem, served: u64) -> bool {
    let heap = Refusing::after(rt.alloc(), served);
    match &try_plan(&heap, of, of, None, &mut None) {
        Ok(tried) => has_text(rt, &tried.plan, FEWEST_LOST),
        Err(fault) => same(rt, (fault.number(), heap.has_refused()), (11, true)),
    }
    !heap.has_refused()
}

/// Fails every fourth allocation in turn. The answer is `NoMemory`, or the plan if the allocation was one of the table.
fn tries_every_fourth(rt: &(impl Abort + AllocGlobal), first: u8) {
    let problem = problem(rt, LAST_TWO_BEHIND);
    for round in 0..100u64 {
        let served = 4 * round + u64::from(first);
        if trial_is_served(rt, &problem, served) {
            return;
        }
    }
    panic!(rt; "more growths than 400")
}

#[test]
fn a_trial_without_its_growths_1_5_9_and_so_on(rt: HostRuntime) {
    tries_every_fourth(&rt, 0);
}

#[test]
fn a_trial_without_its_growths_2_6_10_and_so_on(rt: HostRuntime) {
    tries_every_fourth(&rt, 1);
}

#[test]
fn a_trial_without_its_growths_3_7_11_and_so_on(rt: HostRuntime) {
    tries_every_fourth(&rt, 2);
}

#[test]
fn a_trial_without_its_growths_4_8_12_and_so_on(rt: HostRuntime) {
    tries_every_fourth(&rt, 3);
}
