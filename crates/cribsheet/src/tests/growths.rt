//! Runs in which one allocation after another fails.
use crate::tests::runs::{Written, outcome_of, written_of};
use crate::tests::same;
use crib_run::Status;
use crib_sheet::SheetJob;
use example_texts::games::LAST_CARD;
use example_texts::joined;
use example_texts::plans::{NO_PLAN, TWOS};
use example_texts::problems::{BEGUN, BEGUN_SHORT, LAST_TWO_BEHIND, TENS, THIRTEEN, TWELVE};
use refusing_alloc::Refusing;
use std::process::Abort;

/// What a run does in which an allocation fails.
pub(crate) enum Growth {
    Reported,
    PassedOver,
    // There is no such allocation.
    NotMade,
}

/// Fails the allocation after the first `served` ones of a run. Asserts that `fault 11` alone was written, or the whole
/// sheet.
pub(crate) fn growth_after(
    rt: &(impl Abort + AllocGlobal),
    job: SheetJob,
    sections: &[&str],
    served: u64,
    whole: &Written,
) -> Growth {
    let input = joined(rt.alloc(), sections).expect(rt, "memory");
    let heap = Refusing::after(rt.alloc(), served);
    let written = outcome_of(rt.alloc(), &heap, job, input.as_bytes());
    if written.status == Status::Fault {
        same(rt, heap.has_refused(), true);
        written.is(rt, "fault 11\n", Status::Fault);
        return Growth::Reported;
    }
    written.is(rt, whole.text(rt), whole.status);
    if heap.has_refused() {
        Growth::PassedOver
    } else {
        Growth::NotMade
    }
}

// Fails the first allocation of a run, then the second, and so on, until none fails. Returns how many of them led to
// `fault 11`, and how many changed nothing.
fn refuse_each(rt: &(impl Abort + AllocGlobal), job: SheetJob, sections: &[&str]) -> (u32, u32) {
    let whole = written_of(rt, job, sections);
    let mut reported = 0u32;
    let mut passed_over = 0u32;
    for served in 0..1000 {
        match growth_after(rt, job, sections, served, &whole) {
            Growth::Reported => reported = reported.saturating_add(1),
            Growth::PassedOver => passed_over = passed_over.saturating_add(1),
            Growth::NotMade => return (reported, passed_over),
        }
    }
    panic!(rt; "a run that never ends to grow")
}

// The input alone.
#[test]
fn of_a_game(rt: HostRuntime) {
    let refused = refuse_each(&rt, SheetJob::Game, &[TENS, LAST_CARD]);
    same(&rt, refused, (1, 0));
}

// The input, the plan and the outline. The position table allocates too, and a failure there changes nothing.
#[test]
fn of_a_plan(rt: HostRuntime) {
    let (reported, passed_over) = refuse_each(&rt, SheetJob::Plan, &[TWELVE, TWOS]);
    assert!(rt; reported >= 3);
    assert!(rt; passed_over > 0);
    let (reported, _passed_over) = refuse_each(&rt, SheetJob::Plan, &[THIRTEEN, TWOS]);
    assert!(rt; reported >= 3);
}

// Twelve holes are sure, and not thirteen. The opponent has one card left.
const LAST_TWO_SHORT: &str =
    "problem 2\ndealer opponent\nscore 0 0\nstarter KD\nhold 2C 2D 2H 2S\nthrow 4C 6D\n\
    goal holes 13\nplayed 6\nown 2C\nopp AD\nown 2D\nopp 3C\nown 2H\nopp 5S\n";

// The same of a plan that is found.
#[test]
fn of_a_plan_that_is_found(rt: HostRuntime) {
    let (reported, passed_over) = refuse_each(&rt, SheetJob::Plan, &[LAST_TWO_SHORT]);
    assert!(rt; reported >= 3);
    assert!(rt; passed_over > 0);
}

// The input and the games. The position table of the finder allocates too.
#[test]
fn of_games_that_refute(rt: HostRuntime) {
    let (reported, passed_over) = refuse_each(&rt, SheetJob::Refute, &[BEGUN_SHORT]);
    assert!(rt; reported >= 3);
    assert!(rt; passed_over > 0);
}

// And the different games, and the lines.
#[test]
fn of_games_in_words(rt: HostRuntime) {
    let (reported, passed_over) = refuse_each(&rt, SheetJob::Why, &[BEGUN_SHORT]);
    assert!(rt; reported >= 5);
    assert!(rt; passed_over > 0);
}

// The input, the plan and the rows of the tally. Every deal beats a plan without nodes.
#[test]
fn of_a_tally(rt: HostRuntime) {
    let (reported, passed_over) = refuse_each(&rt, SheetJob::Beaten, &[BEGUN, NO_PLAN]);
    assert!(rt; reported >= 2);
    same(&rt, passed_over, 0);
}

// The input, and the entries.
#[test]
fn of_cards_that_are_sure(rt: HostRuntime) {
    let (reported, passed_over) = refuse_each(&rt, SheetJob::Leads, &[BEGUN]);
    assert!(rt; reported >= 2);
    assert!(rt; passed_over > 0);
}

// The entries, those for the goal `stop`, and the plan to try make many allocations, so not each of them is tried.
#[test]
fn of_a_go_that_is_not_sure(rt: HostRuntime) {
    let whole = written_of(&rt, SheetJob::Leads, &[LAST_TWO_BEHIND]);
    for served in [1, 30, 300] {
        match growth_after(&rt, SheetJob::Leads, &[LAST_TWO_BEHIND], served, &whole) {
            Growth::Reported | Growth::PassedOver | Growth::NotMade => {}
        }
    }
}

// The input and the plan.
#[test]
fn of_what_comes_next(rt: HostRuntime) {
    let refused = refuse_each(&rt, SheetJob::Next, &[TWELVE, TWOS, "turns 1\nown 2C\n"]);
    same(&rt, refused, (2, 0));
}
