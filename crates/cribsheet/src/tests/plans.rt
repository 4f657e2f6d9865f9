//! The sheets of plans.
use crate::tests::runs::{prints, refuses_plans};
use crib_run::Status;
use crib_sheet::SheetJob;
use example_texts::plans::{LOOK, NO_PLAN, TWOS};
use example_texts::problems::{BEGUN, THIRTEEN, TWELVE};

// A sheet says that the plan is sure where it is.
#[test]
fn prints_sure_plans(rt: HostRuntime) {
    let parts = ["You are the pone", "sure", "2C 2D 2H 2S\n"];
    prints(&rt, SheetJob::Plan, &[TWELVE, TWOS], &parts, Status::Yes);
    let parts = ["sure", "look:\n", " : "];
    prints(&rt, SheetJob::Plan, &[TWELVE, LOOK], &parts, Status::Yes);
}

// One that is not sure has the status 1, and its sheet says so before the plan, and how few deals beat another.
#[test]
fn prints_plans_that_are_not_sure(rt: HostRuntime) {
    let best = "No player is beaten by fewer deals, whatever they look at.\n";
    let better = "The best plan found is beaten by 67,929,620 deals.\n";
    for (sections, said) in [
        ([THIRTEEN, TWOS], best),
        ([THIRTEEN, NO_PLAN], better),
        ([TWELVE, NO_PLAN], "Another plan is sure.\n"),
        ([BEGUN, NO_PLAN], "Another plan is sure.\n"),
    ] {
        prints(
            &rt,
            SheetJob::Plan,
            &sections,
            &["not sure", said],
            Status::No,
        );
    }
}

// A problem alone has the sheet of a plan that is found: a sure one, or, if no plan is sure, another.
#[test]
fn finds_a_plan(rt: HostRuntime) {
    let parts = ["You are the pone", "This plan is sure", "2C 2D 2H 2S\n"];
    prints(&rt, SheetJob::Plan, &[TWELVE], &parts, Status::Yes);
    let parts = ["This plan is not sure", "The plan:\n", "2C 2D 2H 2S\n"];
    prints(&rt, SheetJob::Plan, &[THIRTEEN], &parts, Status::No);
}

#[test]
fn refuses_what_check_refuses(rt: HostRuntime) {
    refuses_plans(&rt, SheetJob::Plan);
}
