//! Plans to try.
use crate::tests::runs::{prints, writes, written_of};
use crate::tests::same;
use crib_run::Status;
use crib_sheet::SheetJob;
use example_texts::plans::TWOS;
use example_texts::problems::{THIRTEEN, TWELVE};

#[test]
fn prints_a_sure_plan(rt: HostRuntime) {
    writes(&rt, SheetJob::Try, &[TWELVE], TWOS, Status::Yes);
}

// The hand makes twelve holes, and the play none against some deals.
#[test]
fn prints_a_plan_if_none_is_sure(rt: HostRuntime) {
    let written = written_of(&rt, SheetJob::Try, &[THIRTEEN]);
    same(&rt, written.status, Status::No);
    let sections = [THIRTEEN, written.text(&rt)];
    prints(&rt, SheetJob::Plan, &sections, &["not sure"], Status::No);
}

// The numbers and the lines are those of `cribplan solve`.
#[test]
fn refuses_what_solve_refuses(rt: HostRuntime) {
    let wanted = "refused line 8: 8\n";
    writes(&rt, SheetJob::Try, &[TWELVE, TWOS], wanted, Status::Refused);
    writes(
        &rt,
        SheetJob::Try,
        &[],
        "refused line 1: 3\n",
        Status::Refused,
    );
}

// The dealer has six holes less than the pone, who has played twice.
const HEAD: &str =
    "problem 2\ndealer owner\nscore 101 114\nstarter 9H\nhold 6C 3D 7D JD\nthrow AS 2C\n";

const TURNS: &str = "played 3\nopp 2H\nown 6C\nopp 6S\n";

// The plan for a win is beaten by 451,000 deals if the goal is to stop the pone.
#[test]
fn each_goal_has_a_plan_of_its_own(rt: HostRuntime) {
    let sections = [HEAD, "goal stop\n", TURNS];
    let parts = ["With the other\n441,160 they can beat it.\nNo plan is beaten by fewer deals.\n"];
    prints(&rt, SheetJob::Plan, &sections, &parts, Status::No);
    let sections = [HEAD, "goal holes 8\n", TURNS];
    let parts = ["With the other\n548,524 they can beat it.\nNo plan is beaten by fewer deals.\n"];
    prints(&rt, SheetJob::Plan, &sections, &parts, Status::No);
}
