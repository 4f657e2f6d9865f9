//! How many deals beat a plan.
use crate::tests::runs::{prints, refuses_plans, writes};
use crib_run::Status;
use crib_sheet::SheetJob;
use example_texts::plans::{NO_KING, NO_PLAN, REST, TWOS};
use example_texts::problems::{BEGUN, TWELVE};

#[test]
fn no_deal_beats_a_sure_plan(rt: HostRuntime) {
    let wanted = "beaten 0 of 122175900\n";
    writes(&rt, SheetJob::Beaten, &[TWELVE, TWOS], wanted, Status::Yes);
    let wanted = "beaten 0 of 10860080\n";
    writes(&rt, SheetJob::Beaten, &[BEGUN, REST], wanted, Status::Yes);
}

// The plan is stuck after a king. Of 45 unseen cards three are kings, so 148,995 - 111,930 holds have one, and each
// goes with 820 throws.
#[test]
fn counts_each_four_ranks(rt: HostRuntime) {
    let parts = [
        "beaten 30393300 of 122175900\nAAAK 9840 of 9840\nAA3K 59040 of 59040\n",
        "\nQQQK 9840 of 9840\nQQKK 14760 of 14760\nQKKK 3280 of 3280\n",
    ];
    prints(
        &rt,
        SheetJob::Beaten,
        &[TWELVE, NO_KING],
        &parts,
        Status::No,
    );
}

#[test]
fn every_deal_beats_no_plan(rt: HostRuntime) {
    let parts = ["beaten 10860080 of 10860080\n"];
    prints(&rt, SheetJob::Beaten, &[BEGUN, NO_PLAN], &parts, Status::No);
}

#[test]
fn refuses_what_check_refuses(rt: HostRuntime) {
    refuses_plans(&rt, SheetJob::Beaten);
}
