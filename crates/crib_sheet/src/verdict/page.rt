//! The sheet of a plan with the verdict on it.
ghost use Rattle.std.specs.Prelude.{◌≡◌};
ghost use Rattle.crib_run.specs.Prints.{Prints};
ghost use Rattle.crib_sheet.specs.PlanHead.{is_sure};
ghost use Rattle.crib_sheet.specs.Sheet.{parts_reply};

use crate::answer::PlanSheet;
use crate::verdict::head::put_head;
use crib_plan_sheet::put_plan;
use crib_run::{Page, Status};
use std::alloc::Allocator;

/// Puts the head of the sheet of a plan, by the verdict on it and the deals that beat it, the sheet, and how to read
/// it.
pub(crate) fn put_plan_sheet<A: Allocator, P: Page>(page: &mut P, sheet: &PlanSheet<A>)
    ensures { Prints (parts_reply sheet.now).output (P.stand page.old) (P.stand page.new) }
{
    put_head(page, sheet);
    put_plan(page, &sheet.plan, &sheet.outline, is_sure(sheet.status));
}

// Whether the status of a sheet says that the plan is sure.
fn is_sure(status: Status) -> bool
    ensures { result ≡ is_sure status }
{
    matches!(status, Status::Yes)
}
