//! How many deals beat the plan that an input spells.
ghost use Rattle.std.specs.Prelude.{◌≤◌, IfErr, length};
ghost use Rattle.crib_run.specs.Reply.{IsOutcome};
ghost use Rattle.crib_sheet.specs.Beaten.{tally_reply};
ghost use Rattle.crib_sheet.specs.Sheet.{SheetMakes};
ghost use Rattle.crib_sheet.specs.Told.{SheetTells};

use crate::answer::job::SheetJob;
use crib_beaten::{Tally, tally_of};
use crib_input::{FaultCause, Reason, question_of};
use crib_text::MAX_INPUT;
use std::alloc::Allocator;

/// Returns the count of the deals that beat the plan of an input, or the reason why there is none: the refusal of the
/// input, or an allocation that failed.
pub(crate) fn beaten_tally<A: Allocator + Copy>(alloc: A, input: &[u8]) -> Result<Tally<A>, Reason>
    requires { length input.now ≤ MAX_INPUT }
    ensures outcome { IsOutcome tally_reply (SheetMakes SheetJob.Beaten input.now) result }
    ensures told { IfErr result (SheetTells SheetJob.Beaten input.now) }
{
    let question = question_of(alloc, input)?;
    match tally_of(alloc, &question.problem, &question.plan) {
        Ok(tally) => Ok(tally),
        Err(_) => Err(Reason::Fault(FaultCause::NoMemory)),
    }
}
