//! The sheet of a plan as an answer.
ghost use Rattle.std.specs.Prelude.{◌≡◌, ◌⊎◌, ◌≤◌, IfErr, None, length};
ghost use Rattle.crib_text.specs.Refusals.{no_memory};
ghost use Rattle.crib_check.specs.Verdicts.{IsRight};
ghost use Rattle.crib_input.specs.Refusals.{FitsFault};
ghost use Rattle.crib_run.specs.Reply.{IsOutcome, fault_reply};
ghost use Rattle.crib_sheet.specs.PlanBeaten.{IsBest};
ghost use Rattle.crib_sheet.specs.Sheet.{AnswersWithPlan, IsSheetOf, SheetMakes, parts_reply, verdict_status};
ghost use Rattle.crib_sheet.specs.Told.{SheetTells};

use crate::answer::asked::{Asked, asked_of};
use crate::answer::job::SheetJob;
use crate::answer::to_try::tried_of;
use crate::verdict::{Best, beaten_by, best_beside, best_of};
use crib_beaten::{Rows, Tally};
use crib_check::{Verdict, verdict_on};
use crib_input::{FaultCause, Reason};
use crib_plan::Plan;
use crib_plan_sheet::Outline;
use crib_problem::Problem;
use crib_run::Status;
use crib_text::MAX_INPUT;
use std::alloc::Allocator;

/// The parts of the sheet of a plan. Nothing more is allocated to send it.
#[derive(Drop)]
pub struct PlanSheet<A: Allocator> {
    pub problem: Problem,
    pub plan: Plan<A>,
    pub verdict: Verdict,
    /// The deals that beat the plan, counted if it is not sure.
    pub tally: Tally<A>,
    /// Rows that say which hands beat the plan if it is not sure, unless more than a tenth of all deals do.
    pub hands: Option<Rows>,
    /// How few deals beat another plan, if this one is not sure.
    pub best: Best,
    /// Which nodes have paragraphs of their own.
    pub outline: Outline<A>,
    /// `Yes` if the plan is sure, and `No` if it is not.
    pub status: Status,
}

/// Returns the sheet of the plan of an input, or that of a plan to try if the input is a problem alone. Otherwise it
/// returns the reason why there is none: the refusal of the input, a plan to try with more than 65,535 nodes, or an
/// allocation that failed. The position table of the verdict allocates too. A failure there changes nothing.
pub(crate) fn plan_sheet<A: Allocator + Copy>(
    alloc: A,
    input: &[u8],
) -> Result<PlanSheet<A>, Reason>
    requires { length input.now ≤ MAX_INPUT }
    ensures outcome { IsOutcome parts_reply (SheetMakes SheetJob.Plan input.now) result }
    ensures told { IfErr result (SheetTells SheetJob.Plan input.now) }
{
    let asked = asked_of(alloc, input)?;
    let Asked { problem, plan } = asked;
    match plan {
        Some(plan) => typed_sheet(alloc, problem, plan),
        None => sheet_to_try(alloc, problem),
    }
}

// The sheet of a plan that was typed.
fn typed_sheet<A: Allocator + Copy>(
    alloc: A,
    problem: Problem,
    plan: Plan<A>,
) -> Result<PlanSheet<A>, Reason>
    ensures outcome { IsOutcome parts_reply
        (λ reply. IsSheetOf problem plan reply ⊎ (reply ≡ fault_reply no_memory)) result }
    ensures told { IfErr result (FitsFault None) }
{
    let verdict = verdict_on(alloc, &problem, &plan);
    let Ok(best) = best_beside(alloc, &problem, &verdict) else {
        return Err(Reason::Fault(FaultCause::NoMemory));
    };
    sheet_of(alloc, problem, plan, verdict, best)
}

// The sheet of a plan to try. The search has found that a sure one is sure.
fn sheet_to_try<A: Allocator + Copy>(alloc: A, problem: Problem) -> Result<PlanSheet<A>, Reason>
    ensures outcome { IsOutcome parts_reply
        (λ reply. AnswersWithPlan problem (IsSheetOf problem) reply ⊎ (reply ≡ fault_reply no_memory)) result }
    ensures told { IfErr result (FitsFault None) }
{
    let mut advice = None;
    let tried = tried_of(alloc, &problem, &mut advice)?;
    let verdict = if tried.is_sure {
        Verdict::Holds
    } else {
        verdict_on(alloc, &problem, &tried.plan)
    };
    let Ok(best) = best_of(alloc, &problem, None, advice) else {
        return Err(Reason::Fault(FaultCause::NoMemory));
    };
    sheet_of(alloc, problem, tried.plan, verdict, best)
}

// The sheet of a plan by the verdict on it and how few deals beat another plan, or `fault 11` if an allocation fails.
fn sheet_of<A: Allocator + Copy>(
    alloc: A,
    problem: Problem,
    plan: Plan<A>,
    verdict: Verdict,
    best: Best,
) -> Result<PlanSheet<A>, Reason>
    requires right { IsRight problem plan verdict }
    requires best { IsBest problem best }
    ensures outcome { IsOutcome parts_reply
        (λ reply. IsSheetOf problem plan reply ⊎ (reply ≡ fault_reply no_memory)) result }
    ensures told { IfErr result (FitsFault None) }
{
    let Ok(outline) = Outline::of(alloc, &plan) else {
        return Err(Reason::Fault(FaultCause::NoMemory));
    };
    let Ok((tally, hands)) = beaten_by(alloc, &problem, &plan, &verdict) else {
        return Err(Reason::Fault(FaultCause::NoMemory));
    };
    Ok(PlanSheet {
        status: status_of(&verdict),
        problem,
        plan,
        verdict,
        tally,
        hands,
        best,
        outline,
    })
}

// Returns `Yes` if the plan is sure, and `No` if it is not.
fn status_of(verdict: &Verdict) -> Status
    ensures { result ≡ verdict_status verdict.now }
{
    match verdict {
        Verdict::Holds => Status::Yes,
        Verdict::Fails(_, _) => Status::No,
    }
}
