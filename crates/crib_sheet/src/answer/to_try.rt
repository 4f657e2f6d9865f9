//! A plan to try for the problem that an input spells.
ghost use Rattle.std.specs.Prelude.{◌≡◌, ◌⊎◌, ◌≤◌, IfErr, MatchResult, None, length};
ghost use Rattle.crib_text.specs.Refusals.{no_memory};
ghost use Rattle.crib_plan.specs.Spelling.{plan_text};
ghost use Rattle.crib_input.specs.Refusals.{FitsFault};
ghost use Rattle.crib_run.specs.Reply.{IsOutcome, fault_reply, reply_of};
ghost use Rattle.crib_sheet.specs.Private.Tries.{IsTried, IsUntried, tried_status};
ghost use Rattle.crib_sheet.specs.Sheet.{SheetMakes};
ghost use Rattle.crib_sheet.specs.Told.{SheetTells};

use crate::answer::job::SheetJob;
use crib_input::{FaultCause, Reason, problem_of};
use crib_plan::write_plan;
use crib_problem::Problem;
use crib_run::{Answer, Status, section_answer};
use crib_search::{Advice, SearchFault, Tried, try_plan};
use crib_text::MAX_INPUT;
use std::alloc::Allocator;

/// Returns a plan to try for the problem of an input: a sure one with the status `Yes`, or, if no plan is sure, one
/// that few deals beat with the status `No`. Otherwise it returns the reason why there is none: the refusal of the
/// input, a plan with more than 65,535 nodes, or an allocation that failed.
pub(crate) fn plan_to_try<A: Allocator + Copy>(alloc: A, input: &[u8]) -> Result<Answer<A>, Reason>
    requires { length input.now ≤ MAX_INPUT }
    ensures outcome { IsOutcome reply_of (SheetMakes SheetJob.Try input.now) result }
    ensures told { IfErr result (SheetTells SheetJob.Try input.now) }
{
    let problem = problem_of(input)?;
    let tried = tried_of(alloc, &problem, &mut None)?;
    plan_answer(alloc, &tried)
}

/// Returns a plan to try for a problem, or the reason why there is none: a plan with more than 65,535 nodes, or an
/// allocation that failed. What has been advised for the problem before is looked up.
pub(crate) fn tried_of<A: Allocator + Copy>(
    alloc: A,
    problem: &Problem,
    advice: &mut Option<Advice<A>>,
) -> Result<Tried<A>, Reason>
    ensures { MatchResult result (λ tried. IsTried problem.now tried.plan tried.is_sure) (IsUntried problem.now) }
{
    match try_plan(alloc, problem, problem, None, advice) {
        Ok(tried) => Ok(tried),
        Err(SearchFault::TooLarge) => Err(Reason::Fault(FaultCause::TooLarge)),
        Err(SearchFault::NoMemory) => Err(Reason::Fault(FaultCause::NoMemory)),
    }
}

// The answer with a plan as its text, or `fault 11` if the allocation for the text fails.
#[tactic(auto, unfolding(crib_run::specs::Reply::reply_of))]
fn plan_answer<A: Allocator + Copy>(alloc: A, tried: &Tried<A>) -> Result<Answer<A>, Reason>
    ensures outcome { IsOutcome reply_of (λ reply.
        (reply ≡ record { output = plan_text tried.now.plan; status = tried_status tried.now.is_sure })
        ⊎ (reply ≡ fault_reply no_memory)) result }
    ensures told { IfErr result (FitsFault None) }
{
    match write_plan(alloc, &tried.plan) {
        Ok(text) => {
            let mut answer = section_answer(text);
            answer.status = status_of(tried.is_sure);
            Ok(answer)
        }
        Err(_) => Err(Reason::Fault(FaultCause::NoMemory)),
    }
}

fn status_of(is_sure: bool) -> Status
    ensures { result ≡ tried_status is_sure }
{
    if is_sure { Status::Yes } else { Status::No }
}
