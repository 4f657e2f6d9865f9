//! The answer of `solve`.
ghost use Rattle.std.specs.Prelude.{◌≡◌, ◌⊎◌, IfErr, None, Some};
ghost use Rattle.crib_text.specs.Refusals.{no_memory};
ghost use Rattle.crib_answer.specs.Answer.{AnswersProblem, found_reply};
ghost use Rattle.crib_input.specs.Refusals.{FitsFault};
ghost use Rattle.crib_run.specs.Reply.{IsOutcome, fault_reply, reply_of};

use crate::passed::{PassedPlan, passed};
use crib_input::{FaultCause, Reason};
use crib_plan::write_plan;
use crib_problem::Problem;
use crib_run::{Answer, Status, line_answer, section_answer};
use crib_search::{Found, SearchFault, find_with_shows};
use std::alloc::Allocator;

/// Returns the answer to a problem (docs/FORMATS.md, "solve"): the plan that was found, with the status `Yes`, after
/// the checker has found it to be sure, or `none` with the status `No`, if no plan is sure. It fails with the fault 50
/// if the plan that was found has more than 65,535 nodes, and with the fault 11 if an allocation fails.
pub(crate) fn solve_answer<A: Allocator + Copy>(
    alloc: A,
    problem: &Problem,
) -> Result<Answer<A>, Reason>
    ensures outcome { IsOutcome reply_of
        (λ reply. AnswersProblem problem.now reply ⊎ (reply ≡ fault_reply no_memory)) result }
    ensures told { IfErr result (FitsFault None) }
{
    let (found, shows) = find_with_shows(alloc, problem, 65_535);
    match found {
        Ok(Found::Plan(plan)) => match passed(alloc, problem, &plan, shows) {
            Some(passed) => plan_answer(alloc, &passed),
            None => unreachable!(),
        },
        Ok(Found::None) => Ok(line_answer(b"none\n", Status::No)),
        Err(SearchFault::TooLarge) => Err(Reason::Fault(FaultCause::TooLarge)),
        Err(SearchFault::NoMemory) => Err(Reason::Fault(FaultCause::NoMemory)),
    }
}

// The answer with this plan as its text. It is `fault 11` if the allocation for the text fails.
fn plan_answer<A: Allocator + Copy>(
    alloc: A,
    passed: &PassedPlan<'_, A>,
) -> Result<Answer<A>, Reason>
    ensures outcome { IsOutcome reply_of
        (λ reply. (reply ≡ found_reply (Some passed.now.plan.now)) ⊎ (reply ≡ fault_reply no_memory)) result }
    ensures told { IfErr result (FitsFault None) }
{
    match write_plan(alloc, passed.plan()) {
        Ok(text) => Ok(section_answer(text)),
        Err(_) => Err(Reason::Fault(FaultCause::NoMemory)),
    }
}
