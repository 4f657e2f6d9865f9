//! Reads the problem of an input, and the plan behind it if there is one.
ghost use Rattle.std.specs.Prelude.{◌≡◌, ◌≤◌, Err, IfErr, IsOk, None, length};
ghost use Rattle.crib_input.specs.Memory.{count_of_input};
ghost use Rattle.crib_input.specs.Refusals.{FitsFault, ReadsAs};
ghost use Rattle.crib_input.specs.declared.reason.FaultCause.TheVariants.{NoMemory};
ghost use Rattle.crib_input.specs.declared.reason.Reason.TheVariants.{Fault};
ghost use Rattle.crib_sheet.specs.Asked.{asked_of_input};

use crib_input::Reason;
use crib_plan::{Plan, read_plan};
use crib_problem::{Problem, read_problem};
use crib_text::{Lines, MAX_INPUT};
use std::alloc::Allocator;

/// A problem, and the plan behind it if there is one.
#[derive(Drop)]
pub(crate) struct Asked<A: Allocator> {
    pub(crate) problem: Problem,
    pub(crate) plan: Option<Plan<A>>,
}

/// Reads a problem, and a plan if any line follows. Returns them. Fails with the first refusal, or with
/// [`FaultCause::NoMemory`](crib_input::FaultCause) if the allocation for the plan fails. It allocates only if the
/// problem and the first two lines of the plan are not refused.
#[tactic(auto, unfolding(crib_input::specs::Input::input_lines, crib_input::specs::Input::problem_of_input, crib_input::specs::Input::problem_alone_at, crib_input::specs::Input::question_of_input, crib_input::specs::Input::question_at, crib_input::specs::Memory::count_of_input, crib_input::specs::Memory::count_behind))]
pub(crate) fn asked_of<A: Allocator + Copy>(alloc: A, input: &[u8]) -> Result<Asked<A>, Reason>
    requires { length input.now ≤ MAX_INPUT }
    ensures read { ReadsAs (λ asked. (asked.problem, asked.plan)) result (asked_of_input input.now) }
    ensures cause { IfErr result (FitsFault None) }
    ensures asked { result ≡ Err (Fault NoMemory) → IsOk (count_of_input input.now) }
{
    let mut lines = Lines::new(input)?;
    let problem = read_problem(&mut lines)?;
    if let Ok(()) = lines.finish() {
        return Ok(Asked {
            problem,
            plan: None,
        });
    }
    let plan = read_plan(alloc, &mut lines)?;
    lines.finish()?;
    Ok(Asked {
        problem,
        plan: Some(plan),
    })
}
