//! Reads a problem, a plan, and the turns since.
ghost use Rattle.std.specs.Prelude.{◌≡◌, ◌≤◌, Err, IfErr, IsOk, None, length};
ghost use Rattle.crib_input.specs.Memory.{count_of_input};
ghost use Rattle.crib_input.specs.Refusals.{FitsFault, ReadsAs};
ghost use Rattle.crib_input.specs.declared.reason.FaultCause.TheVariants.{NoMemory};
ghost use Rattle.crib_input.specs.declared.reason.Reason.TheVariants.{Fault};
ghost use Rattle.crib_next.specs.Input.{next_question_of_input};

use crate::section::{Turns, read_turns};
use crib_input::Reason;
use crib_plan::{Plan, read_plan};
use crib_problem::{Problem, read_problem};
use crib_text::{Lines, MAX_INPUT};
use std::alloc::Allocator;

/// A problem, a plan, and the turns since.
#[derive(Drop)]
pub struct NextQuestion<A: Allocator> {
    pub problem: Problem,
    pub plan: Plan<A>,
    /// The turns since, in the order of play. They may break the rules, or stray from the plan.
    pub turns: Turns,
    /// The line at which the section of the turns begins.
    pub first: u32,
    ghost early: { first ≤ 8388609 },
}

/// Reads a problem, a plan, and the turns since. Returns them. Fails with the first refusal, or with
/// [`FaultCause::NoMemory`](crib_input::FaultCause) if the allocation for the plan fails. It allocates only if the
/// problem and the first two lines of the plan are not refused.
#[tactic(auto, unfolding(crib_input::specs::Input::input_lines, crate::specs::Input::next_question_of_input, crate::specs::Input::next_question_at, crib_input::specs::Memory::count_of_input, crib_input::specs::Memory::count_behind))]
pub fn next_question_of<A: Allocator + Copy>(
    alloc: A,
    input: &[u8],
) -> Result<NextQuestion<A>, Reason>
    requires { length input.now ≤ MAX_INPUT }
    ensures read { ReadsAs (λ question. (question.problem, question.plan, question.turns.items, question.first)) result
        (next_question_of_input input.now) }
    ensures cause { IfErr result (FitsFault None) }
    ensures asked { result ≡ Err (Fault NoMemory) → IsOk (count_of_input input.now) }
{
    let mut lines = Lines::new(input)?;
    let problem = read_problem(&mut lines)?;
    let plan = read_plan(alloc, &mut lines)?;
    let first = lines.number();
    let turns = read_turns(&mut lines)?;
    lines.finish()?;
    Ok(NextQuestion {
        problem,
        plan,
        turns,
        first,
    })
}
