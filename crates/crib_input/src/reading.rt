//! Reads whole inputs. Each call accepts at most 8,388,608 bytes, and refuses a line after the last section.
ghost use Rattle.std.specs.Prelude.{◌≡◌, ◌≤◌, Err, IfErr, IsOk, None, length};
ghost use Rattle.crib_text.specs.Reading.{Gives};
ghost use Rattle.crib_input.specs.Input.{played_of_input, played_under_of_input, problem_of_input, question_of_input};
ghost use Rattle.crib_input.specs.Memory.{count_of_input};
ghost use Rattle.crib_input.specs.Refusals.{FitsFault, ReadsAs, game_fault_of, refusal_of};
ghost use Rattle.crib_input.specs.declared.reason.FaultCause.TheVariants.{NoMemory};
ghost use Rattle.crib_input.specs.declared.reason.Reason.TheVariants.{Fault};

use crate::reason::Reason;
use crate::refusal::Refusal;
use crib_game::{Game, read_game};
use crib_plan::{Plan, read_plan};
use crib_problem::{Problem, read_problem};
use crib_text::{Lines, MAX_INPUT};
use std::alloc::Allocator;

/// A problem and a plan.
#[derive(Drop)]
pub struct Question<A: Allocator> {
    pub problem: Problem,
    pub plan: Plan<A>,
}

/// A problem and a game.
#[derive(Drop)]
pub struct Played {
    pub problem: Problem,
    pub game: Game,
    /// The line at which the section of the game begins.
    pub first: u32,
    ghost early: { first ≤ 8388609 },
}

/// A problem, a plan and a game.
#[derive(Drop)]
pub struct PlayedUnder<A: Allocator> {
    pub problem: Problem,
    pub plan: Plan<A>,
    pub game: Game,
    /// The line at which the section of the game begins.
    pub first: u32,
    ghost early: { first ≤ 8388609 },
}

/// Reads a problem. Returns it, or the first refusal.
#[tactic(auto, unfolding(crate::specs::Input::input_lines, crate::specs::Input::problem_of_input, crate::specs::Input::problem_alone_at))]
pub fn problem_of(input: &[u8]) -> Result<Problem, Refusal>
    requires { length input.now ≤ MAX_INPUT }
    ensures read { Gives (λ problem. problem) refusal_of result (problem_of_input input.now) }
    ensures cause { IfErr result (λ refusal. game_fault_of refusal.cause ≡ None) }
{
    let mut lines = Lines::new(input)?;
    let problem = read_problem(&mut lines)?;
    lines.finish()?;
    Ok(problem)
}

/// Reads a problem and a plan. Returns them. Fails with the first refusal, or with
/// [`FaultCause::NoMemory`](crate::FaultCause) if the allocation for the plan fails. It allocates only if the problem
/// and the first two lines of the plan are not refused.
#[tactic(auto, unfolding(crate::specs::Input::input_lines, crate::specs::Input::question_of_input, crate::specs::Input::question_at, crate::specs::Memory::count_of_input, crate::specs::Memory::count_behind))]
pub fn question_of<A: Allocator + Copy>(alloc: A, input: &[u8]) -> Result<Question<A>, Reason>
    requires { length input.now ≤ MAX_INPUT }
    ensures read { ReadsAs (λ question. (question.problem, question.plan)) result (question_of_input input.now) }
    ensures cause { IfErr result (FitsFault None) }
    ensures asked { result ≡ Err (Fault NoMemory) → IsOk (count_of_input input.now) }
{
    let mut lines = Lines::new(input)?;
    let problem = read_problem(&mut lines)?;
    let plan = read_plan(alloc, &mut lines)?;
    lines.finish()?;
    Ok(Question { problem, plan })
}

/// Reads a problem and a game. Returns them, or the first refusal. The game may not fit the problem.
#[tactic(auto, unfolding(crate::specs::Input::input_lines, crate::specs::Input::played_of_input, crate::specs::Input::played_at))]
pub fn played_of(input: &[u8]) -> Result<Played, Refusal>
    requires { length input.now ≤ MAX_INPUT }
    ensures read { Gives (λ played. (played.problem, played.game, played.first)) refusal_of result
        (played_of_input input.now) }
    ensures cause { IfErr result (λ refusal. game_fault_of refusal.cause ≡ None) }
{
    let mut lines = Lines::new(input)?;
    let problem = read_problem(&mut lines)?;
    let first = lines.number();
    let game = read_game(&mut lines)?;
    lines.finish()?;
    Ok(Played {
        problem,
        game,
        first,
    })
}

/// Reads a problem, a plan and a game. Returns them. Fails with the first refusal, or with
/// [`FaultCause::NoMemory`](crate::FaultCause) if the allocation for the plan fails. It allocates only if the problem
/// and the first two lines of the plan are not refused.
/// The game may not fit the problem, and it may stray from the plan.
#[tactic(auto, unfolding(crate::specs::Input::input_lines, crate::specs::Input::played_under_of_input, crate::specs::Input::played_under_at, crate::specs::Memory::count_of_input, crate::specs::Memory::count_behind))]
pub fn played_under_of<A: Allocator + Copy>(
    alloc: A,
    input: &[u8],
) -> Result<PlayedUnder<A>, Reason>
    requires { length input.now ≤ MAX_INPUT }
    ensures read { ReadsAs (λ played. (played.problem, played.plan, played.game, played.first)) result
        (played_under_of_input input.now) }
    ensures cause { IfErr result (FitsFault None) }
    ensures asked { result ≡ Err (Fault NoMemory) → IsOk (count_of_input input.now) }
{
    let mut lines = Lines::new(input)?;
    let problem = read_problem(&mut lines)?;
    let plan = read_plan(alloc, &mut lines)?;
    let first = lines.number();
    let game = read_game(&mut lines)?;
    lines.finish()?;
    Ok(PlayedUnder {
        problem,
        plan,
        game,
        first,
    })
}
