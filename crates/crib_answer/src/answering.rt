//! Makes the whole answer of a job to the bytes of an input.
ghost use Rattle.std.specs.Prelude.{◌≤◌, IfErr, length};
ghost use Rattle.crib_answer.specs.Answer.{Makes};
ghost use Rattle.crib_run.specs.Reply.{IsOutcome, reply_of};
ghost use Rattle.crib_answer.specs.Meaning.{StatusMeans};
ghost use Rattle.crib_answer.specs.Told.{Tells};

use crate::ending::ending_answer;
use crate::job::Job;
use crate::report::report_answer;
use crate::solve::solve_answer;
use crate::verdict::verdict_answer;
use crib_board::{BoardFault, write_board};
use crib_check::{KeySet, check_with};
use crib_game::{follow, replay};
use crib_input::{
    FaultCause, Reason, Refusal, played_of, played_under_of, problem_of, question_of,
};
use crib_run::{Answer, reason_answer, section_answer};
use crib_text::{MAX_INPUT, TextCause, TextFault};
use std::alloc::Allocator;

/// Returns the whole answer of a job to an input of any length: its text and its status (docs/FORMATS.md, "Answers").
///
/// - `answers`: the answer is the right reply of the job to these bytes, or `fault 11` because an allocation failed.
///   `replay` never asks for memory. `follow` and `check` ask for it only if the problem and the first two lines of the
///   plan are not refused. `solve` and `board` ask for it only if the input is not refused.
/// - `means`: the status and the text mean this for the input:
///   - `check`, `Yes`: the text is `holds`, and the plan of the input is sure.
///   - `check`, `No`: the text is `fails`, the ending, and a failing game of the plan. By `answers` it is the first.
///   - `solve`, `Yes`: the text is a plan that is sure for the problem of the input.
///   - `solve`, `No`: the text is `none`, and no plan is sure for the problem of the input.
///   - `Refused`: the bytes spell no problem and plan (`check`), or no problem (`solve`).
///   - `Fault`: an allocation failed. Or the job is `solve`, some plan is sure, and the plan that was found has more
///     than 65,535 nodes.
pub fn answer_to<A: Allocator + Copy>(alloc: A, job: Job, input: &[u8]) -> Answer<A>
    ensures answers { Makes job input.now (reply_of result) }
    ensures means { StatusMeans job input.now (reply_of result) }
{
    match answer_of(alloc, job, input) {
        Ok(answer) => answer,
        Err(reason) => reason_answer(reason),
    }
}

/// Returns the answer of a job to an input of any length, with the status `Yes` or `No`, or the reason why there is
/// none: its refusal, or a fault. [`answer_to`] is the same with the reason as its line. It reads the input once.
pub(crate) fn answer_of<A: Allocator + Copy>(
    alloc: A,
    job: Job,
    input: &[u8],
) -> Result<Answer<A>, Reason>
    ensures outcome { IsOutcome reply_of (Makes job input.now) result }
    ensures told { IfErr result (Tells job input.now) }
{
    if input.len() > MAX_INPUT {
        return Err(Reason::from(TextFault::of_input(TextCause::TooLong)));
    }
    match job {
        Job::Replay => replay_answer(input),
        Job::Follow => follow_answer(alloc, input),
        Job::Check => check_answer(alloc, input),
        Job::Solve => solve_answer(alloc, &problem_of(input)?),
        Job::Board => board_answer(alloc, input),
    }
}

// The answer of `replay`: the report of the game.
#[tactic(auto, unfolding(crate::specs::Input::report_of_input))]
fn replay_answer<A: Allocator>(input: &[u8]) -> Result<Answer<A>, Reason>
    requires { length input.now ≤ MAX_INPUT }
    ensures outcome { IsOutcome reply_of (Makes Job.Replay input.now) result }
    ensures told { IfErr result (Tells Job.Replay input.now) }
{
    let played = played_of(input)?;
    match replay(&played.problem, &played.game) {
        Ok(report) => Ok(report_answer(&report)),
        Err(fault) => Err(Reason::from(Refusal::of_game(fault, played.first, &played.game))),
    }
}

// The answer of `follow`: the ending of the game.
#[tactic(auto, unfolding(crate::specs::Input::ending_of_input))]
fn follow_answer<A: Allocator + Copy>(alloc: A, input: &[u8]) -> Result<Answer<A>, Reason>
    requires { length input.now ≤ MAX_INPUT }
    ensures outcome { IsOutcome reply_of (Makes Job.Follow input.now) result }
    ensures told { IfErr result (Tells Job.Follow input.now) }
{
    let played = played_under_of(alloc, input)?;
    match follow(&played.problem, &played.plan, &played.game) {
        Ok(ending) => Ok(ending_answer(ending)),
        Err(fault) => Err(Reason::from(Refusal::of_game(fault, played.first, &played.game))),
    }
}

// The answer of `check`: the verdict on the plan.
fn check_answer<A: Allocator + Copy>(alloc: A, input: &[u8]) -> Result<Answer<A>, Reason>
    requires { length input.now ≤ MAX_INPUT }
    ensures outcome { IsOutcome reply_of (Makes Job.Check input.now) result }
    ensures told { IfErr result (Tells Job.Check input.now) }
{
    let question = question_of(alloc, input)?;
    let mut table = KeySet::new(alloc);
    let verdict = check_with(&question.problem, &question.plan, &mut table);
    verdict_answer(alloc, &verdict)
}

// The answer of `board`: the board of the game.
#[tactic(auto, unfolding(crate::specs::Input::board_of_input))]
fn board_answer<A: Allocator + Copy>(alloc: A, input: &[u8]) -> Result<Answer<A>, Reason>
    requires { length input.now ≤ MAX_INPUT }
    ensures outcome { IsOutcome reply_of (Makes Job.Board input.now) result }
    ensures told { IfErr result (Tells Job.Board input.now) }
{
    let played = played_of(input)?;
    match write_board(alloc, &played.problem, &played.game) {
        Ok(text) => Ok(section_answer(text)),
        Err(BoardFault::Game(fault)) => {
            Err(Reason::from(Refusal::of_game(fault, played.first, &played.game)))
        }
        Err(BoardFault::NoMemory) => Err(Reason::Fault(FaultCause::NoMemory)),
    }
}
