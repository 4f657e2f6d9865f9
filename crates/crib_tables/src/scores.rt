//! At which scores turns are sure, or a plan is.
ghost use Rattle.std.specs.Prelude.{◌≡◌, ◌≤◌, IfOk, length};
ghost use Rattle.std.specs.List.{AllByRecursion};
ghost use Rattle.crib_cards.specs.declared.sides.Side.TheVariants.{Owner};
ghost use Rattle.crib_cards.specs.declared.moves.Act.{Act};
ghost use Rattle.crib_problem.specs.Setup.{IsSetup};
ghost use Rattle.crib_tables.specs.Scores.{AreScores, IsMark, IsMarkAt, IsRow, scores_around};
ghost use Rattle.crib_tables.specs.Turns.{AreSure};

use crate::sure::{is_sure_turn, is_winnable, own_turns};
use arrayvec::ArrayVec;
use crib_cards::{Act, Scores};
use crib_know::Know;
use crib_play::Turn;
use crib_problem::Problem;
use std::alloc::{AllocError, Allocator};

/// What is sure at some scores.
#[derive(Clone, Copy, Debug, Default, PartialEq, Eq)]
pub enum Mark {
    /// The problem can't have these scores.
    #[default]
    Impossible,
    /// So many turns of the owner are sure.
    Turns(u8),
    /// The owner is not to move: whether a plan is sure.
    Plan(bool),
}

/// What is sure at a score of the owner, for each score of the opponent.
#[derive(Default, Drop)]
pub struct Row {
    /// The owner's score at the first lead.
    pub owner: u8,
    /// A mark for each score of the opponent.
    pub marks: ArrayVec<Mark, 21>,
}

/// What is sure at 21 scores of each side, around those of a problem.
#[derive(Drop)]
pub struct ScoreTable {
    /// Who is to move.
    pub turn: Turn,
    /// The opponent's scores at the first lead.
    pub columns: ArrayVec<u8, 21>,
    /// A row for each score of the owner.
    pub rows: ArrayVec<Row, 21>,
}

/// Returns what is sure at the 21 scores of each side around those of a problem, each decided on its own. It fails if
/// an allocation fails, except one for a table of answers: if that fails, the search is slower.
pub fn scores_of<A: Allocator + Copy>(alloc: A, problem: &Problem) -> Result<ScoreTable, AllocError>
    ensures { IfOk result (AreScores problem.now) }
{
    let turn = Know::start(problem).turn();
    let columns = scores_around(problem.scores().opponent);
    let mut rows = ArrayVec::new();
    let owners = scores_around(problem.scores().owner);
    for owner in owners.as_slice() {
        let row = row_of(alloc, problem, *owner, columns.as_slice())?;
        rows.push(row);
    }
    Ok(ScoreTable {
        turn,
        columns,
        rows,
    })
}

// Returns the row of a score of the owner.
fn row_of<A: Allocator + Copy>(
    alloc: A,
    problem: &Problem,
    owner: u8,
    columns: &[u8],
) -> Result<Row, AllocError>
    requires { length columns.now ≡ 21 }
    ensures { IfOk result (IsRow problem.now columns.now owner) }
{
    let mut marks = ArrayVec::new();
    for opponent in columns {
        let scores = Scores {
            owner,
            opponent: *opponent,
        };
        let mark = mark_at(alloc, problem, scores)?;
        marks.push(mark);
    }
    Ok(Row { owner, marks })
}

// Returns what is sure at some scores.
fn mark_at<A: Allocator + Copy>(
    alloc: A,
    problem: &Problem,
    scores: Scores,
) -> Result<Mark, AllocError>
    ensures { IfOk result (IsMarkAt problem.now scores) }
{
    match problem.with_scores(scores) {
        None => Ok(Mark::Impossible),
        Some(problem) => mark_of(alloc, &problem),
    }
}

// Returns what is sure at the scores of a problem.
fn mark_of<A: Allocator + Copy>(alloc: A, problem: &Problem) -> Result<Mark, AllocError>
    requires { IsSetup problem.now }
    ensures { IfOk result (IsMark problem.now) }
{
    match Know::start(problem).turn() {
        Turn::Owner => {
            let turns = sure_among(alloc, problem, &own_turns(problem))?;
            Ok(Mark::Turns(turns))
        }
        Turn::Opponent | Turn::Over => {
            let sure = is_winnable(alloc, problem)?;
            Ok(Mark::Plan(sure))
        }
    }
}

// Returns how many of some turns of the owner are sure.
fn sure_among<A: Allocator + Copy>(
    alloc: A,
    problem: &Problem,
    acts: &[Act],
) -> Result<u8, AllocError>
    requires few { length acts.now ≤ 5 }
    requires own { AllByRecursion (λ (act : Act). act.side ≡ Owner) acts.now }
    ensures right { IfOk result (AreSure problem.now acts.now) }
    ensures few { IfOk result (λ count. count ≤ length acts.now) }
{
    match acts {
        [] => Ok(0),
        [act, others @ ..] => {
            let count = sure_among(alloc, problem, others)?;
            let is_sure = is_sure_turn(alloc, problem, act)?;
            Ok(if is_sure { count + 1 } else { count })
        }
    }
}

// Returns 21 scores from 0 to 120, with this one in the middle if they fit.
fn scores_around(score: u8) -> ArrayVec<u8, 21>
    requires { score ≤ 120 }
    ensures value { result.items ≡ scores_around score }
    ensures few { length result.items ≡ 21 }
{
    let first = score.saturating_sub(10).min(100);
    let mut scores = ArrayVec::new();
    for step in 0..21u8 {
        scores.push(first + step);
    }
    scores
}
