//! How many holes are sure.
ghost use Rattle.std.specs.Prelude.{◌≡◌, ◌↔◌, ◌+◌, IfOk, IsTrue, IfSome};
ghost use Rattle.crib_cards.specs.declared.sides.Side.TheVariants.{Owner};
ghost use Rattle.crib_problem.specs.Setup.{IsSetup};
ghost use Rattle.crib_tables.specs.Holes.{AreHoles, AreMost, AreSureBy, opening_scores, with_holes};
ghost use Rattle.crib_tables.specs.Private.Next.{IsSureNext};

use crate::sure::{is_sure_turn, is_winnable, may_come, own_turns};
use arrayvec::ArrayVec;
use crib_cards::{Act, Scores};
use crib_know::Know;
use crib_problem::{Goal, Problem};
use std::alloc::{AllocError, Allocator};

/// How many holes are sure with a turn of the owner.
#[derive(Clone, Copy, Debug, Default, PartialEq, Eq)]
pub struct TurnHoles {
    /// The turn.
    pub act: Act,
    /// The most holes from the first lead on for which it is sure.
    pub holes: u8,
}

/// How many holes are sure: at all, and with each turn of the owner that may come next.
#[derive(Drop)]
pub struct Holes {
    /// The scores after the opening.
    pub pegs: Scores,
    /// The most holes from the first lead on for which a plan is sure.
    pub holes: u8,
    /// The same for each turn of the owner that may come next. There are none on the opponent's turn.
    pub turns: ArrayVec<TurnHoles, 5>,
}

/// Returns how many holes are sure, whatever the goal of the problem is: at all, and with each turn of the owner that
/// may come next. What the owner has pegged in the opening counts. It fails if an allocation fails, except one for a
/// table of answers: if that fails, the search is slower.
pub fn holes_of<A: Allocator + Copy>(alloc: A, problem: &Problem) -> Result<Holes, AllocError>
    ensures { IfOk result (AreHoles problem.now) }
{
    let know = Know::start(problem);
    let pegs = know.round().scores();
    let holes = most_holes(alloc, problem, pegs.owner, &None)?;
    let mut turns = ArrayVec::new();
    let acts = own_turns(problem);
    for act in &acts {
        if may_come(problem, act) {
            let most = most_holes(alloc, problem, pegs.owner, &Some(*act))?;
            turns.push(TurnHoles {
                act: *act,
                holes: most,
            });
        }
    }
    Ok(Holes { pegs, holes, turns })
}

// Returns the most holes that are sure, with this turn of the owner next if there is one. The owner's score after the
// opening is given.
fn most_holes<A: Allocator + Copy>(
    alloc: A,
    problem: &Problem,
    pegged: u8,
    next: &Option<Act>,
) -> Result<u8, AllocError>
    requires setup { IsSetup problem.now }
    requires pegged { pegged ≡ (opening_scores problem.now).owner }
    requires own { IfSome next.now (λ act. act.side ≡ Owner) }
    ensures { IfOk result (AreMost (AreSureBy (IsSureNext next.now) problem.now) problem.now) }
{
    let score = problem.scores().owner;
    let mut holes = 121 - score;
    while score + holes > pegged {
        if are_sure(alloc, problem, holes, next)? {
            return Ok(holes);
        }
        holes -= 1;
    }
    Ok(holes)
}

// Returns whether so many holes are possible as the goal, and then sure, with this turn of the owner next if there is
// one.
fn are_sure<A: Allocator + Copy>(
    alloc: A,
    problem: &Problem,
    holes: u8,
    next: &Option<Act>,
) -> Result<bool, AllocError>
    requires { IfSome next.now (λ act. act.side ≡ Owner) }
    ensures { IfOk result (λ sure. IsTrue sure
        ↔ (IsSetup (with_holes problem.now holes) × IsSureNext next.now (with_holes problem.now holes))) }
{
    match problem.with_goal(Goal::Holes(holes)) {
        None => Ok(false),
        Some(problem) => is_sure_next(alloc, &problem, next),
    }
}

// Returns whether this turn of the owner is sure, or a plan if there is no turn.
fn is_sure_next<A: Allocator + Copy>(
    alloc: A,
    problem: &Problem,
    next: &Option<Act>,
) -> Result<bool, AllocError>
    requires setup { IsSetup problem.now }
    requires own { IfSome next.now (λ act. act.side ≡ Owner) }
    ensures { IfOk result (λ sure. IsTrue sure ↔ IsSureNext next.now problem.now) }
{
    match next {
        None => is_winnable(alloc, problem),
        Some(act) => is_sure_turn(alloc, problem, act),
    }
}
