//! A plan to try: a sure one if there is one, otherwise one that few deals should beat.
ghost use Rattle.std.specs.Prelude.{◌≡◌, ◌≢◌, IfOk, IsErr, Err, Some, IsTrue, IsFalse};
ghost use Rattle.crib_sure.specs.Sure.{IsSure};
ghost use Rattle.crib_search.specs.Finder.{ExceedsLimit, IsFound};
ghost use Rattle.crib_search.specs.Private.States.{IsPlanned};
ghost use Rattle.crib_search.specs.Trees.{plan_of_tree};
ghost use Rattle.crib_search.specs.Tried.{IsNeverStuck};
ghost use Rattle.crib_search.specs.Winnable.{IsWinnable};

mod advice;
mod cases;
mod choices;
mod choosing;
mod closing;
mod favour;
mod grades;
mod guide;
mod ledger;
mod matching;
mod net;
mod places;
mod planner;
mod register;
mod rounds;
mod splitting;
mod spot;
mod survey;
mod tape;
mod trails;

use crate::finder::{Found, SearchFault, find, plan_from};
use crate::nodes::{DraftPlace, Nodes};
use crate::tries::planner::{lowest_first, make_plan};
pub use advice::Advice;
pub use cases::Case;
use crib_cards::Card;
use crib_know::Know;
use crib_plan::Plan;
use crib_problem::Problem;
pub use grades::{GRADES, Ladder, RUNGS};
pub use guide::Guide;
pub use spot::Spot;
use std::alloc::{AllocError, Allocator, Global};
pub use trails::ShownTurn;

/// A plan to try.
#[derive(Drop)]
pub struct Tried<A: Allocator = Global> {
    /// The plan.
    pub plan: Plan<A>,
    /// Whether the plan is sure. If it is not, no plan is.
    pub is_sure: bool,
}

/// Returns the plan of [`find`], or, if no plan is sure, a plan that few deals should beat.
///
/// How few is not stated by the contract. But the plan is never stuck: wherever the owner has to choose a card, it
/// states one that they hold and that fits. It fails with [`SearchFault::TooLarge`] if the plan of [`find`] has more
/// than 65,535 nodes. It fails with [`SearchFault::NoMemory`] if an allocation fails, except one for the table of
/// answers: if that fails, the search is slower.
///
/// The problem is searched. Or, if its opening ends with a card of the owner, this last card may be given, and the
/// problem before it, which is searched then. What is advised for that problem is kept for later calls.
pub fn try_plan<A: Allocator + Copy>(
    alloc: A,
    problem: &Problem,
    before: &Problem,
    last: Option<Card>,
    advice: &mut Option<Advice<A>>,
) -> Result<Tried<A>, SearchFault>
    // A plan that is said to be sure is sure, and it is the plan of `find`.
    ensures sure { IfOk result (λ tried. IsTrue tried.is_sure → IsSure problem.now tried.plan) }
    ensures found { IfOk result (λ tried. IsTrue tried.is_sure → IsFound problem.now (Some tried.plan)) }

    // If the plan is said not to be sure, no plan is.
    ensures unsure { IfOk result (λ tried. IsFalse tried.is_sure → ¬ IsWinnable problem.now) }

    // The plan is never stuck.
    ensures stated { IfOk result (λ tried. IsNeverStuck problem.now tried.plan) }

    // If the plan of `find` has more nodes than 65,535, the call fails. `TooLarge` is returned only then.
    ensures large { ExceedsLimit problem.now 65535 → IsErr result }
    ensures too_large { result ≡ Err SearchFault.TooLarge → ExceedsLimit problem.now 65535 }
{
    match find(alloc, problem)? {
        Found::Plan(plan) => Ok(Tried {
            plan,
            is_sure: true,
        }),
        Found::None => Ok(Tried {
            plan: advised_plan(alloc, problem, before, last, advice)?,
            is_sure: false,
        }),
    }
}

// A plan that few deals beat. If it has too many nodes, it is the one that plays the lowest card first.
fn advised_plan<A: Allocator + Copy>(
    alloc: A,
    problem: &Problem,
    before: &Problem,
    last: Option<Card>,
    advice: &mut Option<Advice<A>>,
) -> Result<Plan<A>, SearchFault>
    ensures stated { IfOk result (IsNeverStuck problem.now) }
    ensures fits { result ≢ Err SearchFault.TooLarge }
{
    let Ok((nodes, first)) = draft_plan(alloc, problem, before, last, advice) else {
        return Err(SearchFault::NoMemory);
    };
    match plan_from(alloc, &nodes, first, 65_535) {
        Ok(plan) => Ok(plan),
        Err(SearchFault::TooLarge) => lowest_plan(alloc, problem),
        Err(SearchFault::NoMemory) => Err(SearchFault::NoMemory),
    }
}

// The nodes of a plan that few deals beat, and its first place. It fails if an allocation fails.
fn draft_plan<A: Allocator + Copy>(
    alloc: A,
    problem: &Problem,
    before: &Problem,
    last: Option<Card>,
    advice: &mut Option<Advice<A>>,
) -> Result<(Nodes<A>, DraftPlace), AllocError>
    ensures { IfOk result (λ made. IsPlanned made.0 (λ tree. IsNeverStuck problem.now (plan_of_tree tree)) made.1) }
{
    let mut known = match advice.take() {
        Some(known) => known,
        None if last.is_some() => Advice::of(alloc, before)?,
        None => Advice::of(alloc, problem)?,
    };
    let spot = known.spot(alloc, problem, last)?;
    let made = make_plan(alloc, problem, known.places(), &spot)?;
    *advice = Some(known);
    Ok(made)
}

// The plan that plays the lowest card first.
fn lowest_plan<A: Allocator + Copy>(alloc: A, problem: &Problem) -> Result<Plan<A>, SearchFault>
    ensures stated { IfOk result (IsNeverStuck problem.now) }
    ensures fits { result ≢ Err SearchFault.TooLarge }
{
    let mut nodes = Nodes::new(alloc);
    let Ok(first) = lowest_first(&mut nodes, Know::start(problem).own_left()) else {
        return Err(SearchFault::NoMemory);
    };
    plan_from(alloc, &nodes, first, 65_535)
}
