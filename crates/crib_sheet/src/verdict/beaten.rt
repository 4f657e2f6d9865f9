//! The deals that beat a plan that is not sure.
ghost use Rattle.std.specs.Prelude.{IfOk, List, ℕ, ◌*◌, ◌<◌, ◌≤◌, ◌^◌};
ghost use Rattle.crib_play.specs.History.{event_of};
ghost use Rattle.crib_plan.specs.declared.plan.Node.{Node};
ghost use Rattle.crib_deals.specs.Exact.{AreExactly};
ghost use Rattle.crib_beaten.specs.Beaten.{Beats};
ghost use Rattle.crib_beaten.specs.Tally.{IsTally};
ghost use Rattle.crib_bound.specs.Laws.{IsPoneToReach};
ghost use Rattle.crib_bound.specs.Worth.{IsStrategy};
ghost use Rattle.crib_sheet.specs.PlanBeaten.{AreBeating, AreBeatingOf, AreHandsOf, IsBest, IsFoundWith};

use crib_beaten::{Rows, Tally, rows_of, tally_of};
use crib_bound::{bound_in_cases, bound_of, is_for_all_players, unit_of};
use crib_check::{NoMemory, Verdict};
use crib_plan::Plan;
use crib_problem::Problem;
use crib_search::{Advice, Guide, SearchFault, try_plan};
use std::alloc::{AllocError, Allocator};

// The parts into which each deal is divided for the least. With fewer it may be a deal less than the best.
const PARTS: u32 = 16_777_216;

/// How few deals beat a plan.
#[derive(Clone, Copy)]
pub struct Best {
    /// How many deals beat the best plan that was found, if one was looked for.
    pub found: Option<u32>,
    /// At least so many deals beat each plan.
    pub least: u32,
    /// Whether at least so many beat each player too, whatever they look at.
    pub is_for_all: bool,
}

/// Counts the deals that beat a plan if the verdict on it is that it fails, and no deals of a sure plan. It fails if an
/// allocation fails.
pub(crate) fn beaten_by<A: Allocator, B: Allocator>(
    alloc: A,
    problem: &Problem,
    plan: &Plan<B>,
    verdict: &Verdict,
) -> Result<(Tally<A>, Option<Rows>), NoMemory>
    ensures { IfOk result (λ beaten.
        AreBeatingOf problem.now plan.now verdict.now beaten.0.open_deals beaten.0.beaten beaten.1) }
{
    match verdict {
        Verdict::Holds => {
            let none = Tally {
                open_deals: 0,
                beaten: 0,
                rows: Vec::new(alloc),
            };
            Ok((none, None))
        }
        Verdict::Fails(_, _) => figures_of(alloc, problem, plan),
    }
}

/// Counts the deals that beat a plan. It fails if an allocation fails.
pub(crate) fn figures_of<A: Allocator, B: Allocator>(
    alloc: A,
    problem: &Problem,
    plan: &Plan<B>,
) -> Result<(Tally<A>, Option<Rows>), NoMemory>
    ensures { IfOk result (λ beaten.
        AreBeating problem.now plan.now beaten.0.open_deals beaten.0.beaten beaten.1) }
{
    let tally = tally_of(alloc, problem, plan)?;
    let hands = hands_of(problem, &tally);
    Ok((tally, hands))
}

// Returns rows that say which hands beat a plan, unless more than a tenth of all deals do.
fn hands_of<A: Allocator>(problem: &Problem, tally: &Tally<A>) -> Option<Rows>
    requires { (plan : List Node) × IsTally problem.now plan tally.now }
    ensures right { (plan : List Node) → IsTally problem.now plan tally.now
        → AreHandsOf problem.now plan tally.now.open_deals tally.now.beaten result }
    ensures bytes { (tally.now.open_deals < 2 ^ 32) × (tally.now.beaten < 2 ^ 32) }
{
    // The proof reads from this use that the number has four bytes.
    let _beaten = tally.beaten;
    if tally.open_deals / 10 < tally.beaten {
        None
    } else {
        Some(rows_of(problem, tally))
    }
}

/// Looks for another plan if the verdict on one is that it fails, and counts how many deals beat it, and each plan at
/// least. It fails if an allocation fails.
pub(crate) fn best_beside<A: Allocator + Copy>(
    alloc: A,
    problem: &Problem,
    verdict: &Verdict,
) -> Result<Best, AllocError>
    ensures { IfOk result (IsBest problem.now) }
{
    if let Verdict::Holds = verdict {
        return best_of(alloc, problem, None, None);
    }
    let mut advice = None;
    match try_plan(alloc, problem, problem, None, &mut advice) {
        Ok(tried) => {
            let Ok(tally) = tally_of(alloc, problem, &tried.plan) else {
                return Err(AllocError);
            };
            best_of(alloc, problem, Some(tally.beaten), advice)
        },
        Err(SearchFault::TooLarge) => best_of(alloc, problem, None, None),
        Err(SearchFault::NoMemory) => Err(AllocError),
    }
}

/// Counts how many deals beat each plan at least, by what the search for a plan was advised. Without advice these are
/// none. It fails if an allocation fails.
pub(crate) fn best_of<A: Allocator + Copy>(
    alloc: A,
    problem: &Problem,
    found: Option<u32>,
    advice: Option<Advice<A>>,
) -> Result<Best, AllocError>
    requires { IsFoundWith problem.now found }
    ensures { IfOk result (IsBest problem.now) }
{
    let Some(advice) = advice else {
        return Ok(Best {
            found,
            least: 0,
            is_for_all: false,
        });
    };
    let worth = worth_of(alloc, problem, &mut advice.guide(alloc)?)?;
    let unit = unit_of(problem) as u64;
    let times = worth.div_ceil(PARTS as u64 * unit);
    Ok(Best {
        found,
        least: times.saturating_mul(unit).min(u32::MAX as u64) as u32,
        is_for_all: is_for_all_players(problem),
    })
}

// What each plan loses at least, in parts of deals. Where suits may decide, it is counted in cases.
fn worth_of<A: Allocator + Copy>(
    alloc: A,
    problem: &Problem,
    guide: &mut Guide<'_, A>,
) -> Result<u64, AllocError>
    ensures plans { IfOk result (λ worth. (plan : List Node) (count : ℕ) → AreExactly (Beats problem.now plan) count
        → worth ≤ 16777216 * count) }
    ensures strategy { IsPoneToReach problem.now → IfOk result (IsStrategy event_of problem.now 16777216) }
{
    if is_for_all_players(problem) {
        return bound_of(alloc, problem, PARTS, guide);
    }
    bound_in_cases(alloc, problem, PARTS, guide)
}
