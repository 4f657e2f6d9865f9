//! A number that divides how many deals beat a plan, or a player.
ghost use Rattle.std.specs.Prelude.{◌≤◌, IsFalse};
ghost use Rattle.crib_bound.specs.Laws.{IsUnit, IsUnitOfPlayers};
ghost use Rattle.crib_bound.specs.Private.HoldOutcomes.{IsByHold};

use crib_cards::Side;
use crib_know::Know;
use crib_problem::Problem;
use crib_show::ExtremesByRanks;

// With each hold the opponent may have thrown any two of the 41 other cards that the owner hasn't seen.
const THROWS: u32 = 820;

/// Returns a number of deals, 820 or 1: how many deals beat a plan is a multiple of it, whatever the plan.
///
/// So is how many beat a player, also one who sees suits (`players`).
///
/// A hold goes with 820 throws. If the crib can't decide whether the owner reaches the goal, a player is beaten by all
/// deals with a hold or by none of them. This is so if the crib is the opponent's and the goal isn't to stop them, as
/// the pone counts first. It is also so if the crib is the owner's and the goal is to stop the opponent, or the points
/// that the owner is sure of take them to the target: their score after the opening, or a point more than at the start
/// as the dealer always scores one in the play; their hand; and the fifteens, the pairs and the jack that the starter
/// and their throw make. No clause says when the number is 820.
pub fn unit_of(problem: &Problem) -> u32
    ensures multiple { IsUnit problem.now result }
    ensures players { IsUnitOfPlayers problem.now result }
    ensures some { 1 ≤ result }
    ensures few { result ≤ 820 }
{
    if may_crib_decide(problem) { 1 } else { THROWS }
}

// Whether the crib may decide if the owner reaches the goal.
fn may_crib_decide(problem: &Problem) -> bool
    ensures { IsFalse result → IsByHold problem.now }
{
    let target = problem.target();
    let is_to_stop = problem.is_to_stop();
    let own = ExtremesByRanks::new(&problem.hold(), &problem.thrown(), problem.starter()).own;
    let before = problem.scores();
    let opening = Know::start(problem).round().scores();
    let pegged = opening.owner.max(before.owner + 1);
    let least = pegged.saturating_add(own.hand).saturating_add(own.crib);
    match problem.dealer() {
        Side::Opponent => is_to_stop,
        Side::Owner => !is_to_stop && least < target,
    }
}
