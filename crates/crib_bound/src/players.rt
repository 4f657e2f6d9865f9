//! Whether a strategy that sees no suits bounds the players who see suits.
ghost use Rattle.std.specs.Prelude.{◌↔◌, IsTrue};
ghost use Rattle.crib_bound.specs.Laws.{BoundsPlayers, IsPoneToReach};

use crib_cards::Side;
use crib_problem::Problem;

/// Returns whether the owner is the pone and the goal isn't to stop the opponent.
///
/// If so, a strategy that sees no suits is worth no more for a player who sees them (`players`).
pub fn is_for_all_players(problem: &Problem) -> bool
    ensures exact { IsTrue result ↔ IsPoneToReach problem.now }
    ensures players { IsTrue result → BoundsPlayers problem.now }
{
    // The proof reads from this call that the problem is valid.
    let _target = problem.target();
    match problem.dealer() {
        Side::Opponent => !problem.is_to_stop(),
        Side::Owner => false,
    }
}
