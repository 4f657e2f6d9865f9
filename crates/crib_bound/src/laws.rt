//! The laws of bounds. The function does nothing, and its contract is the laws.
ghost use Rattle.crib_play.specs.History.{event_of};
ghost use Rattle.crib_bound.specs.Laws.{NoPlanLaw, NoPlayerLaw, PlanLaw, PlayerLaw, RanksLaw, SameDealsLaw, SuitsLaw};
ghost use Rattle.crib_bound.specs.Laws.{whole};

/// At least as many deals beat each player, and each plan, as a strategy of the opponent is worth.
///
/// - `player`: a player who sees all cards that were shown, by a strategy that sees them too.
/// - `by_ranks`: a player who sees no suits of the opponent's cards, by a strategy that sees none.
/// - `all_players`: any player, by a strategy that sees no suits, if the owner is the pone and the goal isn't to stop.
/// - `plan`: a plan, by a strategy that sees no suits of the opponent's cards.
/// - `plan_by_cards`: a plan, by a strategy that sees all cards that were shown.
/// - `same`: a deal beats a plan exactly if it beats the player who follows the plan.
/// - `no_plan`, `no_player`: a strategy that is worth something leaves no plan, or no player, sure.
pub fn bound_law()
    ensures player { PlayerLaw }
    ensures by_ranks { RanksLaw }
    ensures all_players { SuitsLaw }
    ensures plan { PlanLaw event_of }
    ensures plan_by_cards { PlanLaw whole }
    ensures same { SameDealsLaw }
    ensures no_plan { NoPlanLaw }
    ensures no_player { NoPlayerLaw }
{}
