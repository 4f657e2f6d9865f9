//! What the opponent's cards must count in the show.
ghost use Rattle.std.specs.Prelude.{◌≡◌, ◌⊎◌, ℕ, ◌+◌, ◌≤◌, ◌&&◌, ◌++◌, ◌↔◌, IsTrue, IsFalse};
ghost use Rattle.crib_cards.specs.Sides.{are_decided};
ghost use Rattle.crib_show.specs.Outcome.{outcome_of};
ghost use Rattle.crib_show.specs.Show.{crib_points, hand_points};
ghost use Rattle.crib_show.specs.declared.deals.Full.{Full};
ghost use Rattle.crib_show.specs.declared.show.outcomes.Outcome.TheVariants.{Reached};
ghost use Rattle.crib_show.specs.Demands.{IsMetByAll, IsMetByNone, IsShowAt, is_met};

use crate::show::MOST_POINTS;
use crib_cards::{GAME_HOLE, Scores, Side};

/// What the opponent's hand and the crib must count, in points, so that the owner reaches the goal.
#[derive(Clone, Copy, PartialEq, Eq)]
pub struct Demand {
    /// The most points of the opponent's hand.
    pub hand: u8,
    /// The most points of the opponent's hand and of the crib together.
    pub total: u8,
    /// The least points of the crib.
    pub crib: u8,
}

impl Demand {
    /// Returns the demand that each hand and crib meet whose points together a byte can hold.
    pub fn none() -> Self
        ensures { (hand crib : ℕ) → hand + crib ≤ 255 → IsTrue (is_met result hand crib) }
    {
        Demand {
            hand: u8::MAX,
            total: u8::MAX,
            crib: 0,
        }
    }

    /// Returns the demand that no hand and crib meet, whatever their points are.
    pub fn impossible() -> Self
        ensures { (hand crib : ℕ) → IsFalse (is_met result hand crib) }
    {
        Demand {
            hand: 0,
            total: 0,
            crib: 255,
        }
    }

    /// Whether no deal meets the demand. Its hand and its crib have at most 29 points each.
    #[inline]
    pub fn is_impossible(self) -> bool
        ensures { IsTrue result ↔ IsMetByNone self }
    {
        self.total.min(MOST_POINTS) < self.crib
    }

    /// Returns the demand that a deal meets exactly if it meets both.
    pub fn and(self, other: Demand) -> Self
        ensures { (hand crib : ℕ) → is_met result hand crib ≡ (is_met self hand crib && is_met other hand crib) }
    {
        Demand {
            hand: self.hand.min(other.hand),
            total: self.total.min(other.total),
            crib: self.crib.max(other.crib),
        }
    }

    /// Whether a hand and a crib of so many points meet the demand.
    #[inline]
    pub fn is_met(self, hand: u8, crib: u8) -> bool
        ensures { result ≡ is_met self hand crib }
    {
        hand <= self.hand && hand <= self.total && crib <= self.total - hand && self.crib <= crib
    }

    /// Whether each deal meets the demand. Its hand and its crib have at most 29 points each.
    #[inline]
    pub fn is_met_by_all(self) -> bool
        ensures { IsTrue result ↔ IsMetByAll self }
    {
        self.is_met(MOST_POINTS, MOST_POINTS) && self.crib == 0
    }
}

/// Returns what the show demands, at these scores before it, where the owner's hand has `own_hand` points.
///
/// A deal with such a show meets the demand exactly if the owner reaches the goal. If the scores decide, all deals meet
/// the demand or none does.
#[inline]
pub fn demand_of_show(
    dealer: Side,
    scores: Scores,
    target: u8,
    is_to_stop: bool,
    own_hand: u8,
) -> Demand
    ensures show { (full : Full) → IsShowAt dealer scores target is_to_stop own_hand full
        → (IsTrue (is_met result (hand_points full.opp.hold full.starter)
        (crib_points (full.own_throw ++ full.opp.throw) full.starter)) ↔ (outcome_of full ≡ Reached)) }
    ensures decided { IsTrue (are_decided target scores) → IsMetByAll result ⊎ IsMetByNone result }
{
    if scores.owner >= target {
        return Demand::none();
    }
    if scores.opponent >= GAME_HOLE {
        return Demand::impossible();
    }
    let room = GAME_HOLE - 1 - scores.opponent;
    let counted = scores.with(Side::Owner, own_hand).owner;
    match dealer {
        Side::Opponent if counted >= target => Demand::none(),
        Side::Opponent if is_to_stop => Demand {
            hand: 255,
            total: room,
            crib: 0,
        },
        Side::Opponent => Demand::impossible(),
        Side::Owner if is_to_stop => Demand {
            hand: room,
            total: 255,
            crib: 0,
        },
        Side::Owner if target > GAME_HOLE => Demand::impossible(),
        Side::Owner => Demand {
            hand: room,
            total: 255,
            crib: target.saturating_sub(counted),
        },
    }
}
