//! The laws of equality for card sets and rank counts. The function does nothing; its contract states the laws.
ghost use Rattle.std.specs.Bool.{Decides};
ghost use Rattle.std.specs.Prelude.{◌≡◌, ℕ, List};
ghost use Rattle.crib_cards.specs.Sets.{IsCardSet};

use crate::counts::RankCounts;
use crate::sets::CardSet;

/// `==` is true exactly if two values are the same.
///
/// - `sets`: two sets of cards are equal exactly if they have the same cards. The law is about lists that are sets;
///   each `CardSet` is one, as [`CardSet::lowest`] states.
/// - `counts`: two `RankCounts` are equal exactly if the count of each rank is the same.
pub fn equal_law()
    ensures sets { (one other : List ℕ) → IsCardSet one → IsCardSet other →
        Decides (⟦<CardSet as PartialEq>⟧.eq one other) (one ≡ other) }
    ensures counts { (one other : List ℕ) → Decides (⟦<RankCounts as PartialEq>⟧.eq one other) (one ≡ other) }
{}
