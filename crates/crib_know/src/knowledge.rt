//! What the owner knows, in two halves: what the owner sees, and what the opponent has shown.
ghost use Rattle.std.specs.Prelude.{◌≡◌};

use crib_cards::{CardSet, RankCounts};
use crib_play::Round;

/// What the owner sees: the round, the owner's cards left, the unseen cards and the fixed cards.
///
/// Only the round and the owner's cards left are hashed, because the others are the same throughout a problem.
#[derive(PartialEq, Eq, Drop)]
#[derive_where(Hash)]
pub struct Sight {
    /// What lies on the table, and the player to move.
    pub round: Round,
    /// The owner's cards that have not been played.
    pub own_left: CardSet,
    /// The cards that the owner does not see at the first lead.
    #[derive_where(skip(Hash))]
    pub unseen: CardSet,
    /// The fixed cards: those that the opponent played in the opening. The owner knows them with their suits.
    #[derive_where(skip(Hash))]
    pub fixed: CardSet,
}

/// What the opponent has shown of their four cards.
#[derive(Clone, Copy, PartialEq, Eq)]
#[derive_where(Hash)]
pub struct Shown {
    /// How many cards of each rank the opponent has played.
    pub ranks_seen: RankCounts,
    /// How many cards the opponent has left, 0 to 4.
    #[derive_where(skip(Hash))]
    pub opponent_left: u8,
    /// The least value that each card left to the opponent can have, 1 to 10.
    pub least: u8,
}

impl Sight {
    // A copy of the value.
    pub(crate) fn copy(&self) -> Self
        ensures { result ≡ self.now }
    {
        Sight {
            round: self.round.copy(),
            own_left: self.own_left,
            unseen: self.unseen,
            fixed: self.fixed,
        }
    }
}
