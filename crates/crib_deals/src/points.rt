//! The points of a hand for its ranks, and for its suits.
ghost use Rattle.std.specs.Prelude.{◌≡◌, ◌≤◌, ◌∷◌};
ghost use Rattle.crib_cards.specs.Cards.{rank_of};
ghost use Rattle.crib_show.specs.Show.{plain_of_ranks};
ghost use Rattle.crib_deals.specs.Tables.{suit_points};

use crib_cards::{Card, Rank};
use crib_show::{hand_flush, jack_points, plain_of_ranks};

/// The points of a hand with these ranks, without those of suits.
pub(crate) fn plain_points(ranks: &[Rank; 4], starter: Card) -> u8
    ensures value { result ≡ plain_of_ranks (rank_of starter ∷ ranks.now) }
    ensures range { result ≤ 96 }
{
    let [first, second, third, fourth] = *ranks;
    plain_of_ranks(&[starter.rank(), first, second, third, fourth])
}

/// The points of a hand for its suits: its flush, and the jack of the starter's suit.
pub(crate) fn suit_points(hold: &[Card; 4], starter: Card) -> u8
    ensures value { result ≡ suit_points hold.now starter }
    ensures range { result ≤ 6 }
{
    hand_flush(hold, starter) + jack_points(hold, starter)
}
