//! Which cards fit at a count: those with which the count is at most 31.
ghost use Rattle.std.specs.Prelude.{◌≡◌};
ghost use Rattle.std.specs.List.{list_any};
ghost use Rattle.crib_play.specs.Fitting.{fits_at};

use crib_cards::{Card, CardSet};

/// Whether a card fits at this count: the count with it is at most 31.
pub fn fits(card: Card, count: u8) -> bool
    ensures { result ≡ fits_at count card }
{
    count.saturating_add(card.rank().value()) <= 31
}

/// Whether some card of the set fits at this count. False for the empty set.
pub fn any_fits(cards: CardSet, count: u8) -> bool
    ensures { result ≡ list_any (fits_at count) cards }
{
    match cards.lowest() {
        // The lowest card has the least value.
        Some(lowest) => fits(lowest, count),
        None => false,
    }
}
