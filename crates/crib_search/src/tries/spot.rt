//! Where a walk is among the places at which the owner has a choice.

use crib_cards::Letter;

/// Where a walk is after the last card that the owner chose: the letters since the beginning are the digits of its key.
#[derive(Clone, Copy)]
pub struct Spot {
    /// The least key of a place from here on.
    pub(crate) key: u64,
    // How many keys there are from here on.
    span: u64,
    /// The index of the first place that may lie ahead.
    pub(crate) next: usize,
    /// The index past the last one.
    pub(crate) end: usize,
}

impl Spot {
    /// The spot after the opening, if these places lie ahead. Its span is 14 to the power of 16: the opponent has fewer
    /// turns.
    pub(crate) fn at(next: usize, end: usize) -> Spot {
        Spot {
            key: 0,
            span: 2_177_953_337_809_371_136,
            next,
            end,
        }
    }

    /// The spot after a letter of the opponent.
    pub fn after_letter(&self, letter: Letter) -> Spot {
        let span = self.span / 14;
        let key = self
            .key
            .saturating_add(span.saturating_mul(u64::from(letter.index())));
        Spot { key, span, ..*self }
    }

    /// The letter that leads on to a key.
    pub(crate) fn letter_to(&self, key: u64) -> Letter {
        let span = (self.span / 14).max(1);
        let index = key.saturating_sub(self.key) / span;
        if index < 13 {
            Letter::at(index as u8)
        } else {
            Letter::Go
        }
    }

    /// The spot after a card of the owner, if these places lie ahead.
    pub(crate) fn after_card(&self, next: usize, end: usize) -> Spot {
        Spot { next, end, ..*self }
    }

    /// The first key past those from here on.
    pub(crate) fn last(&self) -> u64 {
        self.key.saturating_add(self.span)
    }
}
