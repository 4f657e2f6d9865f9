//! What is counted in a show.
ghost use Rattle.std.specs.Prelude.{◌≡◌};
ghost use Rattle.crib_game_sheet.specs.GameShow.{no_combination, points_of};

use arrayvec::ArrayVec;
use crib_cards::Card;

/// The kinds of combinations in a hand or in the crib.
#[derive(Clone, Copy, PartialEq, Eq, Debug)]
pub enum Kind {
    /// Cards whose values add up to 15.
    Fifteen,
    /// Two cards of one rank.
    Pair,
    /// Three or more ranks in a row.
    Run,
    /// Four or five cards of one suit.
    Flush,
    /// The jack of the starter's suit.
    Jack,
}

/// Cards that count together in a show.
#[derive(Drop)]
pub struct Combination {
    /// What they make.
    pub kind: Kind,
    /// The cards, in the order of the hand.
    pub cards: ArrayVec<Card, 5>,
}

impl Default for Combination {
    ghost is_default = { λ combination. combination ≡ no_combination };

    /// Returns a fifteen of no cards. It fills the unused entries of a list.
    fn default() -> Self {
        Combination {
            kind: Kind::Fifteen,
            cards: ArrayVec::new(),
        }
    }
}

impl Combination {
    /// Returns its points: 2 for a fifteen or a pair, one for each card of a run or a flush, and 1 for the jack.
    pub fn points(&self) -> u8
        ensures { result ≡ points_of self.now }
    {
        match self.kind {
            Kind::Fifteen | Kind::Pair => 2,
            Kind::Run | Kind::Flush => self.cards.len() as u8,
            Kind::Jack => 1,
        }
    }
}
