//! The greatest crib, and the greatest sum of the opponent's hand and the crib of one hidden deal.
ghost use Rattle.std.specs.Prelude.{◌≡◌, ◌⊎◌, ◌+◌, ◌≤◌, ◌∷◌, ◌++◌, [], IsFalse, IsTrue};
ghost use Rattle.crib_cards.specs.Cards.{IsRank};
ghost use Rattle.crib_show.specs.Private.Extremes.{most_suit_points};
ghost use Rattle.crib_show.specs.Private.Totals.{NoneScores, SomeScores, card_scores, ranks_score, target_points};
ghost use Rattle.crib_show.specs.Private.Totals.{throw_scores};
ghost use Rattle.crib_show.specs.Show.{crib_points};
ghost use Rattle.crib_show.specs.Worst.{ArePlain, HasDeal, IsGreatestCrib, IsGreatestTotal};

use crate::deals::{PlainCribs, WorstShow};
use crate::show::points::{crib_flush, jack_points};
use crate::worst::cribs::{MOST_OF_SUITS, plain_cribs};
use crate::worst::hands::{know_set, rank_numbered};
use crib_cards::{Card, Rank, Suit};

/// The points that the search makes as great as possible.
#[derive(Clone, Copy)]
pub enum Target {
    /// Those of the crib.
    Crib,
    /// Those of the crib, and the most that suits add to the opponent's hand of these ranks.
    CribAndHand([Rank; 4]),
}

// The opponent's throws, and the points to make as great as possible among them. `suit_bonus` is the most points that
// suits add to the hand.
#[derive(Drop)]
struct Throws<'a> {
    worst: &'a WorstShow,
    plain: &'a PlainCribs,
    aim: &'a Target,
    suit_bonus: u8,
    ghost points: { ArePlain worst.now.starter worst.now.own_throw plain.now },
    ghost range: { suit_bonus ≤ 6 },
}

impl WorstShow {
    /// The greatest sum of the opponent's hand and the crib of one hidden deal, in points. Some hidden deal must agree.
    pub fn most_total(&self) -> u8
        requires { HasDeal self.now }
        ensures { IsGreatestTotal self.now result }
    {
        let plain = plain_cribs(&self.own_throw, self.starter);
        self.greatest_total(&plain, self.greatest_crib(&plain))
    }

    // The points of the greatest crib among the hidden deals that agree. Some hidden deal must agree.
    #[inline(never)]
    pub(crate) fn greatest_crib(&self, plain: &PlainCribs) -> u8
        requires deal { HasDeal self.now }
        requires plain { ArePlain self.now.starter self.now.own_throw plain.now }
        ensures { IsGreatestCrib self.now result }
    {
        know_set(self.unseen);
        self.most_points(plain, &Target::Crib, 0, self.high_crib(plain))
    }

    // The same as [`WorstShow::most_total`]. `crib` is the points of the greatest crib.
    pub(crate) fn greatest_total(&self, plain: &PlainCribs, crib: u8) -> u8
        requires deal { HasDeal self.now }
        requires plain { ArePlain self.now.starter self.now.own_throw plain.now }
        requires crib { IsGreatestCrib self.now crib }
        ensures { IsGreatestTotal self.now result }
    {
        know_set(self.unseen);
        know_set(self.fixed);
        let hand = self.ranks_hand();
        let aim = Target::CribAndHand(hand.ranks);
        hand.plain + self.most_points(plain, &aim, hand.suits, crib + hand.suits)
    }

    // The greatest number up to `bound` for which some throw scores at least this many of these points, or 0.
    // `suit_bonus` is the most points that suits add to the hand.
    fn most_points(&self, plain: &PlainCribs, aim: &Target, suit_bonus: u8, bound: u8) -> u8
        requires plain { ArePlain self.now.starter self.now.own_throw plain.now }
        requires range { suit_bonus ≤ 6 }
        ensures some { (result ≡ 0) ⊎ SomeScores self.now aim.now suit_bonus result }
        ensures all { (result ≡ bound) ⊎ NoneScores self.now aim.now suit_bonus (result + 1) }
        ensures range { result ≤ bound }
    {
        let throws = Throws {
            worst: self,
            plain,
            aim,
            suit_bonus,
        };
        let mut most = bound;
        while most > 0 && !throws.any_throw_scores(most) {
            most -= 1;
        }
        most
    }

    // The points of the crib with these two cards thrown. Those of the ranks come from `plain`.
    pub(crate) fn crib_of_throw(&self, plain: &PlainCribs, first: Card, second: Card) -> u8
        requires { ArePlain self.now.starter self.now.own_throw plain.now }
        ensures value { result ≡ crib_points (self.now.own_throw ++ first ∷ second ∷ []) self.now.starter }
        ensures range { result ≤ 102 }
    {
        let crib = self.crib_with(first, second);
        plain.of(first.rank(), second.rank())
            + crib_flush(&crib, self.starter)
            + jack_points(&crib, self.starter)
    }
}

impl Throws<'_> {
    // Whether some throw of two ranks gives at least `wanted` points.
    fn any_throw_scores(&self, wanted: u8) -> bool
        ensures some { IsTrue result → SomeScores self.now.worst.now self.now.aim.now self.now.suit_bonus wanted }
        ensures none { IsFalse result → NoneScores self.now.worst.now self.now.aim.now self.now.suit_bonus wanted }
    {
        for first in 1..14 {
            for second in first..14 {
                if self.ranks_score(wanted, rank_numbered(first), rank_numbered(second)) {
                    return true;
                }
            }
        }
        false
    }

    // Whether some throw of these two ranks gives at least `wanted` points. A bound is tried first: the points of the
    // ranks, the most that suits add to the crib, and `suit_bonus`.
    fn ranks_score(&self, wanted: u8, first: Rank, second: Rank) -> bool
        requires { IsRank first × IsRank second }
        ensures { result ≡ ranks_score self.now.worst.now self.now.aim.now self.now.suit_bonus wanted first second }
    {
        let points = self.plain.of(first, second);
        if points + MOST_OF_SUITS + self.suit_bonus < wanted {
            return false;
        }
        wanted <= points + self.worst.most_crib_suits(first, second) + self.suit_bonus
            && self.worst.has_room(first, second)
            && (self.card_scores(wanted, Card::of(first, Suit::Clubs), second)
                || self.card_scores(wanted, Card::of(first, Suit::Diamonds), second)
                || self.card_scores(wanted, Card::of(first, Suit::Hearts), second)
                || self.card_scores(wanted, Card::of(first, Suit::Spades), second))
    }

    // Whether this card may be thrown with one of the rank, and some such throw gives at least `wanted` points.
    fn card_scores(&self, wanted: u8, first: Card, rank: Rank) -> bool
        ensures { result ≡ card_scores self.now.worst.now self.now.aim.now wanted first rank }
    {
        self.worst.is_free(first)
            && (self.throw_scores(wanted, first, Card::of(rank, Suit::Clubs))
                || self.throw_scores(wanted, first, Card::of(rank, Suit::Diamonds))
                || self.throw_scores(wanted, first, Card::of(rank, Suit::Hearts))
                || self.throw_scores(wanted, first, Card::of(rank, Suit::Spades)))
    }

    // Whether the second card may be thrown with the first, and this throw gives at least `wanted` points.
    fn throw_scores(&self, wanted: u8, first: Card, second: Card) -> bool
        ensures { result ≡ throw_scores self.now.worst.now self.now.aim.now wanted first second }
    {
        self.worst.is_free(second)
            && first.number() != second.number()
            && wanted <= self.target_points(first, second)
    }

    // The points to make as great as possible, with these two cards thrown.
    fn target_points(&self, first: Card, second: Card) -> u8
        ensures { result ≡ target_points self.now.worst.now self.now.aim.now first second }
    {
        let crib = self.worst.crib_of_throw(self.plain, first, second);
        match self.aim {
            Target::Crib => crib,
            Target::CribAndHand(ranks) => {
                // The opponent can't hold the two thrown cards.
                let show = WorstShow {
                    unseen: self.worst.unseen.without(first).without(second),
                    ..*self.worst
                };
                crib + show.most_suit_points(ranks)
            }
        }
    }
}
