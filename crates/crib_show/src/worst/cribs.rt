//! The least crib of the hidden deals that agree, and a bound on the greatest.
ghost use Rattle.std.specs.Prelude.{◌≡◌, ℕ, ◌+◌, ◌≤◌, List, ◌∷◌, ◌++◌, IsTrue, length, map, min};
ghost use Rattle.std.specs.List.{AllByRecursion};
ghost use Rattle.crib_cards.specs.Cards.{IsRank, rank_of};
ghost use Rattle.crib_show.specs.Private.Extremes.{crib_with, has_room, is_free};
ghost use Rattle.crib_show.specs.Private.Extremes.{least_of_ranks, least_suits, least_suits_with, may_throw_flush};
ghost use Rattle.crib_show.specs.Private.Extremes.{may_throw_jack, most_crib_suits};
ghost use Rattle.crib_show.specs.Private.Extremes.{plain_crib, thrown_suits};
ghost use Rattle.crib_show.specs.Show.{crib_points};
ghost use Rattle.crib_show.specs.Worst.{AgreesInShow, ArePlain, HasDeal, IsLeastCrib, hidden_crib, plain_with};
ghost use Rattle.crib_cards.specs.declared.sides.Dealt.{Dealt};

use crate::deals::{PlainCribs, WorstShow};
use crate::show::points::{
    JACK, are_of_suit, crib_flush, jack_points, plain_of_ranks, three_fifteen_points,
    three_pair_points,
};
use crate::worst::hands::{know_set, rank_numbered};
use crib_cards::{Card, Rank, Suit};

// A lower bound on the points of the crib in every hidden deal: those of the fifteens and the pairs among the starter
// and the owner's throw, and 1 if the throw has the jack of the starter's suit.
pub(crate) fn known_crib(throw: &[Card; 2], starter: Card) -> u8
    ensures low { (theirs : List ℕ) → result ≤ crib_points (throw.now ++ theirs) starter }
    ensures two { length throw.now ≡ 2 }
    ensures ranks { AllByRecursion IsRank (map rank_of (starter ∷ throw.now)) }
{
    let [first, second] = *throw;
    let known = [starter.rank(), first.rank(), second.rank()];
    three_fifteen_points(&known) + three_pair_points(&known) + jack_points(throw, starter)
}

// The points of fifteens, pairs and runs of the crib, for each two ranks that the opponent may throw. They are computed
// once for a problem, so the function is kept out of those that use what is kept.
#[inline(never)]
pub(crate) fn plain_cribs(throw: &[Card; 2], starter: Card) -> PlainCribs
    ensures { ArePlain starter throw.now result }
{
    let mut points = [0; 169];
    for index in 0..PAIRS {
        let first = rank_numbered(index / 13 + 1);
        let second = rank_numbered(index % 13 + 1);
        points[index as usize] = plain_with(throw, starter, first, second);
    }
    PlainCribs { points }
}

// The points of fifteens, pairs and runs of the crib with these two ranks thrown.
fn plain_with(throw: &[Card; 2], starter: Card, first: Rank, second: Rank) -> u8
    ensures value { result ≡ plain_with starter throw.now first second }
    ensures range { result ≤ 96 }
{
    let [third, fourth] = *throw;
    plain_of_ranks(&[starter.rank(), third.rank(), fourth.rank(), first, second])
}

// How many pairs of ranks there are, each in both orders.
const PAIRS: u8 = 169;

// The most points that suits add to a crib: 5 for a flush, and 1 for the jack.
pub(crate) const MOST_OF_SUITS: u8 = 6;

// More points than any crib has. It marks a throw that is not possible.
const NO_CRIB: u8 = 255;

impl WorstShow {
    /// The points of the least crib among the hidden deals that agree. Some hidden deal must agree.
    pub fn least_crib(&self) -> u8
        requires { HasDeal self.now }
        ensures { IsLeastCrib self.now result }
    {
        self.low_crib(&plain_cribs(&self.own_throw, self.starter))
    }

    // The same as [`WorstShow::least_crib`]. The points of the ranks come from `plain`.
    pub(crate) fn low_crib(&self, plain: &PlainCribs) -> u8
        requires deal { HasDeal self.now }
        requires plain { ArePlain self.now.starter self.now.own_throw plain.now }
        ensures { IsLeastCrib self.now result }
    {
        know_set(self.unseen);
        let mut least = NO_CRIB;
        for first in 1..14 {
            for second in first..14 {
                let (first, second) = (rank_numbered(first), rank_numbered(second));
                least = self.least_with_pair(plain, first, second, least);
            }
        }
        least
    }

    // An upper bound on the points of the crib among the hidden deals that agree: the most that two ranks and their
    // suits may give.
    pub(crate) fn high_crib(&self, plain: &PlainCribs) -> u8
        requires { ArePlain self.now.starter self.now.own_throw plain.now }
        ensures { (dealt : Dealt) → AgreesInShow self.now dealt → hidden_crib self.now dealt ≤ result }
    {
        know_set(self.unseen);
        let mut most = 0;
        for first in 1..14 {
            for second in first..14 {
                let (first, second) = (rank_numbered(first), rank_numbered(second));
                most = self.most_with_pair(plain, first, second, most);
            }
        }
        most
    }

    // The greater of `most` and the most points that a throw of these two ranks may give to the crib. It is `most` if
    // no such throw is left.
    fn most_with_pair(&self, plain: &PlainCribs, first: Rank, second: Rank, most: u8) -> u8
        requires plain { ArePlain self.now.starter self.now.own_throw plain.now }
        requires ranks { IsRank first × IsRank second }
        ensures kept { most ≤ result }
        ensures raised { IsTrue (has_room self.now first second)
            → plain_crib self.now first second + most_crib_suits self.now first second ≤ result }
    {
        let points = plain.of(first, second);
        if points + MOST_OF_SUITS <= most || !self.has_room(first, second) {
            most
        } else {
            most.max(points + self.most_crib_suits(first, second))
        }
    }

    // The most points that suits may add to the crib with these two ranks thrown.
    pub(crate) fn most_crib_suits(&self, first: Rank, second: Rank) -> u8
        ensures value { result ≡ most_crib_suits self.now first second }
        ensures range { result ≤ 6 }
    {
        5 * self.may_throw_flush(first, second) as u8 + self.may_throw_jack(first, second) as u8
    }

    // Whether the crib may be of the starter's suit with these two ranks thrown.
    fn may_throw_flush(&self, first: Rank, second: Rank) -> bool
        ensures { result ≡ may_throw_flush self.now first second }
    {
        let suit = self.starter.suit();
        are_of_suit(self.starter, &self.own_throw)
            && first.number() != second.number()
            && self.is_free(Card::of(first, suit))
            && self.is_free(Card::of(second, suit))
    }

    // Whether the crib may have the jack of the starter's suit with these two ranks thrown.
    fn may_throw_jack(&self, first: Rank, second: Rank) -> bool
        ensures { result ≡ may_throw_jack self.now first second }
    {
        let jack = Card::of(rank_numbered(JACK), self.starter.suit());
        self.own_throw.contains(&jack)
            || (first.number() == JACK || second.number() == JACK) && self.is_free(jack)
    }

    // The smaller of `least` and the points of the least crib with these two ranks thrown.
    fn least_with_pair(&self, plain: &PlainCribs, first: Rank, second: Rank, least: u8) -> u8
        requires plain { ArePlain self.now.starter self.now.own_throw plain.now }
        requires ranks { IsRank first × IsRank second }
        ensures { result ≡ min least (least_of_ranks self.now first second) }
    {
        let points = plain.of(first, second);
        if points >= least || !self.has_room(first, second) {
            return least;
        }
        least.min(points.saturating_add(self.least_suits(first, second)))
    }

    // Whether enough unseen cards of these two ranks are left for the throw, after the hold has its ranks.
    pub(crate) fn has_room(&self, first: Rank, second: Rank) -> bool
        ensures { result ≡ has_room self.now first second }
    {
        if first.number() == second.number() {
            self.unseen.count_rank(first).saturating_sub(1) > self.ranks.of(first)
        } else {
            self.unseen.count_rank(first) > self.ranks.of(first)
                && self.unseen.count_rank(second) > self.ranks.of(second)
        }
    }

    // The four cards of the crib with these two cards thrown.
    pub(crate) fn crib_with(&self, third: Card, fourth: Card) -> [Card; 4]
        ensures { result ≡ crib_with self.now third fourth }
    {
        let [first, second] = self.own_throw;
        [first, second, third, fourth]
    }

    // The least points that suits add to the crib with these two ranks thrown. It stops once it has found 0.
    fn least_suits(&self, first: Rank, second: Rank) -> u8
        ensures { result ≡ least_suits self.now first second }
    {
        let clubs = self.least_suits_with(Card::of(first, Suit::Clubs), second);
        if clubs == 0 {
            return 0;
        }
        clubs
            .min(self.least_suits_with(Card::of(first, Suit::Diamonds), second))
            .min(self.least_suits_with(Card::of(first, Suit::Hearts), second))
            .min(self.least_suits_with(Card::of(first, Suit::Spades), second))
    }

    // The least points that suits add to the crib with this card and one of the rank thrown.
    fn least_suits_with(&self, first: Card, rank: Rank) -> u8
        ensures { result ≡ least_suits_with self.now first rank }
    {
        if !self.is_free(first) {
            return NO_CRIB;
        }
        let clubs = self.thrown_suits(first, Card::of(rank, Suit::Clubs));
        if clubs == 0 {
            return 0;
        }
        clubs
            .min(self.thrown_suits(first, Card::of(rank, Suit::Diamonds)))
            .min(self.thrown_suits(first, Card::of(rank, Suit::Hearts)))
            .min(self.thrown_suits(first, Card::of(rank, Suit::Spades)))
    }

    // The points that suits add to the crib with these two cards thrown, or `NO_CRIB` if they cannot be thrown.
    fn thrown_suits(&self, first: Card, second: Card) -> u8
        ensures { result ≡ thrown_suits self.now first second }
    {
        if self.is_free(first) && self.is_free(second) && first.number() != second.number() {
            let crib = self.crib_with(first, second);
            crib_flush(&crib, self.starter) + jack_points(&crib, self.starter)
        } else {
            NO_CRIB
        }
    }

    // Whether a card may be thrown: it is unseen and not fixed.
    pub(crate) fn is_free(&self, card: Card) -> bool
        ensures { result ≡ is_free self.now card }
    {
        self.unseen.has(card) && !self.fixed.has(card)
    }
}
