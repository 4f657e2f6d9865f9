//! The greatest hand that the opponent may have.
ghost use Rattle.std.specs.Prelude.{◌≡◌, ◌+◌, ◌<◌, ◌≤◌, ◌∷◌, length, slice_index};
ghost use Rattle.std.specs.List.{list_all};
ghost use Rattle.crib_cards.specs.Cards.{IsRank, rank_of, suit_number};
ghost use Rattle.crib_cards.specs.Sets.{IsCardSet, are_distinct, has};
ghost use Rattle.crib_show.specs.Private.Extremes.{may_be_hold, may_have_jack, most_suit_points, ranks_from};
ghost use Rattle.crib_show.specs.Private.Extremes.{cards_in_suit, suited_points};
ghost use Rattle.crib_show.specs.Show.{plain_of_ranks};
ghost use Rattle.crib_show.specs.Worst.{HasDeal, IsGreatestHand};

use crate::deals::WorstShow;
use crate::show::points::{JACK, hand_flush, jack_points, plain_of_ranks, with_starter};
use crate::worst::listing::has_all;
use crib_cards::{Card, CardSet, Rank, Suit};

/// The points of the opponent's greatest hand, by ranks and suits.
#[derive(Clone, Copy)]
pub struct RanksHand {
    /// The ranks, from the lowest to the highest.
    pub ranks: [Rank; 4],
    /// The points of fifteens, pairs and runs.
    pub plain: u8,
    /// The most points that suits can add.
    pub suits: u8,
}

impl WorstShow {
    /// The points of the greatest hand among the hidden deals that agree, at most 102. Some hidden deal must agree.
    pub fn worst_hand(&self) -> u8
        requires { HasDeal self.now }
        ensures greatest { IsGreatestHand self.now result }
        ensures range { result ≤ 102 }
    {
        know_set(self.unseen);
        know_set(self.fixed);
        let hand = self.ranks_hand();
        hand.plain + hand.suits
    }

    // The opponent's ranks, their points, and the most points that suits can add. Some hidden deal must agree.
    pub(crate) fn ranks_hand(&self) -> RanksHand
        requires { HasDeal self.now }
        ensures ranks { result.ranks ≡ ranks_from 1 self.now.ranks }
        ensures plain { result.plain ≡ plain_of_ranks (rank_of self.now.starter ∷ ranks_from 1 self.now.ranks) }
        ensures suits { result.suits ≡ most_suit_points self.now (ranks_from 1 self.now.ranks) }
        ensures range { (result.plain ≤ 96) × (result.suits ≤ 6) }
    {
        know_set(self.unseen);
        know_set(self.fixed);
        let ranks = self.four_ranks();
        RanksHand {
            ranks,
            plain: plain_of_ranks(&with_starter(&ranks, self.starter)),
            suits: self.most_suit_points(&ranks),
        }
    }

    // The opponent's four ranks, from the lowest to the highest.
    fn four_ranks(&self) -> [Rank; 4]
        requires { (length (ranks_from 1 self.now.ranks) ≡ 4) × (length self.now.ranks ≡ 13) }
        ensures { result ≡ ranks_from 1 self.now.ranks }
    {
        let counts = self.ranks.as_slice();
        [
            rank_at(counts, 1, 0),
            rank_at(counts, 1, 1),
            rank_at(counts, 1, 2),
            rank_at(counts, 1, 3),
        ]
    }

    // The most points that suits can add to the opponent's hand of these ranks.
    pub(crate) fn most_suit_points(&self, ranks: &[Rank; 4]) -> u8
        ensures value { result ≡ most_suit_points self.now ranks.now }
        ensures range { result ≤ 6 }
    {
        let jack = self.may_have_jack() as u8;
        jack.max(self.suited_points(ranks, Suit::Clubs))
            .max(self.suited_points(ranks, Suit::Diamonds))
            .max(self.suited_points(ranks, Suit::Hearts))
            .max(self.suited_points(ranks, Suit::Spades))
    }

    // The points that suits add if the opponent's hold is in one suit, or 0 if these four cards can't be the hold.
    fn suited_points(&self, ranks: &[Rank; 4], suit: Suit) -> u8
        ensures value { result ≡ suited_points self.now ranks.now (suit_number suit) }
        ensures range { result ≤ 6 }
    {
        let cards = cards_in_suit(ranks, suit);
        if self.may_be_hold(&cards) {
            hand_flush(&cards, self.starter) + jack_points(&cards, self.starter)
        } else {
            0
        }
    }

    // Whether four cards of the opponent's ranks may be the opponent's hold: they are different and unseen, and the
    // fixed cards are among them.
    fn may_be_hold(&self, cards: &[Card; 4]) -> bool
        ensures { result ≡ may_be_hold self.now cards.now }
    {
        are_in(cards, self.unseen) && has_all(cards, self.fixed) && are_distinct(cards)
    }

    // Whether the opponent may hold the jack of the starter's suit.
    fn may_have_jack(&self) -> bool
        ensures { result ≡ may_have_jack self.now }
    {
        let rank = rank_numbered(JACK);
        let jack = Card::of(rank, self.starter.suit());
        self.unseen.has(jack)
            && (self.fixed.has(jack) || self.fixed.count_rank(rank) < self.ranks.of(rank))
    }
}

// The rank of the card at an index. `counts` has the rank counts from rank `first` on.
fn rank_at(counts: &[u8], first: u8, index: u8) -> Rank
    requires inside { index < length (ranks_from first counts.now) }
    requires ranks { (1 ≤ first) × (first + length counts.now ≤ 14) }
    ensures value { result ≡ slice_index (ranks_from first counts.now) index }
    ensures range { IsRank result }
{
    let Some((count, rest)) = counts.split_first() else {
        unreachable!()
    };
    if index < *count {
        rank_numbered(first)
    } else {
        rank_at(rest, first + 1, index - *count)
    }
}

// The rank of a number from 1 to 13.
pub(crate) fn rank_numbered(number: u8) -> Rank
    requires { IsRank number }
    ensures value { result ≡ number }
    ensures range { IsRank result }
{
    match Rank::new(number) {
        Some(rank) => rank,
        None => unreachable!(),
    }
}

fn cards_in_suit(ranks: &[Rank; 4], suit: Suit) -> [Card; 4]
    ensures { result ≡ cards_in_suit (suit_number suit) ranks.now }
{
    let [first, second, third, fourth] = *ranks;
    [
        Card::of(first, suit),
        Card::of(second, suit),
        Card::of(third, suit),
        Card::of(fourth, suit),
    ]
}

// Whether a set contains all of some cards.
fn are_in(cards: &[Card], set: CardSet) -> bool
    ensures { result ≡ list_all (has set) cards.now }
{
    cards.iter().all(|card| set.has(*card))
}

fn are_distinct(cards: &[Card]) -> bool
    ensures { result ≡ are_distinct cards.now }
{
    match cards.split_first() {
        None => true,
        Some((card, rest)) => !rest.contains(card) && are_distinct(rest),
    }
}

// Gives the prover the fact that a set has only cards of the pack, each once. It does nothing else.
pub(crate) fn know_set(set: CardSet)
    ensures { IsCardSet set }
{
    let _lowest = set.lowest();
}
