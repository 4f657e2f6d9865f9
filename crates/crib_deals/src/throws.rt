//! The throws that the opponent may have made, and the points of the crib with each.
ghost use Rattle.std.specs.Prelude.{◌≡◌, ℕ, ◌+◌, ◌*◌, ◌/◌, ◌%◌, ◌<◌, ◌≤◌, min, nat_lt, cond};
ghost use Rattle.std.specs.Prelude.{◌∷◌, [], ◌++◌, length, map, get_or, slice_index};
ghost use Rattle.crib_cards.specs.Cards.{IsCard, rank_of, suit_number};
ghost use Rattle.crib_show.specs.Show.{crib_flush, crib_points, plain_of_ranks, plain_points};
ghost use Rattle.crib_deals.specs.Throws.{AreCribs, AreFew, AreThrowsCounted, is_below, partners, passing_throws};

use crate::choices::rank_of;
use crate::points::plain_points;
use crib_cards::{Card, CardSet, Rank, Suit};
use crib_know::lowest_of;
use crib_show::{MOST_POINTS, hand_flush, jack_points};

/// How many throws each hold leaves: two of the 41 cards that are neither known nor held.
pub(crate) const THROWS: u32 = 820;

/// The limits of the tables are from 0 to 30: no crib has more than 29 points.
pub(crate) const LIMITS: usize = 31;

/// The cribs that the opponent's throws of two unseen cards make, counted.
#[derive(Clone, Copy)]
pub(crate) struct Cribs {
    /// The unseen cards.
    pub(crate) unseen: CardSet,
    // The points of the crib for each two cards.
    points: [u8; 2704],
    /// For each limit, how many throws make a crib with fewer points.
    pub(crate) below: [u16; LIMITS],
    /// For each card and each limit, with how many unseen cards it makes such a crib.
    pub(crate) partners: [u8; 52 * LIMITS],
}

impl Cribs {
    /// Counts the cribs with the owner's throw.
    pub(crate) fn new(thrown: &[Card; 2], starter: Card, unseen: CardSet) -> Self
        requires { length unseen ≡ 45 }
        ensures unseen { result.unseen ≡ unseen }
        ensures cribs { AreCribs thrown.now starter result.points }
        ensures counted { AreThrowsCounted result }
    {
        let cards: [Card; 45] = lowest_of(unseen);
        let points = cribs_of(thrown, starter);
        Cribs {
            unseen,
            points,
            below: throws_below(&points, &cards),
            partners: partners_below(&points, &cards),
        }
    }

    /// The points of the crib with a throw of two cards in pack order.
    pub(crate) fn points_with(&self, first: Card, second: Card) -> usize
        requires { AreThrowsCounted self.now }
        ensures value { result ≡ slice_index self.now.points (52 * first + second) }
        ensures few { result ≤ 29 }
    {
        self.points[52 * first.number() as usize + second.number() as usize] as usize
    }
}

// For each limit, how many throws of two of these cards make a crib with fewer points.
fn throws_below(points: &[u8; 2704], cards: &[Card]) -> [u16; LIMITS]
    requires points { AreFew points.now }
    requires cards { length cards.now ≤ 52 }
    ensures value { (limit : ℕ) → limit ≤ 30
        → slice_index result limit ≡ passing_throws (is_below points.now limit) cards.now }
    ensures few { (limit : ℕ) → limit ≤ 30 → slice_index result limit ≤ 52 * length cards.now }
{
    match cards {
        [] => [0; LIMITS],
        [first, others @ ..] => {
            let mut below = throws_below(points, others);
            add_partners(&mut below, points, *first, others);
            below
        }
    }
}

// For each card and each limit, with how many of these cards it makes a crib with fewer points.
fn partners_below(points: &[u8; 2704], cards: &[Card]) -> [u8; 52 * LIMITS]
    requires points { AreFew points.now }
    requires cards { length cards.now ≤ 52 }
    ensures { (card limit : ℕ) → IsCard card → limit ≤ 30
        → get_or result (31 * card + limit) 0 ≡ partners (is_below points.now limit) card cards.now }
{
    let mut counts = [0; 52 * LIMITS];
    for card in 0..52usize {
        let mut below = [0; LIMITS];
        add_partners(&mut below, points, card_at(card), cards);
        for limit in 0..LIMITS {
            counts[LIMITS * card + limit] = below[limit] as u8;
        }
    }
    counts
}

// Adds for each limit with how many of these cards a card makes a crib with fewer points.
fn add_partners(below: &mut [u16; LIMITS], points: &[u8; 2704], card: Card, cards: &[Card])
    requires points { AreFew points.now }
    requires cards { length cards.now ≤ 52 }
    requires few { (limit : ℕ) → limit ≤ 30 → slice_index below.old limit ≤ 60000 }
    ensures value { (limit : ℕ) → limit ≤ 30 → slice_index below.new limit
        ≡ slice_index below.old limit + partners (is_below points.now limit) card cards.now }
    ensures few { (limit : ℕ) → limit ≤ 30
        → slice_index below.new limit ≤ slice_index below.old limit + length cards.now }
{
    for other in cards {
        add_pair(below, points, card, *other);
    }
}

// Adds one at each limit below which the crib with two cards is, if they are different.
fn add_pair(below: &mut [u16; LIMITS], points: &[u8; 2704], first: Card, second: Card)
    requires points { AreFew points.now }
    requires few { (limit : ℕ) → limit ≤ 30 → slice_index below.old limit ≤ 61000 }
    ensures value { (limit : ℕ) → limit ≤ 30 → slice_index below.new limit
        ≡ slice_index below.old limit + cond (is_below points.now limit (first ∷ second ∷ [])) 1 0 }
    ensures few { (limit : ℕ) → limit ≤ 30 → slice_index below.new limit ≤ slice_index below.old limit + 1 }
{
    let (first, second) = (first.number(), second.number());
    if first != second {
        let index = 52 * first.min(second) as usize + first.max(second) as usize;
        add_above(below, points[index]);
    }
}

// Adds one at each limit above a number of points.
fn add_above(below: &mut [u16; LIMITS], points: u8)
    requires points { points ≤ 29 }
    requires few { (limit : ℕ) → limit ≤ 30 → slice_index below.old limit ≤ 61000 }
    ensures { (limit : ℕ) → limit ≤ 30
        → slice_index below.new limit ≡ slice_index below.old limit + cond (nat_lt points limit) 1 0 }
{
    for limit in points as usize + 1..LIMITS {
        below[limit] += 1;
    }
}

// The points of the crib for each two cards that the opponent may have thrown.
fn cribs_of(thrown: &[Card; 2], starter: Card) -> [u8; 2704]
    ensures cribs { AreCribs thrown.now starter result }
    ensures few { AreFew result }
{
    let [one, other] = *thrown;
    let plain = plain_of_cribs(thrown, starter);
    let mut points = [0; 2704];
    for index in 0..2704usize {
        let crib = [one, other, card_at(index / 52), card_at(index % 52)];
        points[index] = crib_of(plain[13 * (index / 208) + index % 52 / 4], &crib, starter);
    }
    points
}

// The points of the ranks of a crib, for each two ranks that the opponent may have thrown.
fn plain_of_cribs(thrown: &[Card; 2], starter: Card) -> [u8; 169]
    ensures value { (index : ℕ) → index < 169 → slice_index result index
        ≡ plain_of_ranks (rank_of starter ∷ map rank_of thrown.now ++ (index / 13 + 1) ∷ (index % 13 + 1) ∷ []) }
    ensures few { (index : ℕ) → index < 169 → slice_index result index ≤ 96 }
{
    let [one, other] = *thrown;
    let mut plain = [0; 169];
    for index in 0..169u16 {
        let ranks = [
            one.rank(),
            other.rank(),
            rank_of(index / 13),
            rank_of(index % 13),
        ];
        plain[index as usize] = plain_points(&ranks, starter);
    }
    plain
}

// The points of a crib, by those of its ranks.
#[tactic(auto, unfolding(crib_show::specs::Show::crib_points))]
fn crib_of(plain: u8, cards: &[Card; 4], starter: Card) -> u8
    requires plain { plain ≡ plain_points (starter ∷ cards.now) }
    requires few { plain ≤ 96 }
    ensures value { result ≡ min (crib_points cards.now starter) 29 }
    ensures few { result ≤ 29 }
{
    (plain + crib_flush(cards, starter) + jack_points(cards, starter)).min(MOST_POINTS)
}

// The points of the flush of a crib: of all five cards.
fn crib_flush(cards: &[Card; 4], starter: Card) -> u8
    ensures value { result ≡ crib_flush cards.now starter }
    ensures few { result ≤ 5 }
{
    if hand_flush(cards, starter) == 5 {
        5
    } else {
        0
    }
}

/// The card with a number.
pub(crate) fn card_at(number: usize) -> Card
    requires { number < 52 }
    ensures { result ≡ number }
{
    let Some(rank) = Rank::new((number / 4) as u8 + 1) else {
        unreachable!()
    };
    Card::of(rank, suit_at(number))
}

pub(crate) fn suit_at(number: usize) -> Suit
    ensures { suit_number result ≡ number % 4 }
{
    match number % 4 {
        0 => Suit::Clubs,
        1 => Suit::Diamonds,
        2 => Suit::Hearts,
        _ => Suit::Spades,
    }
}
