//! Holds added up, so that the throws that they leave are counted together.
ghost use Rattle.std.specs.Prelude.{◌≡◌, ◌+◌, ◌*◌, ◌/◌, ◌%◌, ◌<◌, ◌≤◌, [], ℕ, Bool, List, get_or, length, slice_index};
ghost use Rattle.crib_cards.specs.Cards.{IsCard, card_of, suit_of};
ghost use Rattle.crib_deals.specs.Private.Sums.{AreHeld, AreSmall, AreSums, left_below, no_sums, of_suits};
ghost use Rattle.crib_deals.specs.Private.Sums.{card_sum, pair_sum, partners_at, weigh_from};
ghost use Rattle.crib_deals.specs.Throws.{AreThrowsCounted, is_below, partners};

use crate::points::suit_points;
use crate::throws::{Cribs, LIMITS};
use crib_cards::{Card, Rank};

/// How many holds with four ranks there are, and how many of them have each card and each two cards.
#[derive(Clone, Copy)]
pub(crate) struct Sums {
    count: u32,
    // How many holds have each suit at each index, by 4 times the index and the suit.
    cards: [u32; 16],
    // How many times two cards of one hold would make a crib of so many points.
    pairs: [u32; 30],
}

impl Sums {
    /// No holds.
    pub(crate) fn new() -> Self
        ensures sums { (points : List ℕ) (kind : List ℕ → Bool) → AreSums points kind [] result }
        ensures small { AreSmall result }
    {
        Sums {
            count: 0,
            cards: [0; 16],
            pairs: [0; 30],
        }
    }

    /// Adds a hold of cards in pack order.
    pub(crate) fn add(&mut self, cribs: &Cribs, hold: &[Card; 4])
        requires counted { AreThrowsCounted cribs.now }
        requires small { AreSmall self.old }
        requires few { self.old.count < 256 }
        ensures count { self.new.count ≡ self.old.count + 1 }
        ensures cards { (weight : ℕ → ℕ)
            → weigh_from 0 weight self.new.cards ≡ weigh_from 0 weight self.old.cards + card_sum weight hold.now }
        ensures pairs { (weight : ℕ → ℕ) → weigh_from 0 weight self.new.pairs
            ≡ weigh_from 0 weight self.old.pairs + pair_sum weight cribs.now.points hold.now }
    {
        let [first, second, third, fourth] = *hold;
        self.count += 1;
        add_one(&mut self.cards, index_at(0, first));
        add_one(&mut self.cards, index_at(1, second));
        add_one(&mut self.cards, index_at(2, third));
        add_one(&mut self.cards, index_at(3, fourth));
        add_one(&mut self.pairs, cribs.points_with(first, second));
        add_one(&mut self.pairs, cribs.points_with(first, third));
        add_one(&mut self.pairs, cribs.points_with(first, fourth));
        add_one(&mut self.pairs, cribs.points_with(second, third));
        add_one(&mut self.pairs, cribs.points_with(second, fourth));
        add_one(&mut self.pairs, cribs.points_with(third, fourth));
    }

    /// For each limit, how many deals with these holds have a crib with fewer points.
    pub(crate) fn below(&self, cribs: &Cribs, ranks: &[Rank; 4]) -> [u32; LIMITS]
        requires counted { AreThrowsCounted cribs.now }
        requires small { AreSmall self.now }
        requires sums { (kind : List ℕ → Bool) × (holds : List (List ℕ)) × AreSums cribs.now.points kind holds self.now
            × AreHeld cribs.now.unseen ranks.now holds }
        ensures { (kind : List ℕ → Bool) (holds : List (List ℕ)) → AreSums cribs.now.points kind holds self.now
            → AreHeld cribs.now.unseen ranks.now holds → (limit : ℕ) → limit ≤ 30
            → slice_index result limit ≡ left_below cribs.now kind limit holds }
    {
        let mut below = [0; LIMITS];
        if self.count == 0 {
            return below;
        }
        let with = self.throws_with(cribs, ranks);
        let mut held = 0;
        for limit in 0..LIMITS {
            below[limit] = times(self.count, cribs.below[limit]) + held - with[limit];
            if limit < 30 {
                held += self.pairs[limit];
            }
        }
        below
    }

    // For each limit, how many times a throw of an unseen card and a card of a hold makes a crib with fewer points.
    fn throws_with(&self, cribs: &Cribs, ranks: &[Rank; 4]) -> [u32; LIMITS]
        requires counted { AreThrowsCounted cribs.now }
        requires small { AreSmall self.now }
        ensures { (limit : ℕ) → limit ≤ 30
            → slice_index result limit ≡ weigh_from 0 (partners_at cribs.now ranks.now limit) self.now.cards }
    {
        let mut with = [0; LIMITS];
        for index in 0..16usize {
            let count = self.cards[index];
            if count > 0 {
                add_times(&mut with, count, cribs, card_in(ranks, index));
            }
        }
        with
    }
}

/// Adds up holds, by the points of their suits.
pub(crate) fn sums_of(cribs: &Cribs, starter: Card, holds: &[[Card; 4]]) -> [Sums; 7]
    requires counted { AreThrowsCounted cribs.now }
    requires few { length holds.now ≤ 256 }
    ensures sums { (suits : ℕ) → suits < 7
        → AreSums cribs.now.points (of_suits starter suits) holds.now (get_or result suits no_sums) }
    ensures small { (suits : ℕ) → suits < 7 → AreSmall (get_or result suits no_sums) }
{
    let mut sums = [Sums::new(); 7];
    for hold in holds {
        sums[suit_points(hold, starter) as usize].add(cribs, hold);
    }
    sums
}

// The card of four ranks with an index.
fn card_in(ranks: &[Rank; 4], index: usize) -> usize
    requires index { index < 16 }
    ensures value { result ≡ card_of (slice_index ranks.now (index / 4)) (index % 4) }
    ensures range { IsCard result }
{
    4 * (ranks[index / 4].number() - 1) as usize + index % 4
}

// The index of the suit of a card at an index of a hold.
#[inline(always)]
fn index_at(at: usize, card: Card) -> usize
    requires { at < 4 }
    ensures value { result ≡ 4 * at + suit_of card }
    ensures few { result < 16 }
{
    4 * at + (card.number() % 4) as usize
}

#[inline(always)]
fn times(count: u32, number: u16) -> u32
    requires { count ≤ 256 }
    ensures value { result ≡ count * number }
    ensures few { result ≤ 20000000 }
{
    count * number as u32
}

// Adds one to the number with an index.
#[inline(always)]
fn add_one(numbers: &mut [u32], index: usize)
    requires index { index < length numbers.old }
    requires few { weigh_from 0 (λ i. 1) numbers.old < 2000 }
    ensures added { (weight : ℕ → ℕ)
        → weigh_from 0 weight numbers.new ≡ weigh_from 0 weight numbers.old + weight index }
    ensures length { length numbers.new ≡ length numbers.old }
{
    numbers[index] += 1;
}

// Adds for each limit so many times the number of partners of a card.
fn add_times(with: &mut [u32; LIMITS], count: u32, cribs: &Cribs, card: usize)
    requires counted { AreThrowsCounted cribs.now }
    requires card { IsCard card }
    requires count { count ≤ 1024 }
    requires few { (limit : ℕ) → limit ≤ 30 → slice_index with.old limit ≤ 5000000 }
    ensures few { (limit : ℕ) → limit ≤ 30 → slice_index with.new limit ≤ slice_index with.old limit + 300000 }
    ensures sums { (limit : ℕ) → limit ≤ 30 → slice_index with.new limit
        ≡ slice_index with.old limit + count * partners (is_below cribs.now.points limit) card cribs.now.unseen }
{
    for limit in 0..LIMITS {
        with[limit] += count * cribs.partners[LIMITS * card + limit] as u32;
    }
}
