//! What counts in a hand and in the crib, with its cards.
ghost use Rattle.std.specs.Prelude.{◌≡◌, ◌+◌, ◌^◌, ◌≤◌, ◌==◌, ◌&&◌, [], ◌∷◌, ◌++◌, length, map, sum_by, if◌then◌else◌};
ghost use Rattle.crib_cards.specs.Cards.{jack, rank_of, suit_of};
ghost use Rattle.crib_cards.specs.Runs.{greatest_rank, is_run, least_rank};
ghost use Rattle.crib_show.specs.Show as show;
ghost use Rattle.crib_show.specs.Show.{are_of_suit, is_fifteen, is_full_run, is_pair, is_prolonged};
ghost use Rattle.crib_game_sheet.specs.GameShow.{counts_as, crib_combinations, flush_in_crib};
ghost use Rattle.crib_game_sheet.specs.GameShow.{flush_in_hand, hand_combinations, jack_among};
ghost use Rattle.crib_game_sheet.specs.GameShow.{points_of};
ghost use Rattle.crib_game_sheet.specs.Private.Chosen.{combinations_from};

use crate::game::combination::{Combination, Kind};
use arrayvec::ArrayVec;
use crib_cards::{Card, Rank};
use crib_play::longest_run;

/// The list of what counts in a hand or a crib. It has room for 32 choices of each kind, a flush and the jack.
pub type Combinations = ArrayVec<Combination, 98>;

// The number of the jack's rank.
const JACK: u8 = 11;

/// Returns what counts in a hand: its four cards, counted with the starter.
///
/// The list has the fifteens first, then the pairs, the runs, the flush, and the jack of the starter's suit. The flush
/// is of all five cards, or of the four in the hand. The points of the list add up to those of the hand.
pub fn hand_combinations(cards: &[Card; 4], starter: Card) -> Combinations
    ensures listed { result.items ≡ hand_combinations cards.now starter }
    ensures points { sum_by points_of result.items ≡ show.hand_points cards.now starter }
{
    counted_combinations(false, cards, starter)
}

/// Returns what counts in a crib: its four cards, counted with the starter.
///
/// The list is that of a hand, but its flush is of all five cards. The points of the list add up to those of the crib.
pub fn crib_combinations(cards: &[Card; 4], starter: Card) -> Combinations
    ensures listed { result.items ≡ crib_combinations cards.now starter }
    ensures points { sum_by points_of result.items ≡ show.crib_points cards.now starter }
{
    counted_combinations(true, cards, starter)
}

/// Returns what counts in a crib or in a hand.
pub(crate) fn counted_combinations(crib: bool, cards: &[Card; 4], starter: Card) -> Combinations
    ensures { result.items
        ≡ (if crib then crib_combinations cards.now starter else hand_combinations cards.now starter) }
{
    let all = with_starter(cards, starter);
    let ranks = ranks_of(&all);
    let mut found = ArrayVec::new();
    put_choices(Kind::Fifteen, ranks.as_slice(), &[], &all, &mut found);
    put_choices(Kind::Pair, ranks.as_slice(), &[], &all, &mut found);
    put_choices(Kind::Run, ranks.as_slice(), &[], &all, &mut found);
    put_flush(crib, cards, starter, &mut found);
    put_jack(cards, starter, &mut found);
    found
}

fn with_starter(cards: &[Card; 4], starter: Card) -> [Card; 5]
    ensures { result ≡ cards.now ++ starter ∷ [] }
{
    let [first, second, third, fourth] = *cards;
    [first, second, third, fourth, starter]
}

// Appends the combinations of a kind that have the cards in `taken`, and some of those in `left`.
fn put_choices(kind: Kind, all: &[Rank], taken: &[Card], left: &[Card], found: &mut Combinations)
    requires five { length taken.now + length left.now ≤ 5 }
    requires room { length found.old.items + 2 ^ length left.now ≤ 98 }
    ensures listed { found.new.items ≡ found.old.items ++ combinations_from kind all.now taken.now left.now }
    ensures range { length found.new.items ≤ length found.old.items + 2 ^ length left.now }
{
    let [card, others @ ..] = left else {
        if counts_as(kind, all, ranks_of(taken).as_slice()) {
            let cards = list_of(taken);
            found.push(Combination { kind, cards });
        }
        return;
    };
    let mut with_card = list_of(taken);
    with_card.push(*card);
    put_choices(kind, all, with_card.as_slice(), others, found);
    put_choices(kind, all, taken, others, found);
}

fn list_of(cards: &[Card]) -> ArrayVec<Card, 5>
    requires { length cards.now ≤ 5 }
    ensures { result.items ≡ cards.now }
{
    let mut list = ArrayVec::new();
    list.try_extend_from_slice(cards).unwrap();
    list
}

fn ranks_of(cards: &[Card]) -> ArrayVec<Rank, 5>
    requires { length cards.now ≤ 5 }
    ensures { result.items ≡ map rank_of cards.now }
{
    let mut ranks = ArrayVec::new();
    for card in cards {
        ranks.push(card.rank());
    }
    ranks
}

// Whether some of all the ranks are of a kind. A flush and the jack aren't seen from ranks.
fn counts_as(kind: Kind, all: &[Rank], ranks: &[Rank]) -> bool
    requires { length ranks.now ≤ 5 }
    ensures { result ≡ counts_as kind all.now ranks.now }
{
    match kind {
        Kind::Fifteen => is_fifteen(ranks),
        Kind::Pair => is_pair(ranks),
        Kind::Run => is_full_run(all, ranks),
        Kind::Flush | Kind::Jack => false,
    }
}

fn is_fifteen(ranks: &[Rank]) -> bool
    requires { length ranks.now ≤ 5 }
    ensures { result ≡ is_fifteen ranks.now }
{
    let sum: u8 = ranks.iter().map(|rank| rank.value()).sum();
    sum == 15
}

fn is_pair(ranks: &[Rank]) -> bool
    ensures { result ≡ is_pair ranks.now }
{
    ranks.len() == 2 && ranks[0] == ranks[1]
}

// Whether some of all the ranks are a run that none of all the ranks prolongs.
fn is_full_run(all: &[Rank], ranks: &[Rank]) -> bool
    requires { length ranks.now ≤ 5 }
    ensures { result ≡ is_full_run all.now ranks.now }
{
    is_run(ranks) && !is_prolonged(all, ranks)
}

// Whether some ranks are three or more in a row, all different.
fn is_run(ranks: &[Rank]) -> bool
    ensures { result ≡ is_run ranks.now }
{
    longest_run(ranks) == ranks.len().max(3)
}

// Whether one of all the ranks is just below the least or just above the greatest of some ranks.
fn is_prolonged(all: &[Rank], ranks: &[Rank]) -> bool
    ensures { result ≡ is_prolonged all.now ranks.now }
{
    let greatest = u16::from(greatest_rank(ranks));
    let least = least_rank(ranks);
    all.iter().any(|rank| rank.number() + 1 == least || u16::from(rank.number()) == greatest + 1)
}

fn greatest_rank(ranks: &[Rank]) -> u8
    ensures { result ≡ greatest_rank ranks.now }
{
    ranks.iter().fold(0, |most, rank| rank.number().max(most))
}

fn least_rank(ranks: &[Rank]) -> u8
    ensures { result ≡ least_rank ranks.now }
{
    ranks
        .iter()
        .fold(13, |least, rank| rank.number().min(least))
}

// Appends the flush in a hand: all five cards, or the four in the hand. A crib has only the first.
fn put_flush(crib: bool, hand: &[Card; 4], starter: Card, found: &mut Combinations)
    requires { length found.old.items ≤ 96 }
    ensures listed { found.new.items
        ≡ found.old.items ++ (if crib then flush_in_crib hand.now starter else flush_in_hand hand.now starter) }
    ensures range { length found.new.items ≤ 97 }
{
    let (kind, mut cards) = (Kind::Flush, list_of(hand));
    if are_of_suit(starter, hand) {
        cards.push(starter);
    } else if crib || !are_of_suit(hand[0], hand) {
        return;
    }
    found.push(Combination { kind, cards });
}

// Appends the first jack of the starter's suit.
fn put_jack(cards: &[Card], starter: Card, found: &mut Combinations)
    requires { length found.old.items ≤ 97 }
    ensures { found.new.items ≡ found.old.items ++ jack_among cards.now starter }
{
    if let [card, others @ ..] = cards {
        if !is_jack_with(*card, starter) {
            return put_jack(others, starter, found);
        }
        let (kind, cards) = (Kind::Jack, list_of(&[*card]));
        found.push(Combination { kind, cards });
    }
}

fn is_jack_with(card: Card, starter: Card) -> bool
    ensures { result ≡ ((rank_of card == jack) && (suit_of card == suit_of starter)) }
{
    card.rank().number() == JACK && are_suited(card, starter)
}

fn are_of_suit(card: Card, cards: &[Card]) -> bool
    ensures { result ≡ are_of_suit card cards.now }
{
    cards.iter().all(|other| are_suited(*other, card))
}

fn are_suited(card: Card, other: Card) -> bool
    ensures { result ≡ (suit_of card == suit_of other) }
{
    card.suit() == other.suit()
}
