//! Which card the owner plays where each is as good against all deals.
ghost use Rattle.std.specs.Prelude.{◌≡◌, ◌+◌, ◌≤◌, ◌<◌, ℕ, length, IsTrue};
ghost use Rattle.crib_cards.specs.Cards.{card_value};
ghost use Rattle.crib_cards.specs.Sets.{has};
ghost use Rattle.crib_play.specs.Record.{count_of};
ghost use Rattle.crib_play.specs.declared.turns.Turn.{Turn};

use crate::tries::survey::card_at;
use crib_cards::{Card, GAME_HOLE, Letter, Side};
use crib_know::Know;

// No turn scores more points.
const MOST: u8 = 25;

// With fewer cards left, the owner plays the lowest card first. Otherwise plans would get much longer.
const CARDS: u8 = 3;

/// The index of the first of some cards, of those that score most.
pub(crate) fn richest(know: &Know, cards: &[Card]) -> usize
    requires turn { know.now.round.asked ≡ Turn.Owner }
    requires playable { (card : ℕ) → IsTrue (has cards.now card)
        → IsTrue (has know.now.own_left card) × (count_of know.now.round.pile + card_value card ≤ 31) }
{
    if know.round().cards_left(Side::Owner) < CARDS {
        return 0;
    }
    let mut best = 0;
    let mut most = 0u8;
    for index in 0..cards.len() {
        let next = after(know, card_at(cards, index));
        let points = points_since(know, &next);
        if points > most {
            best = index;
            most = points;
        }
    }
    best
}

/// The index of the first of some cards, of those that score most, of those after which the opponent can't go out with
/// their next turn, if there is one.
pub(crate) fn safest(know: &Know, cards: &[Card]) -> usize
    requires some { 0 < length cards.now }
    requires turn { know.now.round.asked ≡ Turn.Owner }
    requires playable { (card : ℕ) → IsTrue (has cards.now card)
        → IsTrue (has know.now.own_left card) × (count_of know.now.round.pile + card_value card ≤ 31) }
    ensures { result < length cards.now }
{
    let mut best = 0usize;
    let mut most = 0u8;
    for index in 0..cards.len() {
        let next = after(know, card_at(cards, index));
        let mut worth = points_since(know, &next);
        if !may_go_out(&next) {
            worth = worth.saturating_add(MOST);
        }
        if worth > most {
            best = index;
            most = worth;
        }
    }
    best.min(cards.len() - 1)
}

// What is known after a card of the owner.
fn after(know: &Know, card: Card) -> Know
    requires turn { know.now.round.asked ≡ Turn.Owner }
    requires held { IsTrue (has know.now.own_left card) }
    requires fits { count_of know.now.round.pile + card_value card ≤ 31 }
{
    let mut next = know.copy();
    next.own_play(card);
    next
}

// How many points the owner has scored since.
fn points_since(before: &Know, know: &Know) -> u8 {
    let points = know.round().scores().owner;
    points.saturating_sub(before.round().scores().owner)
}

// Whether the opponent can go out with their next turn.
fn may_go_out(know: &Know) -> bool {
    if know.round().scores().opponent < GAME_HOLE - MOST {
        return false;
    }
    for index in 0..14u8 {
        let letter = Letter::at(index);
        if know.can_show(letter) {
            let mut next = know.copy();
            next.saw(&letter);
            if next.round().scores().opponent >= GAME_HOLE {
                return true;
            }
        }
    }
    false
}
