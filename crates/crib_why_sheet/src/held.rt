//! What the opponent held and threw.
ghost use Rattle.std.specs.Prelude.{◌≡◌, ◌*◌, ◌≤◌, ◌==◌, ◌++◌, length};
ghost use Rattle.std.specs.List.{list_any};
ghost use Rattle.crib_cards.specs.Cards.{suit_of};
ghost use Rattle.crib_show.specs.Show.{are_of_suit};
ghost use Rattle.crib_why_sheet.specs.WhyPlay.{held_name, held_names, held_text, held_with, is_flush};
ghost use Rattle.crib_why_sheet.specs.WhyPlay.{is_hand_counted, thrown_text};

use crate::line::{Text, append, text_of};
use crate::names::rank_name;
use crib_cards::{Card, Dealt, Side, card_text};
use crib_game::{Game, replay};
use crib_problem::Problem;
use crib_show::ShowRow;

// The number of the jack's rank.
const JACK: u8 = 11;

/// Returns what the opponent held in a game, each card after a space, and if the crib was counted what they threw, in
/// brackets. It is nothing if the game is refused.
pub(crate) fn held_text(problem: &Problem, game: &Game) -> Text
    ensures text { result.items ≡ held_text problem.now game.now }
    ensures short { length result.items ≤ 32 }
{
    match replay(problem, game) {
        Ok(report) => held_with(problem, &game.opp, report.show.as_slice()),
        Err(_) => Text::new(),
    }
}

#[tactic(auto, unfolding(crate::specs::WhyPlay::held_with))]
fn held_with(problem: &Problem, dealt: &Dealt, show: &[ShowRow]) -> Text
    ensures text { result.items ≡ held_with problem.now dealt.now show.now }
    ensures short { length result.items ≤ 32 }
{
    let starter = problem.starter();
    let mut text = held_names(
        is_hand_counted(show),
        is_flush(&dealt.hold),
        starter,
        &dealt.hold,
    );
    if is_crib_counted(show) {
        let flush = are_of_suit(starter, &crib_of(problem, dealt));
        append(
            &mut text,
            thrown_text(flush, starter, &dealt.throw).as_slice(),
        );
    }
    text
}

// Whether the opponent's hand is counted.
fn is_hand_counted(show: &[ShowRow]) -> bool
    ensures { result ≡ is_hand_counted show.now }
{
    show.iter()
        .any(|row| !row.crib && row.side == Side::Opponent)
}

fn is_crib_counted(show: &[ShowRow]) -> bool
    ensures { result ≡ list_any (λ row. row.crib) show.now }
{
    show.iter().any(|row| row.crib)
}

// The four cards of the crib.
fn crib_of(problem: &Problem, dealt: &Dealt) -> [Card; 4]
    ensures { result ≡ problem.now.thrown ++ dealt.now.throw }
{
    let [first, second] = problem.thrown();
    let [third, fourth] = dealt.throw;
    [first, second, third, fourth]
}

fn is_flush(hold: &[Card; 4]) -> bool
    ensures { result ≡ is_flush hold.now }
{
    are_of_suit(hold[0], hold)
}

// Returns the two cards that the opponent threw to a counted crib, in brackets.
fn thrown_text(flush: bool, starter: Card, throw: &[Card; 2]) -> Text
    ensures text { result.items ≡ thrown_text flush starter throw.now }
    ensures short { length result.items ≤ 10 }
{
    let [first, second] = *throw;
    let mut text = text_of(b" (");
    append(&mut text, held_name(true, flush, starter, first).as_slice());
    append(
        &mut text,
        held_names(true, flush, starter, &[second]).as_slice(),
    );
    append(&mut text, b")");
    text
}

// Returns cards, each after a space.
fn held_names(counted: bool, flush: bool, starter: Card, cards: &[Card]) -> Text
    requires { length cards.now ≤ 4 }
    ensures text { result.items ≡ held_names counted flush starter cards.now }
    ensures short { length result.items ≤ 3 * length cards.now }
{
    let mut text = Text::new();
    for card in cards {
        append(&mut text, b" ");
        append(
            &mut text,
            held_name(counted, flush, starter, *card).as_slice(),
        );
    }
    text
}

// Returns a card, with its suit if it is counted in a flush or as the jack of the starter's suit.
fn held_name(counted: bool, flush: bool, starter: Card, card: Card) -> Text
    ensures text { result.items ≡ held_name counted flush starter card }
    ensures short { length result.items ≤ 2 }
{
    if counted && (flush || (card.rank().number() == JACK && are_suited(card, starter))) {
        text_of(&card_text(card))
    } else {
        text_of(&rank_name(card))
    }
}

fn are_of_suit(card: Card, cards: &[Card]) -> bool
    ensures { result ≡ are_of_suit card cards.now }
{
    cards.iter().all(|other| are_suited(*other, card))
}

fn are_suited(card: Card, other: Card) -> bool
    ensures { result ≡ (suit_of card == suit_of other) }
{
    card.suit() == other.suit()
}
