//! The names of turns.
ghost use Rattle.std.specs.Prelude.{◌≡◌, ◌+◌, ◌*◌, ◌≤◌, length};
ghost use Rattle.crib_why_sheet.specs.WhyPlay as spec;
ghost use Rattle.crib_why_sheet.specs.WhyPlay.{joined, own_name, rank_name, shown_names, with_turns};

use crate::line::{Text, append, text_of};
use crib_cards::{Act, Card, Move, Side, card_text};

// Returns names with one more, after a comma if it is not the first.
pub(crate) fn joined(names: &Text, name: &[u8]) -> Text
    requires { length names.now.items + length name.now + 2 ≤ 512 }
    ensures names { result.items ≡ joined names.now.items name.now }
    ensures len { length result.items ≤ length names.now.items + length name.now + 2 }
{
    if names.is_empty() {
        return text_of(name);
    }
    let mut longer = text_of(names.as_slice());
    append(&mut longer, b", ");
    append(&mut longer, name);
    longer
}

// Returns names with that of a turn.
pub(crate) fn with_turn(names: &Text, hold: &[Card], act: &Act) -> Text
    requires { length names.now.items ≤ 503 }
    ensures names { result.items ≡ joined names.now.items (spec.turn_name hold.now act.now.side act.now.what) }
    ensures len { length result.items ≤ length names.now.items + 9 }
{
    joined(names, turn_name(hold, act).as_slice())
}

// Returns names with those of some turns.
pub(crate) fn with_turns(names: &Text, hold: &[Card], acts: &[Act]) -> Text
    requires { length names.now.items + 9 * length acts.now ≤ 512 }
    ensures names { result.items ≡ with_turns hold.now names.now.items acts.now }
    ensures len { length result.items ≤ length names.now.items + 9 * length acts.now }
{
    match acts {
        [] => text_of(names.as_slice()),
        [act, others @ ..] => with_turns(&with_turn(names, hold, act), hold, others),
    }
}

// Returns the name of a turn.
pub(crate) fn turn_name(hold: &[Card], act: &Act) -> Text
    ensures name { result.items ≡ spec.turn_name hold.now act.now.side act.now.what }
    ensures short { length result.items ≤ 7 }
{
    match (act.side, act.what) {
        (Side::Owner, Move::Card(card)) => own_name(hold, card),
        (Side::Owner, Move::Go) => text_of(b"you go"),
        (Side::Opponent, Move::Card(card)) => {
            let mut name = text_of(b"they ");
            append(&mut name, &rank_name(card));
            name
        }
        (Side::Opponent, Move::Go) => text_of(b"they go"),
    }
}

fn own_name(hold: &[Card], card: Card) -> Text
    ensures name { result.items ≡ own_name hold.now card }
    ensures short { length result.items ≤ 2 }
{
    let alike = hold
        .iter()
        .filter(|other| other.rank() == card.rank())
        .count();
    if alike > 1 {
        text_of(&rank_name(card))
    } else {
        text_of(&card_text(card))
    }
}

/// Returns the letter of a card's rank.
pub(crate) fn rank_name(card: Card) -> [u8; 1]
    ensures { result ≡ rank_name card }
{
    let [rank, _suit] = card_text(card);
    [rank]
}

// Returns the ranks that the opponent shows in some turns, each after a space.
pub(crate) fn shown_names(acts: &[Act]) -> Text
    requires { length acts.now ≤ 32 }
    ensures names { result.items ≡ shown_names acts.now }
    ensures len { length result.items ≤ 2 * length acts.now }
{
    let mut names = Text::new();
    for act in acts {
        if let (Side::Opponent, Move::Card(card)) = (act.side, act.what) {
            append(&mut names, b" ");
            append(&mut names, &rank_name(card));
        }
    }
    names
}
