//! A sentence, and how words, cards, sides and acts are written in it.
use arrayvec::ArrayString;
use crib_cards::{Card, CardSet, Move, Side, card_text};
use crib_play::fits;
use std::fmt::{self, Display, Write};

// The most bytes of a word that are shown as it was typed.
const TYPED: usize = 24;

/// A card or a go, such as `TC` or `go`.
pub(crate) type Named = ArrayString<2>;

/// A sentence, or a part of one, of at most 400 bytes.
#[derive(Clone, Copy)]
pub(crate) struct Sentence(pub(crate) ArrayString<400>);

impl Sentence {
    /// Returns a text as a sentence.
    pub(crate) fn of<D: Display + Drop>(text: D) -> Sentence {
        let mut sentence = Sentence(ArrayString::new());
        sentence.add(text);
        sentence
    }

    /// Appends a text, but for what has no room.
    pub(crate) fn add<D: Display + Drop>(&mut self, text: D) {
        let _full = self.0.write_fmt(text);
    }
}

impl Display for Sentence {
    fn fmt<W: Write>(&self, f: &mut fmt::Formatter<W>) -> fmt::Result {
        f.write_str(self.0.as_str())
    }
}

/// What to write in place of a word or a line, if anything is known.
pub(crate) type Hint = Option<Sentence>;

/// Returns a text as a hint.
pub(crate) fn tell<D: Display + Drop>(text: D) -> Hint {
    Some(Sentence::of(text))
}

/// Returns a word as it was typed, in double quotes. Bytes other than 32 to 126 are written as `\xNN`, and a word of
/// more than 24 bytes is cut. Without a word it is the end of the line.
pub(crate) fn typed(word: &[u8]) -> Sentence {
    if word.is_empty() {
        return Sentence::of("the end of the line");
    }
    let mut typed = Sentence::of("\"");
    for byte in word.iter().take(TYPED) {
        match *byte {
            b' '..=b'~' => typed.add(char::from(*byte)),
            _ => typed.add(format_args!("\\x{byte:02x}")),
        }
    }
    typed.add(if word.len() > TYPED { "...\"" } else { "\"" });
    typed
}

/// Returns the text of a move.
pub(crate) fn moved(what: &Move) -> Named {
    let text = match what {
        Move::Card(card) => card_text(*card),
        Move::Go => *b"go",
    };
    Named::from_byte_string(&text).unwrap_or(Named::new())
}

/// Returns the text of a card.
pub(crate) fn named(card: Card) -> Named {
    moved(&Move::Card(card))
}

// Returns the cards of a set of at most four that fit at a count, in pack order, or `no card`.
fn cards_of(set: CardSet, count: u8) -> Sentence {
    let mut rest = set;
    let mut cards = Sentence::of("");
    for blank in ["", " ", " ", " "] {
        match rest.lowest() {
            Some(lowest) if fits(lowest, count) => {
                let name = named(lowest);
                cards.add(format_args!("{blank}{name}"));
                rest = rest.without(lowest);
            }
            _ if blank.is_empty() => cards.add("no card"),
            _ => {}
        }
    }
    cards
}

/// The cards that a side holds.
#[derive(Clone, Copy)]
pub(crate) struct Held {
    pub(crate) cards: Sentence,
    /// The cards, and those of them that fit.
    pub(crate) text: Sentence,
    /// Whether one of them fits.
    pub(crate) fits: bool,
}

impl Held {
    /// Returns the cards of a set, of which some fit at a count.
    pub(crate) fn of(set: CardSet, count: u8) -> Held {
        let (cards, fitting) = (cards_of(set, 0), cards_of(set, count));
        let fits = fitting.0.as_str() != "no card";
        let s = if fitting.0.len() == 2 { "s" } else { "" };
        let text = match fitting.0 == cards.0 {
            true => Sentence::of(format_args!("{cards}, which fit{s}")),
            false => Sentence::of(format_args!("{cards}, of which {fitting} fit{s}")),
        };
        Held { cards, text, fits }
    }
}

/// Returns a side in words, and its go as a line of a game, in double quotes.
pub(crate) fn side_and_go(side: Side) -> (&'static str, &'static str) {
    match side {
        Side::Owner => ("the owner", "\"own go\""),
        Side::Opponent => ("the opponent", "\"opp go\""),
    }
}
