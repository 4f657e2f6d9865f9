//! Words that should be cards.
use crate::sentence::{Hint, named, tell};
use crate::spelling::{are_digits, bare};
use crib_cards::{Card, read_card};
use crib_text::read_number;

const TEN: &str = "Write ten as T: ";

const ACE: &str = "Write an ace as A: ";

const COURT: &str = "Write a jack, a queen and a king as J, Q and K: ";

const NO_SIGN: &str = "Write no other sign at a card: ";

const NO_SUIT: &str = "Write the suit behind the rank, as in ";

const NO_RANK: &str = "Write the rank in front of the suit, as in ";

const RANK_FIRST: &str = "Write the rank in front of the suit: ";

/// How to write a card that is a sign or a word.
pub(crate) const TWO_LETTERS: &str = "Write a card as two letters, its rank and its suit: TS.";

const CAPITALS: &str = "Write a card in capital letters: ";

/// Returns the hint for a word that should be a card, if it is like one.
pub(crate) fn card_hint(word: &[u8]) -> Hint {
    let hint = match (word, bare(word)) {
        _ if read_card(word).is_some() => return None,
        ([b'1', b'0'], _) => meant(TEN, b'T', b'S'),
        ([letter], _) => meant(NO_SUIT, *letter, b'S').or(meant(NO_RANK, b'T', *letter)),
        ([first, last], _) => meant(CAPITALS, *first, *last).or(meant(RANK_FIRST, *last, *first)),
        (_, [rank, suit]) => meant(NO_SIGN, *rank, *suit),
        ([rank, sign, suit], _) if !sign.is_ascii_alphanumeric() => meant(NO_SIGN, *rank, *suit),
        _ => apart(word),
    };
    hint.or(ranked(word))
}

/// Returns the card of a rank and a suit, in small letters or in capitals.
pub(crate) fn card_meant(rank: u8, suit: u8) -> Option<Card> {
    read_card(&[rank.to_ascii_uppercase(), suit.to_ascii_uppercase()])
}

// Returns a hint that ends with the card of a rank and a suit.
fn meant(text: &str, rank: u8, suit: u8) -> Hint {
    let card = named(card_meant(rank, suit)?);
    tell(format_args!("{text}{card}."))
}

// The ranks that people write as numbers: 0, 1 and 10 to 14. A letter O or l may represent a digit.
fn ranked(word: &[u8]) -> Hint {
    let (number, suit) = match word {
        [] | [_, b'1', b'4'] => return None,
        [suit, number @ ..] if are_digits(number) => (number, suit),
        [number @ .., suit] => (number, suit),
    };
    let (text, rank) = rank_meant(number)?;
    meant(text, rank, *suit)
}

// Returns the rank that is written as a number, and how to write it.
fn rank_meant(number: &[u8]) -> Option<(&'static str, u8)> {
    Some(match number {
        [b'1' | b'I' | b'l', b'0' | b'O' | b'o'] => (TEN, b'T'),
        [b'0' | b'O' | b'o' | b'X' | b'x'] => (TEN, b'T'),
        [b'1' | b'I' | b'l'] | [b'1', b'4'] => (ACE, b'A'),
        [b'1', b'1'] | [b'B' | b'b' | b'V' | b'v'] => (COURT, b'J'),
        [b'1', b'2'] | [b'D' | b'd'] => (COURT, b'Q'),
        [b'1', b'3'] | [b'R' | b'r'] => (COURT, b'K'),
        _ => return None,
    })
}

/// Whether a word has a rank and a suit, spelled so or as people do.
pub(crate) fn is_like_card(word: &[u8]) -> bool {
    match word {
        [rank, suit] => card_meant(*rank, *suit).is_some(),
        _ => ranked(word).is_some(),
    }
}

/// Returns the hint for a rank that is written as a number, with no suit.
pub(crate) fn suitless(word: &[u8]) -> Hint {
    read_number(word).filter(|number| *number > 0)?;
    meant(NO_SUIT, rank_meant(word)?.1, b'S')
}

// Two cards or more, with no blank or one other sign between two.
fn apart(word: &[u8]) -> Hint {
    let (a, b, c, d) = match word {
        [a, b, sign, c, d, ..] if !sign.is_ascii_alphanumeric() => (a, b, c, d),
        [a, b, c, d, ..] => (a, b, c, d),
        _ => return None,
    };
    let first = named(card_meant(*a, *b)?);
    let second = named(card_meant(*c, *d)?);
    tell(format_args!("Write a blank between two cards: {first} {second}."))
}
