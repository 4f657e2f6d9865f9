//! Words that differ a little from an expected one, and mistyped numbers.
use crate::sentence::{Hint, tell};
use crib_text::read_number;

/// Returns the hint for a word that should be one of these, if it is like one.
pub(crate) fn word_hint(word: &[u8], choices: &[&'static str]) -> Hint {
    choices.iter().find_map(|choice| choice_hint(word, choice))
}

fn choice_hint(word: &[u8], choice: &str) -> Hint {
    let wanted = choice.as_bytes();
    let hint = match word {
        _ if word == wanted => return None,
        _ if is_word(word, wanted) => "Write small letters: ",
        _ if is_word(bare(word), wanted) => "Write no other sign at the word ",
        _ if matches!(word.strip_prefix(wanted), Some([next, ..]) if !next.is_ascii_lowercase()) =>
            "Write a blank behind the word ",
        _ if is_near(word, wanted) => return tell(format_args!("Did you mean {choice}?")),
        _ => return None,
    };
    tell(format_args!("{hint}{choice}."))
}

/// Whether a word is this one, in small or capital letters.
pub(crate) fn is_word(word: &[u8], wanted: &[u8]) -> bool {
    word.eq_ignore_ascii_case(wanted)
}

/// Whether a word is one of two.
pub(crate) fn is_either(word: &[u8], first: &[u8], second: &[u8]) -> bool {
    word == first || word == second
}

/// Returns a word without the signs around it that are neither letters nor digits.
pub(crate) fn bare(word: &[u8]) -> &[u8] {
    let from = word.iter().position(u8::is_ascii_alphanumeric);
    let last = word.iter().rposition(u8::is_ascii_alphanumeric);
    let bare = word.get(from.unwrap_or(word.len())..=last.unwrap_or(0));
    bare.unwrap_or(b"")
}

// Whether one word begins the other, or one letter is missing, wrong or too many, or two neighbours are exchanged.
fn is_near(word: &[u8], wanted: &[u8]) -> bool {
    let same = word.iter().zip(wanted).take_while(|(a, b)| a == b).count();
    let (rest, others) = (behind(word, same), behind(wanted, same));
    let (tail, other_tail) = (behind(rest, 1), behind(others, 1));
    let is_part = rest.is_empty() || others.is_empty();
    let is_near = is_part || tail == other_tail || tail == others || rest == other_tail;
    let swapped = matches!(rest, [a, b, end @ ..] if others.strip_prefix(&[*b, *a]) == Some(end));
    (is_near || swapped) && wanted.len() > 2 && word.len() > 1
}

// Returns what is behind so many bytes.
fn behind(word: &[u8], len: usize) -> &[u8] {
    word.get(len..).unwrap_or(b"")
}

/// Returns the hint for a word that should be a number.
pub(crate) fn number_hint(word: &[u8]) -> Hint {
    tell(match word {
        [] => return None,
        [b'+' | b'-', b'0'..=b'9', ..] => "Write a number without a sign.",
        [b'0', _, ..] if are_digits(word) => "Write a number without a zero in front.",
        _ if read_number(word).is_some() => return None,
        _ if are_digits(word) => "The greatest number is 4294967295.",
        _ if are_digits(bare(word)) => "Write no other sign at a number.",
        _ if word.iter().all(|byte| b"0123456789OolIi".contains(byte)) =>
            "Write 0 and 1 as digits, not as letters.",
        _ if word.iter().any(|byte| b";\\".contains(byte)) => "End the line behind the number.",
        _ => "Write a number in digits alone.",
    })
}

/// Whether a word is some digits.
pub(crate) fn are_digits(word: &[u8]) -> bool {
    !word.is_empty() && word.iter().all(u8::is_ascii_digit)
}

/// Returns the hint for numbers with one sign between two in place of a blank, as `109-110`.
pub(crate) fn two_numbers_hint(word: &[u8]) -> Hint {
    let sign = word.iter().find(|byte| !byte.is_ascii_digit())?;
    let are_numbers = word.split(|byte| byte == sign).all(are_digits);
    let hint = tell("Write whole numbers, with a blank between two.");
    hint.filter(|_| are_numbers && !sign.is_ascii_alphanumeric())
}
