//! The branches of a see line, and what may be wrong with one.
use crate::grammar::Slot;
use crate::misfit::{BAD_LINE, BAD_NEXT, BAD_SET, number_cause};
use crate::scene::{Scene, Word, is_blank};
use crate::sentence::{Hint, tell, typed};
use crate::spelling::is_word;
use crib_input::Cause;
use crib_plan::LETTERS;
use crib_text::read_number;

/// Returns why a branch does not fit, if it doesn't: for its letters first, then for its node.
pub(crate) fn branch_cause(scene: &Scene<'_>, branch: &Word<'_>) -> Option<Cause> {
    match branch.target().bytes {
        _ if branch.bytes.split(|byte| *byte == b':').count() != 2 => Some(BAD_LINE),
        _ if branch_fault(scene, branch).is_some() => Some(BAD_SET),
        target if target == b"end".as_slice() => Some(BAD_NEXT),
        target => number_cause(scene, Slot::Target, read_number(target)),
    }
}

/// Returns what is wrong with the letters of a branch with one colon, or that an earlier branch has its node.
pub(crate) fn branch_fault(scene: &Scene<'_>, branch: &Word<'_>) -> Hint {
    let mut last = (' ', None);
    for byte in branch.letters() {
        let (letter, index) = (char::from(*byte), index_of(Some(byte)));
        let (before, least) = last;
        match index {
            None => {
                let (typed, hint) = (typed(&[*byte]), letter_hint(branch, *byte));
                return tell(format_args!("{typed} is none of the letters A23456789TJQKg; {hint}"));
            }
            _ if index == least => return tell(format_args!("{letter} stands in it twice")),
            _ if index < least => return tell(format_args!(
                "{letter} comes before {before} in the order A23456789TJQKg"
            )),
            _ => last = (letter, index),
        }
    }
    match branch.letters() {
        [] => tell("no letter stands before its colon"),
        _ => repeated_letter(scene, branch).or(fault_beside(scene, branch)),
    }
}

// Returns which letter of a branch is in a branch before it too.
fn repeated_letter(scene: &Scene<'_>, branch: &Word<'_>) -> Hint {
    branch.letters().iter().find_map(|byte| {
        let old = typed(branch_with(scene.text(), branch.index, *byte)?.bytes);
        let letter = char::from(*byte);
        tell(format_args!("{letter} stood in the branch {old} already"))
    })
}

/// Returns the first branch of a see line that has a letter, if it is among so many words.
pub(crate) fn branch_with(line: &[u8], words: usize, letter: u8) -> Option<Word<'_>> {
    let mut branches = line.split(is_blank).take(words).skip(2).map(Word::of);
    branches.find(|branch| branch.letters().contains(&letter))
}

// Returns which branch before a branch belongs behind it, or else which one leads to its node.
fn fault_beside(scene: &Scene<'_>, branch: &Word<'_>) -> Hint {
    let mut same = None;
    for word in scene.text().split(is_blank).take(branch.index).skip(2) {
        let (old, typed) = (Word::of(word), typed(word));
        if index_of(old.letters().first()) > index_of(branch.letters().first()) {
            return tell(format_args!(
                "it belongs before {typed}: branches are sorted by their first letters"
            ));
        }
        if old.target().bytes == branch.target().bytes {
            same = tell(format_args!("{typed} leads to the same node; write both as one branch"));
        }
    }
    same
}

// Returns the index of a letter in their order.
fn index_of(letter: Option<&u8>) -> Option<usize> {
    LETTERS.iter().position(|one| Some(one) == letter)
}

// Returns what to write in place of a letter that no branch has.
fn letter_hint(branch: &Word<'_>, letter: u8) -> &'static str {
    let letters = branch.letters();
    let target = branch.target().bytes;
    let is_turned = read_number(letters).is_some() && read_number(target).is_none();
    match letter {
        _ if is_turned && are_letters(target) =>
            "write the letters in front of the colon, and the node behind it",
        b'G' => "a go is a small g alone",
        b'o' | b'O' if is_word(letters, b"go") => "a go is a small g alone",
        b'0' | b'1' => "a ten is T, and an ace A",
        _ if letters.iter().any(is_other) => "write each rank by its letter, and no word",
        b'a' | b't' | b'j' | b'q' | b'k' => "a rank is a capital",
        _ if letter.is_ascii_alphanumeric() => "a branch has ranks and no suits",
        _ => "write each letter, with no sign between two, as in A23:1",
    }
}

/// Whether a word is some letters of branches.
pub(crate) fn are_letters(word: &[u8]) -> bool {
    !word.is_empty() && word.iter().all(|byte| LETTERS.contains(byte))
}

// Whether a letter names neither a rank nor a suit nor a go, in small letters or in capitals.
fn is_other(letter: &u8) -> bool {
    letter.is_ascii_alphabetic() && !b"ATJQKGCDHS".contains(&letter.to_ascii_uppercase())
}
