//! What the lines of all sections have in common. Reading the words of a line refuses with a cause alone, and `in_line`
//! adds the line.
#![tactic(auto, using(crate::proofs::SectionLemmas::first_words))]

ghost use Rattle.std.specs.Prelude.{◌≡◌, ◌<◌, ◌+◌, Some, Ok, Err, length, drop, slice_get, MatchResult, OnOk};
ghost use Rattle.crib_text.specs.Refusals.{cause_number};
ghost use Rattle.crib_text.specs.Reading.{Gives, after_keyword, number_in, header_in};
ghost use Rattle.crib_text.specs.Lines.{line_of};

use super::line::Line;
use super::number::read_number;
use crate::fault::{Fault, TextCause};

/// Returns the bytes of the word with this index, from 0. The line must have that word.
pub fn word_at<'a>(line: &Line<'a>, index: usize) -> &'a [u8]
    requires { index < length (line_of line.now).words }
    ensures { slice_get (line_of line.now).words index ≡ Some result.now }
{
    line.word(index).unwrap().bytes()
}

/// Checks that the first word of a line is this keyword, and that `count` words follow it. Otherwise the line is
/// refused with 4.
pub fn check_keyword(line: &Line<'_>, keyword: &[u8], count: u32) -> Result<(), TextCause>
    ensures exact { Gives (λ _. drop 1 (line_of line.now).words) cause_number result
        (after_keyword keyword.now count (line_of line.now).words) }
    ensures len { OnOk result (length (line_of line.now).words ≡ count + 1) }
{
    if line.word_count() != count as usize + 1 || word_at(line, 0) != keyword {
        return Err(TextCause::BadLine);
    }
    Ok(())
}

/// Returns the number that a word spells. A word that spells none is refused with 6.
#[tactic(auto, unfolding(crate::specs::Reading::number_in))]
pub fn number_of(word: &[u8]) -> Result<u32, TextCause>
    ensures { Gives (λ number. number) cause_number result (number_in word.now) }
{
    read_number(word).ok_or(TextCause::BadNumber)
}

/// Checks that a line is the first line of a section, as `plan 1` is: the name, and the version 1. It is refused with 4
/// for another name or another number of words, with 6 if the second word is no number, and with 7 for another version.
#[tactic(auto, using(crate::proofs::SectionLemmas::first_words), unfolding(crate::specs::Reading::header_in))]
pub fn read_header(line: &Line<'_>, name: &[u8]) -> Result<(), TextCause>
    ensures { Gives (λ _. tt) cause_number result (header_in name.now (line_of line.now).words) }
{
    check_keyword(line, name, 1)?;
    let version = number_of(word_at(line, 1))?;
    if version != 1 {
        return Err(TextCause::BadVersion);
    }
    Ok(())
}

/// Returns the refusal of a line for a cause.
pub fn fault_in<C>(line: &Line<'_>, cause: C) -> Fault<C>
    ensures { result ≡ record { line = (line_of line.now).number; cause = cause } }
{
    Fault::at(line.number(), cause)
}

/// Returns what was read in a line, or the refusal of the line for this cause.
pub fn in_line<T, C>(line: &Line<'_>, read: Result<T, C>) -> Result<T, Fault<C>>
    ensures { MatchResult read (λ value. result ≡ Ok value)
        (λ cause. result ≡ Err (record { line = (line_of line.now).number; cause = cause })) }
{
    match read {
        Ok(value) => Ok(value),
        Err(cause) => Err(fault_in(line, cause)),
    }
}
