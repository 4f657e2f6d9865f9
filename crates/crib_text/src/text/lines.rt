//! The lines of a text, read one after another.
ghost use Rattle.std.specs.Prelude.{◌≡◌, ◌≤◌, ◌+◌, length, true};
ghost use Rattle.crib_text.specs.Words.{is_ended};

use super::bytes::check_bytes;
use super::line::{Line, len_before};
use crate::devices::MAX_INPUT;
use crate::fault::{Fault, TextCause, TextFault};

/// The lines of a text that are left, and the number of the first of them. A refused call leaves them unchanged.
#[derive(Clone, Copy)]
pub struct Lines<'a> {
    source: &'a [u8],
    at: usize,
    number: u32,
    ghost short: { length source.now ≤ 8388608 },
    ghost within: { at ≤ length source.now },
    ghost counted: { number ≤ at + 1 },
    ghost ended: { is_ended source.now ≡ true },
}

impl<'a> Lines<'a> {
    ghost use Rattle.std.specs.Prelude.{IfOk, OnErr};
    ghost use Rattle.crib_text.specs.Refusals.{text_refusal};
    ghost use Rattle.crib_text.specs.Reading.{Gives, Reads, all_lines, line_at, end_at};
    ghost use Rattle.crib_text.specs.Spelling.{line_text};
    ghost use Rattle.crib_text.specs.Lines.{IsLineOf, rest_of, source_of, lines_start, line_of, line_start};

    /// Returns the lines of a text, which may have at most 8,388,608 bytes. The text is refused with 1 if a byte is
    /// neither LF nor 32 to 126, at the line of the first such byte. Otherwise it is refused with 3 if the last byte
    /// isn't LF, at the last line. The empty text has no lines.
    #[tactic(auto, using(crate::proofs::ByteLemmas::checked_ended), unfolding(crate::specs::Lines::rest_of, crate::specs::Lines::source_of, crate::specs::Lines::lines_start, crate::specs::Reading::all_lines))]
    pub fn new(bytes: &'a [u8]) -> Result<Lines<'a>, TextFault>
        requires { length bytes.now ≤ MAX_INPUT }
        ensures exact { Gives rest_of text_refusal result (all_lines bytes.now) }
        ensures source { IfOk result (λ lines. source_of lines ≡ bytes.now) }
        ensures start { IfOk result (λ lines. lines_start lines ≡ 0) }
    {
        check_bytes(bytes)?;
        Ok(Lines {
            source: bytes,
            at: 0,
            number: 1,
        })
    }

    /// Returns the next line and moves on. It is refused with 3 if no line is left, at the line that is missing. It is
    /// refused with 4 if a word is empty: the line has no byte, a space is at an end, or two spaces meet.
    pub fn next_line(&mut self) -> Result<Line<'a>, TextFault>
        ensures exact { Reads line_of text_refusal line_at (rest_of self.old) (rest_of self.new) result }
        ensures slice { IfOk result (IsLineOf (source_of self.old)) }
        ensures start { IfOk result (λ line. line_start line ≡ lines_start self.old) }
        ensures next { IfOk result
            (λ line. lines_start self.new ≡ lines_start self.old + length (line_text (line_of line).words)) }
        ensures source { source_of self.new ≡ source_of self.old }
        ensures err { OnErr result (self.new ≡ self.old) }
    {
        let rest = &self.source[self.at..];
        if rest.is_empty() {
            return Err(Fault::at(self.number, TextCause::CutShort));
        }
        let len = len_before(rest, b'\n');
        let line = Line {
            bytes: &rest[..len],
            start: self.at,
            number: self.number,
        };
        if line.has_empty_word() {
            return Err(Fault::at(self.number, TextCause::BadLine));
        }
        self.at += len + 1;
        self.number += 1;
        Ok(line)
    }

    /// The number of the next line, from 1. If no line is left, it is the number of lines plus one.
    #[tactic(auto, unfolding(crate::specs::Lines::rest_of))]
    pub fn number(&self) -> u32
        ensures value { result ≡ (rest_of self.now).number }
        ensures range { result ≤ 8388609 }
    {
        let Lines { number, .. } = *self;
        number
    }

    /// Checks that no line is left. Otherwise refuses with 8, at the first line that is left.
    pub fn finish(&self) -> Result<(), TextFault>
        ensures { Gives (λ _. tt) text_refusal result (end_at (rest_of self.now)) }
    {
        if self.at < self.source.len() {
            return Err(Fault::at(self.number, TextCause::Trailing));
        }
        Ok(())
    }
}
