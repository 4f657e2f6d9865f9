//! A refused line: its section, its number there, and its words.
ghost use Rattle.std.specs.Prelude.{◌≡◌, ◌≤◌, ◌==◌, [], option_map, slice_get, unwrap_or};
ghost use Rattle.crib_text.specs.Words.{words_of};
ghost use Rattle.crib_message.specs.Place.{announced, first_lines, numbered_line, spot_behind, spot_in, text_at};

use crate::grammar::{Row, Slot};
use crate::scene::Section::{After, Game, Plan, Problem, Turns};
use crib_input::Sections;
use crib_text::read_number;

// Returns the bytes of the line with this number, from 1. The last line may lack its LF. Returns `None` if the input
// has no such line.
fn line_at(input: &[u8], number: u32) -> Option<&[u8]>
    ensures { option_map (λ line. line.now) result ≡ numbered_line input.now number }
{
    if number == 0 || input.is_empty() {
        return None;
    }
    let text = match input.strip_suffix(b"\n") {
        Some(text) => text,
        None => input,
    };
    text.split(is_line_feed).nth(number as usize - 1)
}

/// Returns the bytes of the line with this number, from 1, or none.
pub(crate) fn text_at(input: &[u8], number: u32) -> &[u8]
    ensures { result.now ≡ text_at input.now number }
{
    line_at(input, number).unwrap_or(b"")
}

/// Returns the bytes of the word with this index, from 0, or none. Words are separated by single spaces.
pub(crate) fn word_in(line: &[u8], index: usize) -> &[u8]
    ensures { result.now ≡ unwrap_or (slice_get (words_of line.now) index) [] }
{
    line.split(is_blank).nth(index).unwrap_or(b"")
}

pub(crate) fn is_blank(byte: &u8) -> bool
    ensures { result ≡ (byte.now == 32) }
{
    *byte == b' '
}

pub(crate) fn is_line_feed(byte: &u8) -> bool
    ensures { result ≡ (byte.now == 10) }
{
    *byte == b'\n'
}

/// A stretch of the bytes of a line.
#[derive(Clone, Copy)]
pub(crate) struct Mark {
    pub(crate) from: usize,
    pub(crate) len: usize,
}

/// Returns the stretch of so many bytes from an index.
pub(crate) fn mark_of(from: usize, len: usize) -> Mark {
    Mark { from, len }
}

/// A word of a line, its index there, and that of its first byte in the line.
#[derive(Clone, Copy)]
pub(crate) struct Word<'a> {
    pub(crate) bytes: &'a [u8],
    pub(crate) index: usize,
    pub(crate) from: usize,
}

impl<'a> Word<'a> {
    /// Returns the first word of a line.
    pub(crate) fn of(bytes: &'a [u8]) -> Word<'a> {
        let (index, from) = (0, 0);
        Word { bytes, index, from }
    }

    /// Returns the bytes of the line that the word takes.
    pub(crate) fn mark(&self) -> Option<Mark> {
        Some(mark_of(self.from, self.bytes.len()))
    }

    /// Returns the part in front of the first colon.
    pub(crate) fn letters(&self) -> &'a [u8] {
        self.bytes.split(|byte| *byte == b':').next().unwrap_or(b"")
    }

    /// Returns the part behind the first colon, or none.
    pub(crate) fn target(&self) -> Word<'a> {
        let start = self.letters().len().saturating_add(1);
        let bytes = self.bytes.get(start..).unwrap_or(b"");
        let (index, from) = (self.index, self.from.saturating_add(start));
        Word { bytes, index, from }
    }
}

/// A section of an input.
#[derive(Clone, Copy)]
pub(crate) enum Section {
    Problem,
    Plan,
    Game,
    /// The turns since a problem.
    Turns,
    /// The lines after the last section.
    After,
}

/// The spot of a line: its section, and its number there, from 1.
#[derive(Clone, Copy)]
pub(crate) struct Spot {
    pub(crate) section: Section,
    pub(crate) number: u32,
}

// Returns the spot of a line. The lines before it are valid, so their counts state how long a section is.
fn spot_of(sections: Sections, input: &[u8], line: u32) -> Spot
    ensures { result ≡ spot_in sections input.now line }
{
    let sections: &[Section] = match sections {
        Sections::Problem => &[Problem],
        Sections::Question => &[Problem, Plan],
        Sections::Played => &[Problem, Game],
        Sections::PlayedUnder => &[Problem, Plan, Game],
        Sections::Turns => &[Problem, Plan, Turns],
    };
    spot_behind(input, line, 0, sections)
}

// Returns the spot of a line, if these sections are behind so many lines.
#[tactic(auto, unfolding(crate::specs::Place::spot_behind))]
fn spot_behind(input: &[u8], line: u32, before: u32, sections: &[Section]) -> Spot
    requires { before ≤ line }
    ensures { result ≡ spot_behind input.now line before sections.now }
{
    let number = line - before;
    let [section, others @ ..] = sections else {
        let section = After;
        return Spot { section, number };
    };
    let first = section.first_lines(input);
    if number > first && number - first > count_at(input, before + first) {
        let before = before + first + count_at(input, before + first);
        return spot_behind(input, line, before, others);
    }
    let section = *section;
    Spot { section, number }
}

impl Section {
    // Returns how many lines the section begins with. The last of them announces how many follow.
    fn first_lines(self, input: &[u8]) -> u32
        ensures lines { result ≡ first_lines input.now self }
        ensures few { result ≤ 8 }
    {
        match self {
            Problem if text_at(input, 1) == b"problem 2".as_slice() => 8,
            Problem => 7,
            Plan => 2,
            Game => 4,
            Turns => 1,
            After => 0,
        }
    }
}

/// Returns the number of lines of the problem.
pub(crate) fn problem_len(input: &[u8]) -> u32 {
    let first = Problem.first_lines(input);
    first.saturating_add(count_at(input, first))
}

/// Returns the number that is the second word of a line, or 0 if there is none.
pub(crate) fn count_at(input: &[u8], line: u32) -> u32
    ensures { result ≡ announced input.now line }
{
    read_number(word_in(text_at(input, line), 1)).unwrap_or(0)
}

/// A line that is refused, or the spot of one that is missing.
#[derive(Clone, Copy)]
pub(crate) struct Scene<'a> {
    /// The sections that the input has to have.
    pub(crate) sections: Sections,
    pub(crate) input: &'a [u8],
    /// The number of the line in the input, from 1. It is 0 if the refusal is of no line.
    pub(crate) number: u32,
    /// The bytes of the line, without its LF, unless the line is missing.
    pub(crate) line: Option<&'a [u8]>,
    pub(crate) spot: Spot,
    /// The line that the grammar has at this spot.
    pub(crate) row: Row,
}

impl<'a> Scene<'a> {
    /// Returns the scene of a line, from 1, that is not later than the first refusal.
    pub(crate) fn new(sections: Sections, input: &'a [u8], number: u32) -> Scene<'a>
        ensures line { option_map (λ line. line.now) result.line ≡ numbered_line input.now number }
        ensures spot { result.spot ≡ spot_in sections input.now number }
    {
        let spot = spot_of(sections, input, number);
        Scene {
            sections,
            input,
            number,
            line: line_at(input, number),
            spot,
            row: Row::at(spot),
        }
    }

    /// Returns the bytes of the line, or none if it is missing.
    pub(crate) fn text(&self) -> &'a [u8] {
        self.line.unwrap_or(b"")
    }

    /// Returns the bytes of the word with this index, or none.
    pub(crate) fn word(&self, index: usize) -> &'a [u8] {
        word_in(self.text(), index)
    }

    /// Returns the number of words.
    pub(crate) fn word_count(&self) -> usize {
        self.text().split(is_blank).count()
    }

    /// Returns what the grammar has at this word.
    pub(crate) fn slot(&self, index: usize) -> Slot {
        self.row.slot(self.word(1), index)
    }

    /// Whether the input begins with a problem of version 2.
    pub(crate) fn is_second(&self) -> bool {
        Problem.first_lines(self.input) > 7
    }

    /// Returns the number of lines before the section.
    pub(crate) fn before(&self) -> u32 {
        self.number.saturating_sub(self.spot.number)
    }

    /// Returns the node that a line of a plan has to state.
    pub(crate) fn node(&self) -> u32 {
        self.spot.number.saturating_sub(3)
    }

    /// Returns the number of nodes that the plan announces.
    pub(crate) fn node_count(&self) -> u32 {
        count_at(self.input, self.before().saturating_add(2))
    }

    /// Returns the holes that the owner is short of 121.
    pub(crate) fn holes_left(&self) -> u32 {
        121u32.saturating_sub(count_at(self.input, 3))
    }
}
