//! Lines, words, numbers and refusals by example.

use crate::same;
use crib_text::{
    Line, Lines, Stopped, TextCause, TextFault, check_keyword, number_of, read_header, read_number,
    word_at,
};
use std::fmt::Display;
use std::process::Abort;

// No number is spelled so. The first one is empty.
const NOT_NUMBERS: &str = " 00 007 +7 -0 7x 4294967296 18446744073709551616";

// Returns the lines of a text, which must be accepted.
fn lines_of<'a>(rt: &impl Abort, text: &'a [u8]) -> Lines<'a> {
    assert!(rt; text.len() <= 1000);
    Lines::new(text).expect(rt, "lines")
}

fn next_of<'a>(rt: &impl Abort, lines: &mut Lines<'a>) -> Line<'a> {
    lines.next_line().expect(rt, "a line")
}

// Asserts that a line has this word, which starts at this byte of the text.
fn has_word(rt: &impl Abort, line: &Line<'_>, index: usize, word: &[u8], start: usize) {
    let token = line.word(index).expect(rt, "a word");
    same(rt, (token.bytes(), token.start()), (word, start));
}

/// Asserts that something is refused at this line, for the cause of this number.
pub(crate) fn is_refused<T: Drop>(
    rt: &impl Abort,
    outcome: Result<T, TextFault>,
    line: u32,
    cause: u8,
) {
    let fault = outcome.err().expect(rt, "a refusal");
    same(rt, (fault.line, fault.cause.number()), (line, cause));
}

fn text_is_refused(rt: &impl Abort, text: &[u8], line: u32, cause: u8) {
    assert!(rt; text.len() <= 1000);
    is_refused(rt, Lines::new(text), line, cause);
}

// Asserts the words for a value.
fn says(rt: &(impl Abort + AllocGlobal), value: &impl Display, words: &str) {
    let text = value.to_string(rt.alloc()).expect(rt, "memory");
    same(rt, text.as_str(), words);
}

#[test]
fn gives_the_lines_and_the_words_with_their_places(rt: HostRuntime) {
    let mut lines = lines_of(&rt, b"plan 1\n0 play 2C 1\nx\n");
    let first = next_of(&rt, &mut lines);
    same(&rt, (first.number(), first.word_count()), (1, 2));
    let second = next_of(&rt, &mut lines);
    same(&rt, (second.number(), second.word_count()), (2, 4));
    has_word(&rt, &second, 0, b"0", 7);
    has_word(&rt, &second, 1, b"play", 9);
    has_word(&rt, &second, 2, b"2C", 14);
    has_word(&rt, &second, 3, b"1", 17);
    assert!(rt; second.word(4).is_none());
    is_refused(&rt, lines.finish(), 3, 8);
    same(&rt, next_of(&rt, &mut lines).number(), 3);
    same(&rt, lines.finish(), Ok(()));
    is_refused(&rt, lines.next_line(), 4, 3);
}

#[test]
fn refuses_bad_bytes_and_a_missing_end(rt: HostRuntime) {
    for text in ["", "\n", " ~\n"] {
        let _accepted = lines_of(&rt, text.as_bytes());
    }
    text_is_refused(&rt, b"a\nb\r\nc\n", 2, 1);
    text_is_refused(&rt, b"a\nb\tc", 2, 1);
    text_is_refused(&rt, b"\x7f", 1, 1);
    text_is_refused(&rt, b"a\n\x1f\n", 2, 1);
    text_is_refused(&rt, b"a\nb", 2, 3);
    text_is_refused(&rt, b"a", 1, 3);
}

#[test]
fn refuses_an_empty_word_and_stays(rt: HostRuntime) {
    for text in ["\nx\n", " a\nx\n", "a \nx\n", "a  b\nx\n"] {
        let mut lines = lines_of(&rt, text.as_bytes());
        is_refused(&rt, lines.next_line(), 1, 4);
        is_refused(&rt, lines.next_line(), 1, 4);
        is_refused(&rt, lines.finish(), 1, 8);
    }
}

#[test]
fn reads_numbers(rt: HostRuntime) {
    same(&rt, read_number(b"0"), Some(0));
    same(&rt, read_number(b"7"), Some(7));
    same(&rt, read_number(b"120"), Some(120));
    same(&rt, read_number(b"4294967295"), Some(4_294_967_295));
    for word in NOT_NUMBERS.split(' ') {
        same(&rt, (word, read_number(word.as_bytes())), (word, None));
    }
    same(&rt, read_number(b"\xff"), None);
}

#[test]
fn reads_a_section_line(rt: HostRuntime) {
    let mut lines = lines_of(&rt, b"plan 1\nplan 2\nplan x\ngame 1\nplan\nnodes 12\n");
    for outcome in [
        Ok(()),
        Err(TextCause::BadVersion),
        Err(TextCause::BadNumber),
        Err(TextCause::BadLine),
        Err(TextCause::BadLine),
    ] {
        let line = next_of(&rt, &mut lines);
        same(&rt, read_header(&line, b"plan"), outcome);
    }
    let line = next_of(&rt, &mut lines);
    assert!(rt; check_keyword(&line, b"nodes", 1).is_ok());
    same(
        &rt,
        check_keyword(&line, b"node", 1),
        Err(TextCause::BadLine),
    );
    same(
        &rt,
        check_keyword(&line, b"nodes", 2),
        Err(TextCause::BadLine),
    );
    same(&rt, word_at(&line, 0), b"nodes");
    same(&rt, number_of(b"12"), Ok(12));
    same(&rt, number_of(b"12th"), Err(TextCause::BadNumber));
}

#[test]
fn tells_why(rt: HostRuntime) {
    let fault = TextFault {
        line: 3,
        cause: TextCause::BadNumber,
    };
    says(&rt, &fault, "line 3: not a valid number here");
    says(&rt, &Stopped { sent: 7 }, "the writer failed after 7 bytes");
    for (cause, number) in [
        (TextCause::BadByte, 1),
        (TextCause::TooLong, 2),
        (TextCause::CutShort, 3),
        (TextCause::BadLine, 4),
        (TextCause::BadCard, 5),
        (TextCause::BadNumber, 6),
        (TextCause::BadVersion, 7),
        (TextCause::Trailing, 8),
        (TextCause::ReadFault, 9),
        (TextCause::NoMemory, 11),
    ] {
        let fault = TextFault::of_input(cause);
        same(&rt, (fault.line, fault.cause.number()), (0, number));
    }
}
