//! Tables of inputs, each with the words that are expected of it.
//!
//! A table is a text. A line that begins with `>` is an input, with a bar for the end of each of its lines, and the
//! lines below it are the words. A blank joins two lines of words, but a line that begins with a blank is an excerpt,
//! and stays a line of its own. A line that begins with `#` is what each input below it begins with, and one with `+`
//! adds to that.
use std::process::Abort;

/// An input, and the words that are expected of it.
#[derive(Drop)]
pub(crate) struct Row {
    pub(crate) input: String,
    pub(crate) words: String,
}

/// Returns the rows of a table.
pub(crate) fn rows_of(rt: &(impl Abort + AllocGlobal), table: &str) -> Vec<Row> {
    let mut rows: Vec<Row> = Vec::new(rt.alloc());
    let mut beginning = String::new(rt.alloc());
    for line in table.split('\n') {
        read_line(rt, line, &mut beginning, &mut rows);
    }
    assert!(rt; !rows.is_empty());
    rows
}

// Reads a line of a table. It is for what each input begins with, for a row of its own, or for the words of the last
// row.
fn read_line(
    rt: &(impl Abort + AllocGlobal),
    line: &str,
    beginning: &mut String,
    rows: &mut Vec<Row>,
) {
    if let Some(lines) = line.strip_prefix('#') {
        beginning.clear();
        add_lines(rt, beginning, lines);
    } else if let Some(lines) = line.strip_prefix('+') {
        add_lines(rt, beginning, lines);
    } else if let Some(lines) = line.strip_prefix('>') {
        let mut input = String::from_str(rt.alloc(), beginning.as_str()).expect(rt, "memory");
        add_lines(rt, &mut input, lines);
        let words = String::new(rt.alloc());
        rows.push(Row { input, words }).expect(rt, "memory");
    } else if !line.is_empty() {
        let row = rows.last_mut().expect(rt, "an input above its words");
        add_words(rt, &mut row.words, line);
    }
}

// Adds lines, each with its end.
fn add_lines(rt: &impl Abort, text: &mut String, lines: &str) {
    let lines = lines.strip_prefix(' ').unwrap_or(lines);
    for letter in lines.chars() {
        let letter = if letter == '|' { '\n' } else { letter };
        text.push(letter).expect(rt, "memory");
    }
}

// Adds a line of words.
fn add_words(rt: &impl Abort, words: &mut String, line: &str) {
    if !words.is_empty() {
        let between = if line.starts_with(' ') { '\n' } else { ' ' };
        words.push(between).expect(rt, "memory");
    }
    words.push_str(line).expect(rt, "memory");
}
