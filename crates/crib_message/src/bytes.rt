//! Bytes that no text has.
use crate::cards::TWO_LETTERS;
use crate::excerpt::is_plain;
use crate::explained::{Explained, said};
use crate::order::TABLES;
use crate::scene::{Scene, mark_of};
use crate::sentence::{Sentence, tell, typed};
use crib_text::TextCause;

/// Explains a line with a byte that is neither LF nor 32 to 126. Returns nothing if there is no such byte.
pub(crate) fn bad_byte(scene: &Scene<'_>) -> Option<Explained> {
    let line = scene.text();
    let from = line.iter().position(|byte| !is_plain(byte))?;
    let rest = line.get(from..).unwrap_or(b"");
    // A sign in UTF-8 has up to four bytes.
    let len = match rest {
        [0xC2..=0xDF, 0x80..=0xBF, ..] => 2,
        [0xE0..=0xEF, 0x80..=0xBF, 0x80..=0xBF, ..] => 3,
        [0xF0..=0xF4, 0x80..=0xBF, 0x80..=0xBF, 0x80..=0xBF, ..] => 4,
        _ => 1,
    };
    let bytes = rest.get(..len).unwrap_or(rest);
    let file = file_hint(scene);
    let found = match (file, rest) {
        (None, [b'\r', ..]) => Sentence::of("a line end of Windows or old Macs (CR)"),
        (None, [b'\t', ..]) => Sentence::of("a tab"),
        _ => typed(bytes),
    };
    let mark = Some(mark_of(from, bytes.len()));
    let hint = tell(file.unwrap_or(byte_hint(rest)));
    let text = format_args!("{found} is {}", TextCause::BadByte);
    Some(said(text, mark, hint))
}

// Returns the hint for a file that is no plain text: the marks with which it may begin, or three bytes that no text
// file has.
fn file_hint(scene: &Scene<'_>) -> Option<&'static str> {
    let is_control = |byte: &&u8| matches!(**byte, 0..=8 | 14..=26 | 28..=31);
    let controls = scene.input.iter().take(512).filter(is_control).count();
    Some(match (scene.number, scene.text()) {
        (1, [0xEF, 0xBB, 0xBF, ..]) => "Save the file as plain ASCII, without a byte-order mark.",
        (1, [0xFF, 0xFE, ..] | [0xFE, 0xFF, ..] | [b'p', 0, ..] | [0, b'p', ..]) =>
            "Save the file as plain ASCII, not as UTF-16.",
        _ if controls >= 3 => "The input is no text.",
        _ => return None,
    })
}

fn byte_hint(rest: &[u8]) -> &'static str {
    match rest {
        [b'\r', ..] => "A line ends with LF alone: save the file with Unix line ends.",
        [b'\t', ..] if rest.iter().filter(|byte| **byte == b'\t').count() > 5 => TABLES,
        [b'\t', ..] => "Write a blank in place of the tab.",
        [0x1B, ..] => "Remove the colour codes of a terminal.",
        [0..=31 | 127, ..] => "Remove this control character.",
        [0xC2, 0xA0, ..] | [0xE2, 0x80, 0x80..=0x8A | 0xAF, ..] | [0xE3, 0x80, 0x80, ..] =>
            "Write a plain blank in place of the special one.",
        [0xE2, 0x99, 0xA0 | 0xA4, ..] => "Write the suit sign of spades as the letter S.",
        [0xE2, 0x99, 0xA1 | 0xA5, ..] => "Write the suit sign of hearts as the letter H.",
        [0xE2, 0x99, 0xA2 | 0xA6, ..] => "Write the suit sign of diamonds as the letter D.",
        [0xE2, 0x99, 0xA3 | 0xA7, ..] => "Write the suit sign of clubs as the letter C.",
        [0xEF, 0xB8, 0x8F, ..] | [0xE2, 0x80, 0x8B..=0x8F, ..] => "Remove the invisible sign here.",
        [0xE2, 0x80, 0x98..=0x9F, ..] => "Remove the quotation mark.",
        [0xF0, 0x9F, 0x82 | 0x83, ..] => TWO_LETTERS,
        _ => "Write plain ASCII letters, digits and signs.",
    }
}
