//! A line of the input as it is shown: its number, its bytes, and below them the mark.
ghost use Rattle.std.specs.Prelude.{◌≡◌, ◌<◌, ◌≤◌, ◌⊎◌, ◌+◌, ◌-◌, ◌*◌, ◌/◌, ◌%◌, ◌++◌, []};
ghost use Rattle.std.specs.Prelude.{ℕ, List, drop, flat_map, length, min, take};
ghost use Rattle.std.specs.List.{list_all};
ghost use Rattle.arrayvec.specs.ArrayVec.{array_vec_len};
ghost use Rattle.crib_input.specs.Refusals.{refusal_of};
ghost use Rattle.crib_message.specs.Message.{IsExcerpt, IsMark, dots, is_plain, is_refused, marks_below};
ghost use Rattle.crib_message.specs.Message.{shown_byte, shown_line, touch};

use crate::scene::Mark;
use arrayvec::ArrayVec;
use crib_cards::read_card;
use crib_input::Refusal;
use crib_text::read_number;
use itoa::Buffer;

// The most bytes of a line that are shown.
const SHOWN: usize = 100;

// How many bytes are shown before the mark, if the line is cut there.
const BEFORE: usize = 40;

/// A line as it is shown, at most 900 bytes.
pub(crate) type Excerpt = ArrayVec<u8, 900>;

// A line in three stretches, of which the middle one is shown.
#[derive(Clone, Copy)]
struct Window<'a> {
    before: &'a [u8],
    shown: &'a [u8],
    after: &'a [u8],
}

/// Returns a line with its number and the mark below it. At most 100 bytes of the line are shown, the first ones or
/// those around the mark, with `...` where it is cut. Bytes other than 32 to 126 are shown as `\xNN`.
pub(crate) fn excerpt_of(refusal: &Refusal, line: &[u8], mark: Option<Mark>) -> Excerpt
    ensures { IsExcerpt (refusal_of refusal.now) line.now result.items }
{
    let from = mark.map_or(0, |mark| mark.from.saturating_sub(BEFORE));
    let window = cut(line, from.min(line.len().saturating_sub(SHOWN)), SHOWN);
    let mut excerpt = shown(refusal.line, window);
    if let Some(mark) = mark {
        let meant = cut(line, mark.from, mark.len);
        add_mark(&mut excerpt, refusal, window, meant);
    }
    excerpt
}

// Cuts bytes in three, the middle one from an index on, with so many bytes if there are.
fn cut(bytes: &[u8], from: usize, len: usize) -> Window<'_>
    ensures cut { bytes.now ≡ result.before.now ++ (result.shown.now ++ result.after.now) }
    ensures wide { length result.shown.now ≡ min len (length bytes.now - from) }
    ensures before { result.before.now ≡ take from bytes.now }
    ensures shown { result.shown.now ≡ take len (drop from bytes.now) }
{
    let (before, rest) = bytes.split_at(from.min(bytes.len()));
    let (shown, after) = rest.split_at(len.min(rest.len()));
    Window {
        before,
        shown,
        after,
    }
}

// Returns the number of a line, the bytes of its window, and LF.
fn shown(number: u32, window: Window<'_>) -> Excerpt
    requires { length window.shown.now ≤ 100 }
    ensures items { result.items
        ≡ shown_line number window.entry.before.now window.entry.shown.now window.entry.after.now }
    ensures short { array_vec_len result ≤ 422 }
{
    let mut excerpt = Excerpt::new();
    add(&mut excerpt, b"  ");
    add(&mut excerpt, Buffer::new().format(number).as_bytes());
    add(&mut excerpt, b" | ");
    add(&mut excerpt, dots(window.before));
    for byte in window.shown {
        add_byte(&mut excerpt, *byte);
    }
    add(&mut excerpt, dots(window.after));
    add(&mut excerpt, b"\n");
    excerpt
}

// Returns `...` if there are bytes that are not shown.
fn dots(hidden: &[u8]) -> &'static [u8]
    ensures text { result.now ≡ dots hidden.now }
    ensures short { length result.now ≤ 3 }
{
    if hidden.is_empty() { b"" } else { b"..." }
}

// Appends a byte, as `\xNN` if it is not 32 to 126.
fn add_byte(excerpt: &mut Excerpt, byte: u8)
    requires { array_vec_len excerpt.old ≤ 838 }
    ensures items { excerpt.new.items ≡ excerpt.old.items ++ shown_byte byte }
    ensures len { array_vec_len excerpt.new ≤ array_vec_len excerpt.old + 4 }
{
    let digits = b"0123456789abcdef";
    let (first, last) = (usize::from(byte / 16), usize::from(byte % 16));
    if is_plain(&byte) {
        add(excerpt, &[byte]);
    } else {
        add(excerpt, &[b'\\', b'x', digits[first], digits[last]]);
    }
}

fn add(excerpt: &mut Excerpt, bytes: &[u8])
    requires { array_vec_len excerpt.old + length bytes.now ≤ 900 }
    ensures items { excerpt.new.items ≡ excerpt.old.items ++ bytes.now }
    ensures len { array_vec_len excerpt.new ≡ array_vec_len excerpt.old + length bytes.now }
{
    excerpt.try_extend_from_slice(bytes).unwrap();
}

/// Whether a byte is shown as it is.
pub(crate) fn is_plain(byte: &u8) -> bool
    ensures { result ≡ is_plain byte.now }
{
    (b' '..=b'~').contains(byte)
}

fn are_plain(bytes: &[u8]) -> bool
    ensures { result ≡ list_all is_plain bytes.now }
{
    bytes.iter().all(is_plain)
}

// Appends the line below: carets below the bytes that are meant, or one caret if the mark is empty. A mark below what
// can't be refused is left out.
fn add_mark(excerpt: &mut Excerpt, refusal: &Refusal, window: Window<'_>, mark: Window<'_>)
    requires room { array_vec_len excerpt.old ≤ 422 }
    requires short { length window.shown.now ≤ 100 }
    ensures { (below : List ℕ) × ((below ≡ []) ⊎ IsMark (refusal_of refusal.now)
        (mark.entry.before.now ++ (mark.entry.shown.now ++ mark.entry.after.now))
        window.entry.before.now window.entry.shown.now below) × (excerpt.new.items ≡ excerpt.old.items ++ below) }
{
    let (from, hidden) = (mark.before.len(), window.before.len());
    if from < hidden || !is_refused(refusal.cause.number(), mark) {
        return;
    }
    let Window { before, shown, .. } = cut(window.shown, from - hidden, mark.shown.len());
    let meant = if shown.is_empty() { b" " } else { shown };
    add(excerpt, b"  ");
    add_below(excerpt, b' ', Buffer::new().format(refusal.line).as_bytes());
    add(excerpt, b" | ");
    add_below(excerpt, b' ', dots(window.before));
    add_below(excerpt, b' ', before);
    add_below(excerpt, b'^', meant);
    add(excerpt, b"\n");
}

// Whether a stretch of a line can be what is refused with this number.
fn is_refused(number: u8, mark: Window<'_>) -> bool
    ensures { result ≡ is_refused number mark.entry.before.now mark.entry.shown.now mark.entry.after.now }
{
    let word = mark.shown;
    let (is_card, value) = (read_card(word).is_some(), read_number(word));
    match number {
        _ if touch(mark.before, word) || touch(word, mark.after) => false,
        1 => are_plain(mark.before) && word.first().is_some_and(|byte| !is_plain(byte)),
        8 => mark.before.is_empty(),
        47 => mark.before.is_empty() && mark.after.is_empty(),
        _ if word.is_empty() => matches!(number, 3 | 4) && mark.after.is_empty(),
        _ if word.contains(&b' ') => number == 4 && word.len() == 1,
        _ if mark.before.is_empty() => matches!(number, 4 | 6 | 44),
        4 | 23 | 24 | 41 | 42 | 43 | 45 | 46 => true,
        5 => !is_card,
        6 => !value.is_some_and(|value| value <= 32),
        7 | 22 | 32 => value.is_some(),
        20 | 40 => is_card,
        21 => value.is_some_and(|value| value > 120),
        30 => value.is_some() || word == b"end".as_slice(),
        31 => word.contains(&b':'),
        _ => false,
    }
}

// Whether a word has the last byte before a place, and the first one behind it.
fn touch(before: &[u8], behind: &[u8]) -> bool
    ensures { result ≡ touch before.now behind.now }
{
    let is_of_word = |byte: &u8| (b'!'..=b'~').contains(byte) && *byte != b':';
    before.last().is_some_and(is_of_word) && behind.first().is_some_and(is_of_word)
}

// Appends a mark below each column in which bytes are shown.
fn add_below(excerpt: &mut Excerpt, mark: u8, bytes: &[u8])
    requires { array_vec_len excerpt.old + 4 * length bytes.now ≤ 900 }
    ensures items { excerpt.new.items ≡ excerpt.old.items ++ flat_map (marks_below mark) bytes.now }
    ensures len { array_vec_len excerpt.new ≤ array_vec_len excerpt.old + 4 * length bytes.now }
{
    for byte in bytes {
        if is_plain(byte) {
            add(excerpt, &[mark]);
        } else {
            add(excerpt, &[mark; 4]);
        }
    }
}
