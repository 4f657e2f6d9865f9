//! The labels of the lines below a look.
ghost use Rattle.std.specs.Prelude.{◌≡◌, ◌≤◌, ◌<◌, ◌+◌, ◌*◌, ◌++◌, length, drop};
ghost use Rattle.arrayvec.specs.ArrayVec.{array_vec_len};
ghost use Rattle.crib_plan_sheet.specs.PlanText.{label, range_words};
ghost use Rattle.crib_plan_sheet.specs.PlanText as spec;
ghost use Rattle.crib_plan_sheet.specs.Private.Pages.{spaced, spaced_label, width_at};

use arrayvec::ArrayVec;
use crib_plan::{LETTERS, Next, letters_to, new_node};
use crib_run::add;

/// The most bytes of a label.
pub(crate) const WIDEST: usize = 28;

/// The bytes of a label.
pub type Label = ArrayVec<u8, 28>;

// The words of a label, each after a space.
type SpacedLabel = ArrayVec<u8, 29>;

/// Returns the label of a set of letters: the ranks from the ace, those between two of them by a hyphen, and go. It has
/// no bytes if the set is empty.
pub fn label_of(set: &[bool; 14]) -> Label
    ensures items { result.items ≡ label set.now }
    ensures len { array_vec_len result ≡ length result.items }
{
    let spaced = label_after_space(set);
    let mut text = Label::new();
    add(&mut text, without_first(spaced.as_slice()));
    text
}

// Returns the bytes after the first one, or none if there are none.
fn without_first(bytes: &[u8]) -> &[u8]
    ensures { result.now ≡ drop 1 bytes.now }
{
    match bytes {
        [] => bytes,
        [_, rest @ ..] => rest,
    }
}

// Returns the label of a set of letters, after a space. It has no bytes if the set is empty.
#[tactic(auto, unfolding(crate::specs::Private::Pages::spaced_label))]
fn label_after_space(set: &[bool; 14]) -> SpacedLabel
    ensures items { result.items ≡ spaced_label set.now }
    ensures len { array_vec_len result ≡ length result.items }
{
    let mut text = SpacedLabel::new();
    let ranks = &set[..13];
    // The neighbouring ranks of the set just before an index.
    let mut before = 0;
    for index in 0..13 {
        if ranks[index] {
            before += 1;
        } else {
            add_range(&mut text, index, before);
            before = 0;
        }
    }
    add_range(&mut text, 13, before);
    if set[13] {
        add(&mut text, b" go");
    }
    text
}

// Adds the words of neighbouring ranks, by the index behind the last one and their number.
fn add_range(text: &mut SpacedLabel, index: usize, before: usize)
    requires within { before ≤ index }
    requires ranks { index ≤ 13 }
    requires room { array_vec_len text.old + 2 * before ≤ 26 }
    ensures items { text.new.items ≡ text.old.items ++ spaced (range_words index before) }
    ensures len { array_vec_len text.new ≤ array_vec_len text.old + 2 * before }
{
    if before == 0 {
        return;
    }
    let first = letter_byte(index - before);
    let last = letter_byte(index - 1);
    match before {
        1 => add(text, &[b' ', last]),
        2 => add(text, &[b' ', first, b' ', last]),
        _ => add(text, &[b' ', first, b'-', last]),
    }
}

/// Returns the byte of the letter with an index.
pub(crate) fn letter_byte(index: usize) -> u8
    requires { index < 14 }
    ensures { result ≡ spec.letter_byte index }
{
    LETTERS[index]
}

/// Returns the length of the longest label of the lines of a look, at most 28.
pub(crate) fn width_of(branches: &[Next; 14]) -> usize
    ensures width { result ≡ width_at branches.now 0 }
    ensures narrow { result ≤ WIDEST }
{
    let mut width = 0;
    for index in 0..14 {
        if let Some(node) = new_node(&branches[..index], branches[index]) {
            width = width.max(label_of(&letters_to(node, branches)).len());
        }
    }
    width
}
