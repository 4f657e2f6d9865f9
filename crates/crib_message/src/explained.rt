//! The explanation of a refusal: its sentence, and the bytes of the line that are meant.
use crate::branches::branch_fault;
use crate::bytes::bad_byte;
use crate::grammar::{Row, Slot};
use crate::hints::hint_of;
use crate::misfit::{BAD_CARD, BAD_LINE, BAD_NEXT, BAD_SET, SAME_CARD, earlier_line, first_misfit};
use crate::order::{NEEDS_PLAYED, count_hint, order_hint, sections_hint};
use crate::scene::{Mark, Scene, Word, mark_of};
use crate::sentence::{Hint, Sentence, named, tell, typed};
use crate::turns::explain_turn;
use crib_cards::read_card;
use crib_input::Cause;
use crib_plan::PlanCause;
use crib_problem::ProblemCause;
use crib_text::{TextCause, read_number};
use std::fmt::Display;

/// The sentence of a refusal, and the stretch of its line that is meant.
#[derive(Clone, Copy)]
pub(crate) struct Explained {
    pub(crate) sentence: Sentence,
    pub(crate) mark: Option<Mark>,
}

/// Returns the explanation of a refusal for a cause.
pub(crate) fn explain(scene: &Scene<'_>, cause: Cause) -> Explained {
    let cause = match cause {
        Cause::Problem(ProblemCause::Text(cause)) => Cause::Text(cause),
        Cause::Plan(PlanCause::Text(cause)) => Cause::Text(cause),
        other => other,
    };
    let explained = match (cause, scene.row) {
        _ if scene.number == 0 => Some(said(format_args!("the input is {cause}"), None, None)),
        (Cause::Text(TextCause::BadByte), _) => bad_byte(scene),
        (Cause::Text(TextCause::CutShort), _) => Some(cut_short(scene)),
        (Cause::Problem(_), Row::Act) | (Cause::Game(_), _) => explain_turn(scene, cause),
        _ => bad_line(scene, cause),
    };
    explained.unwrap_or(said(format_args!("this line is {cause}"), None, None))
}

/// Returns what is wrong, and a hint.
pub(crate) fn said<T: Display + Drop>(text: T, mark: Option<Mark>, hint: Hint) -> Explained {
    let mut sentence = Sentence::of(text);
    if let Some(hint) = hint {
        sentence.add(format_args!(". {hint}"));
    }
    Explained { sentence, mark }
}

// Explains an input that is cut short: its last line has no LF, or a line is missing.
fn cut_short(scene: &Scene<'_>) -> Explained {
    if !scene.input.is_empty() && !scene.input.ends_with(b"\n") {
        let mark = Some(mark_of(scene.text().len(), 1));
        let hint = tell("Every line ends with LF, the last one too: press Enter behind it.");
        let text = "the last line is cut short; expected: LF at its end";
        return said(text, mark, hint);
    }
    let hint = match scene.row {
        _ if scene.input.is_empty() => tell("The input is empty."),
        Row::Played => tell(NEEDS_PLAYED),
        Row::Plan | Row::Game | Row::Turns => sections_hint(scene.sections),
        _ => count_hint(scene),
    };
    let pattern = scene.row.pattern();
    let text = format_args!("the input ends here; expected: {pattern}");
    said(text, None, hint)
}

// Explains a line behind the last section, or one with a word that does not fit or with too few words.
fn bad_line(scene: &Scene<'_>, cause: Cause) -> Option<Explained> {
    let first = Word::of(scene.word(0));
    let pattern = scene.row.pattern();
    let is_behind = cause == Cause::Text(TextCause::Trailing);
    if scene.text().is_empty() || is_behind {
        let (found, hint) = match first.bytes {
            [] => (Sentence::of("an empty line"), tell("Remove it.")),
            word => (typed(word), order_hint(scene)),
        };
        let text = format_args!("{found} is {cause}; expected: {pattern}");
        return Some(said(text, first.mark(), hint));
    }
    blank(scene).or(bad_word(scene, cause))
}

// Explains a blank at an end of a line, or of two blanks side by side the second.
fn blank(scene: &Scene<'_>) -> Option<Explained> {
    let line = scene.text();
    let (found, from) = match line.windows(2).position(|pair| pair == b"  ".as_slice()) {
        _ if line.starts_with(b" ") => ("a blank at the beginning of a line", 0),
        Some(first) => ("a second blank", first.saturating_add(1)),
        None if !line.ends_with(b" ") => return None,
        None => ("a blank at the end of a line", line.len().saturating_sub(1)),
    };
    let hint = tell("Write one blank between two words, and none at the ends of a line.");
    let mark = Some(mark_of(from, 1));
    Some(said(format_args!("{found} is {BAD_LINE}"), mark, hint))
}

// Explains a word that does not fit, or the end of a line with too few words.
fn bad_word(scene: &Scene<'_>, cause: Cause) -> Option<Explained> {
    let misfit = first_misfit(scene, cause)?;
    let is_node = matches!(misfit.slot, Slot::Branch) && !matches!(cause, BAD_LINE | BAD_SET);
    let word = match misfit.word.target() {
        node if is_node && !node.bytes.is_empty() => node,
        _ => misfit.word,
    };
    let typed = typed(word.bytes);
    let (why, hint) = match cause {
        SAME_CARD => return same_card(scene, &word),
        BAD_SET => (branch_fault(scene, &word)?, None),
        BAD_NEXT => not_later(scene, word.bytes),
        _ => {
            let hint = hint_of(scene, &misfit, cause);
            (wanted_at(scene, misfit.slot, cause, hint.is_some()), hint)
        }
    };
    let joint = if cause == BAD_SET { ": " } else { "" };
    let text = format_args!("{typed} is {cause}{joint}{why}");
    Some(said(text, word.mark(), hint))
}

// Explains a card of a problem that is already used.
fn same_card(scene: &Scene<'_>, card: &Word<'_>) -> Option<Explained> {
    let name = named(read_card(card.bytes)?);
    let line = earlier_line(scene, card)?;
    let on_line = match line == scene.number {
        true => Sentence::of(" on this line"),
        false => Sentence::of(format_args!(", on line {line}")),
    };
    let text = format_args!("{name} is {SAME_CARD}{on_line}");
    Some(said(text, card.mark(), None))
}

// Returns what is expected in place of a misfit.
fn wanted_at(scene: &Scene<'_>, slot: Slot, cause: Cause, has_hint: bool) -> Sentence {
    let is_number = cause != BAD_LINE || read_number(scene.word(0)).is_some();
    let own = scene.node();
    let left = scene.holes_left();
    let score = 121u32.saturating_sub(left);
    let words = match slot {
        _ if has_hint && cause == BAD_CARD => return Sentence::of(""),
        Slot::Own if is_number => Sentence::of(format_args!("{own}, the number of this node")),
        Slot::Holes => Sentence::of(format_args!(
            "1 to {left}, what is left from {score} to hole 121"
        )),
        _ => Sentence::of(words_at(scene, slot, cause)),
    };
    Sentence::of(format_args!("; expected: {words}"))
}

// Returns the words for what is expected in place of a misfit.
fn words_at(scene: &Scene<'_>, slot: Slot, cause: Cause) -> &'static str {
    let (is_card, is_form) = (cause == BAD_CARD, cause == BAD_LINE);
    match slot {
        Slot::Move if is_card => "go, or a card such as TS",
        _ if is_card => "a rank of A23456789TJQK and then a suit of CDHS, such as TS",
        Slot::Branch if is_form => "letters, one colon and a later node, such as A23:1",
        Slot::Branch => "the number of a later node behind the colon",
        Slot::Many if matches!(cause, Cause::Plan(_)) => "the number of nodes, 0 to 65535",
        Slot::Target => "the number of a later node, or end",
        Slot::Stated => "a card, and then a later node or end",
        Slot::Extra if scene.row == Row::Node => "the end of the line, behind a card and one node",
        Slot::Points if !is_form => "a number from 0 to 120",
        Slot::Count if !is_form => "a number from 0 to 32",
        _ => scene.row.pattern(),
    }
}

// Returns why a target isn't a later node, and the hint for it.
fn not_later(scene: &Scene<'_>, target: &[u8]) -> (Sentence, Hint) {
    let (own, count) = (scene.node(), scene.node_count());
    let last = count.saturating_sub(1);
    let why = match read_number(target) {
        None => Sentence::of(
            ": a see line names no end; leave this branch out, since a letter in no branch leads to the end",
        ),
        Some(number) if number < count => Sentence::of(format_args!(
            ": this is the line of node {own}, and a target has a greater number"
        )),
        Some(number) => Sentence::of(format_args!(
            ": node {number} isn't there: the nodes are numbered 0 to {last}"
        )),
    };
    (why, count_hint(scene))
}
