//! The first word of a line that does not fit the grammar.
use crate::branches::branch_cause;
use crate::grammar::{Row, Slot};
use crate::scene::{Scene, Section, Word, is_blank, text_at};
use crate::spelling::is_either;
use crib_cards::read_card;
use crib_input::Cause;
use crib_plan::PlanCause;
use crib_problem::ProblemCause;
use crib_text::{TextCause, read_number};

/// The cause of a word that its line doesn't have.
pub(crate) const BAD_LINE: Cause = Cause::Text(TextCause::BadLine);

pub(crate) const BAD_CARD: Cause = Cause::Text(TextCause::BadCard);

pub(crate) const BAD_SET: Cause = Cause::Plan(PlanCause::BadSet);

pub(crate) const BAD_NEXT: Cause = Cause::Plan(PlanCause::BadNext);

pub(crate) const SAME_CARD: Cause = Cause::Problem(ProblemCause::SameCard);

/// A word that does not fit, or the end of a line that is too short.
#[derive(Clone, Copy)]
pub(crate) struct Misfit<'a> {
    /// What the grammar has there.
    pub(crate) slot: Slot,
    /// The word. It is empty if the line ends there.
    pub(crate) word: Word<'a>,
}

/// Returns the first misfit of a line that is refused for a cause. If the line has another form than the grammar's,
/// this is the first word that no line of its form has there.
pub(crate) fn first_misfit<'a>(scene: &Scene<'a>, cause: Cause) -> Option<Misfit<'a>> {
    let mut from = 0usize;
    for (index, bytes) in scene.text().split(is_blank).enumerate() {
        let word = Word { bytes, index, from };
        let slot = scene.slot(index);
        if let Some(found) = refusal(scene, slot, &word)
            && (found == cause || (cause == BAD_LINE && matches!(found, Cause::Text(_))))
        {
            return Some(Misfit { slot, word });
        }
        from = from.saturating_add(bytes.len()).saturating_add(1);
    }
    let index = scene.word_count();
    let slot = scene.slot(index);
    let is_short = cause == BAD_LINE && !matches!(slot, Slot::Extra | Slot::Branch);
    let (bytes, from) = (b"".as_slice(), scene.text().len());
    let word = Word { bytes, index, from };
    Some(Misfit { slot, word }).filter(|_| is_short)
}

/// Returns why a word does not fit its slot, if it doesn't.
pub(crate) fn refusal(scene: &Scene<'_>, slot: Slot, word: &Word<'_>) -> Option<Cause> {
    match slot {
        Slot::Branch => branch_cause(scene, word),
        Slot::Move if word.bytes == b"go".as_slice() => None,
        Slot::Target if word.bytes == b"end".as_slice() => None,
        Slot::Card | Slot::Stated | Slot::Move if read_card(word.bytes).is_none() => Some(BAD_CARD),
        Slot::Stated | Slot::Move => None,
        Slot::Card => earlier_line(scene, word).and(Some(SAME_CARD)),
        Slot::Keyword | Slot::Aim | Slot::Side | Slot::Kind | Slot::Actor | Slot::Extra =>
            (!is_fitting(scene, slot, word.bytes)).then_some(BAD_LINE),
        _ => number_cause(scene, slot, read_number(word.bytes)),
    }
}

// Whether a word is one of those that its slot takes.
fn is_fitting(scene: &Scene<'_>, slot: Slot, word: &[u8]) -> bool {
    match slot {
        Slot::Keyword => word == scene.row.keyword().as_bytes(),
        Slot::Aim if word == b"stop".as_slice() => scene.is_second(),
        Slot::Aim if !scene.word(2).is_empty() => is_either(word, b"win", b"holes"),
        Slot::Aim => word == b"win".as_slice(),
        Slot::Side => is_either(word, b"owner", b"opponent"),
        Slot::Kind => is_either(word, b"play", b"see"),
        Slot::Actor => is_either(word, b"own", b"opp"),
        _ => false,
    }
}

/// Returns the first line of a problem that has a card before this word, if there is one.
pub(crate) fn earlier_line(scene: &Scene<'_>, card: &Word<'_>) -> Option<u32> {
    let is_problem = matches!(scene.spot.section, Section::Problem);
    (1..=scene.number).take_while(|_| is_problem).find(|line| {
        let end = if *line == scene.number { card.index } else { 5 };
        let words = text_at(scene.input, *line).split(is_blank);
        words.take(end).skip(1).any(|word| word == card.bytes)
    })
}

/// Returns why a number does not fit its slot, if it doesn't.
pub(crate) fn number_cause(scene: &Scene<'_>, slot: Slot, number: Option<u32>) -> Option<Cause> {
    let own = scene.node();
    let last = scene.node_count().saturating_sub(1);
    let (least, greatest, cause) = match slot {
        Slot::Version if scene.row == Row::Problem => (1, 2, Cause::Text(TextCause::BadVersion)),
        Slot::Version => (1, 1, Cause::Text(TextCause::BadVersion)),
        Slot::Points => (0, 120, Cause::Problem(ProblemCause::BadScore)),
        Slot::Holes => (1, scene.holes_left(), Cause::Problem(ProblemCause::BadGoal)),
        Slot::Count => (0, 32, Cause::Text(TextCause::BadNumber)),
        Slot::Many => (0, 65_535, Cause::Plan(PlanCause::TooMany)),
        Slot::Own => (own, own, BAD_LINE),
        _ => (own.saturating_add(1), last, BAD_NEXT),
    };
    match number {
        None => Some(Cause::Text(TextCause::BadNumber)),
        Some(number) if (least..=greatest).contains(&number) => None,
        Some(_) => Some(cause),
    }
}
