//! What is said of refused inputs.
use super::tables::rows_of;
use crate::same;
use crib_game::{follow, replay};
use crib_input::{
    Played, PlayedUnder, Reason, Refusal, Sections, played_of, played_under_of, problem_of,
    question_of,
};
use crib_message::message_of;
use crib_next::{next_of, next_question_of};
use crib_text::MAX_INPUT;
use example_texts::joined;
use std::alloc::Allocator;
use std::process::Abort;

// Returns the refusal of a game that was read.
fn judged(played: &Played) -> Option<Refusal> {
    match replay(&played.problem, &played.game) {
        Ok(_) => None,
        Err(fault) => Some(Refusal::of_game(fault, played.first, &played.game)),
    }
}

// Returns the refusal of a game that was read with its plan.
fn followed<A: Allocator>(played: &PlayedUnder<A>) -> Option<Refusal> {
    match follow(&played.problem, &played.plan, &played.game) {
        Ok(_) => None,
        Err(fault) => Some(Refusal::of_game(fault, played.first, &played.game)),
    }
}

fn refusal_of(reason: &Reason) -> Option<Refusal> {
    match reason {
        Reason::Refused(refusal) => Some(*refusal),
        Reason::Fault(_) => None,
    }
}

/// Returns the refusal of an input with these sections, if it is refused. Its game is judged too, and so are its turns.
pub(crate) fn refusal_in(
    rt: &(impl Abort + AllocGlobal),
    sections: Sections,
    input: &str,
) -> Option<Refusal> {
    let bytes = input.as_bytes();
    assert!(rt; bytes.len() <= MAX_INPUT);
    match sections {
        Sections::Problem => problem_of(bytes).err(),
        Sections::Question => match question_of(rt.alloc(), bytes) {
            Ok(_) => None,
            Err(reason) => refusal_of(&reason),
        },
        Sections::Played => match played_of(bytes) {
            Ok(played) => judged(&played),
            Err(refusal) => Some(refusal),
        },
        Sections::PlayedUnder => match played_under_of(rt.alloc(), bytes) {
            Ok(played) => followed(&played),
            Err(reason) => refusal_of(&reason),
        },
        Sections::Turns => match next_question_of(rt.alloc(), bytes) {
            Ok(question) => next_of(&question).err(),
            Err(reason) => refusal_of(&reason),
        },
    }
}

// Returns the refusal of an input that has to be refused.
fn refused(rt: &(impl Abort + AllocGlobal), sections: Sections, input: &str) -> Refusal {
    let Some(refusal) = refusal_in(rt, sections, input) else {
        panic!(rt; "not refused: {input}");
    };
    refusal
}

/// Whether the message of a refusal has this sentence behind its heading.
pub(crate) fn has_sentence(
    rt: &impl Abort,
    sections: Sections,
    input: &str,
    refusal: Refusal,
    sentence: &str,
) -> bool {
    let reason = Reason::Refused(refusal);
    let message = message_of(b"cribplan", sections, input.as_bytes(), &reason);
    let said = std::str::from_utf8(message.as_slice()).expect(rt, "text");
    let first = said.split('\n').next().unwrap_or("");
    let parts = if refusal.line > 0 { 3 } else { 2 };
    first.splitn(parts, ": ").last() == Some(sentence)
}

/// Asserts that each input of a table is explained by its words.
pub(crate) fn are_explained(rt: &(impl Abort + AllocGlobal), sections: Sections, table: &str) {
    for row in rows_of(rt, table).iter() {
        let (input, words) = (row.input.as_str(), row.words.as_str());
        let refusal = refused(rt, sections, input);
        assert!(rt;
            has_sentence(rt, sections, input, refusal, words),
            "of {input}"
        );
    }
}

/// Asserts that the message of a reason is this text.
pub(crate) fn is_said(
    rt: &impl Abort,
    sections: Sections,
    input: &[u8],
    reason: Reason,
    wanted: &str,
) {
    let message = message_of(b"cribplan", sections, input, &reason);
    same(rt, std::str::from_utf8(message.as_slice()), Ok(wanted));
}

/// Asserts that the message of each input of a table has its words, and a line end.
pub(crate) fn are_said(rt: &(impl Abort + AllocGlobal), sections: Sections, table: &str) {
    for row in rows_of(rt, table).iter() {
        let wanted = joined(rt.alloc(), &[row.words.as_str(), "\n"]).expect(rt, "memory");
        let reason = Reason::Refused(refused(rt, sections, row.input.as_str()));
        is_said(rt, sections, row.input.as_bytes(), reason, wanted.as_str());
    }
}
