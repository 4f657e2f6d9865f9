//! The table of the grammar against the readers.
use super::messages::{has_sentence, refusal_in};
use crib_input::{Cause, Refusal, Sections};
use crib_plan::PlanCause;
use crib_problem::ProblemCause;
use crib_text::TextCause;
use example_texts::joined_with;
use std::process::Abort;

// Each kind of line of FORMATS' grammar.
const QUESTION: &str =
    "problem 2\ndealer opponent\nscore 0 7\nstarter 3H\nhold TC 9C 2C 8C\nthrow 4S 6S\ngoal stop\n\
    played 3\nown TC\nopp TD\nown 9C\nplan 1\nnodes 4\n0 see Ag:1 2JK:3\n1 play 2C 3\n2 see\n3 play 8C end\n";

const PLAYED: &str =
    "problem 1\ndealer owner\nscore 60 120\nstarter KD\nhold 2C 3C 4C 5C\nthrow 6C 6D\ngoal holes 61\n\
    game 1\nhold 7C 8C 9C TC\nthrow 7D 8D\nacts 2\nopp 7C\nown 2C\n";

const UNDER: &str =
    "problem 2\ndealer opponent\nscore 0 0\nstarter 3H\nhold TC 9C 2C 8C\nthrow 4S 6S\ngoal win\n\
    played 0\nplan 1\nnodes 1\n0 play TC end\ngame 1\nhold TD KD KH QS\nthrow 5H 7D\nacts 2\nown TC\nopp TD\n";

const NEXT: &str =
    "problem 2\ndealer opponent\nscore 0 0\nstarter 3H\nhold TC 9C 2C 8C\nthrow 4S 6S\ngoal win\n\
    played 1\nown TC\nplan 1\nnodes 1\n0 play 9C end\nturns 2\nopp TD\nown 9C\n";

// Words that are in place of each word of a line, behind it, and in place of nothing.
const WORDS: &str =
    "problem dealer owner opponent score 0 1 2 3 4 32 33 61 62 120 121 65535 65536 01 x KD 2C 9S 10C go \
    own opp goal win holes stop played plan nodes play see end A:1 A3:1 :1 A:0 2:3 A:4 A:end A:x A1 AA:1 5A:1 \
    game turns";

// The causes of words that do not fit their lines.
const CAUSES: [Cause; 10] = [
    Cause::Text(TextCause::BadLine),
    Cause::Text(TextCause::BadCard),
    Cause::Text(TextCause::BadNumber),
    Cause::Text(TextCause::BadVersion),
    Cause::Problem(ProblemCause::SameCard),
    Cause::Problem(ProblemCause::BadScore),
    Cause::Problem(ProblemCause::BadGoal),
    Cause::Plan(PlanCause::BadNext),
    Cause::Plan(PlanCause::BadSet),
    Cause::Plan(PlanCause::TooMany),
];

// A line of an input with these sections, by its number from 1.
#[derive(Clone, Copy)]
struct Line<'a> {
    sections: Sections,
    number: u32,
    text: &'a str,
}

// Whether a cause is that an act may not be next, for a line that has this text. That is not for the grammar.
fn is_of_play(cause: Cause, text: &str) -> bool {
    match cause {
        Cause::Game(_) => true,
        Cause::Problem(ProblemCause::Text(_)) => false,
        Cause::Problem(_) => text.starts_with("own ") || text.starts_with("opp "),
        _ => false,
    }
}

// Whether a message names a word of the line. If none is at fault, it says no more than the cause.
fn names_a_word(
    rt: &(impl Abort + AllocGlobal),
    sections: Sections,
    input: &str,
    refusal: Refusal,
) -> bool {
    let cause = refusal.cause;
    let plain = format!(in rt.alloc(); "this line is {cause}").expect(rt, "memory");
    !has_sentence(rt, sections, input, refusal, plain.as_str())
}

// Whether no cause of the grammar names a word of the line.
fn names_none(rt: &(impl Abort + AllocGlobal), line: Line<'_>, input: &str) -> bool {
    for cause in CAUSES {
        let refusal = Refusal {
            line: line.number,
            cause,
        };
        if !is_of_play(cause, line.text) && names_a_word(rt, line.sections, input, refusal) {
            return false;
        }
    }
    true
}

// Asserts that a word of a line is named where the readers refuse the line of this input, for their cause, and that
// else none is.
fn agrees(rt: &(impl Abort + AllocGlobal), line: Line<'_>, input: &str) {
    let is_right = match refusal_in(rt, line.sections, input) {
        Some(refusal) if refusal.line < line.number => true,
        Some(refusal) if refusal.line == line.number && !is_of_play(refusal.cause, line.text) => {
            names_a_word(rt, line.sections, input, refusal)
        }
        _ => names_none(rt, line, input),
    };
    assert!(rt; is_right, "line {} of {input}", line.number);
}

// Adds words to a text, with a blank between two words.
fn add_words(rt: &impl Abort, text: &mut String, words: &[&str]) {
    for word in words {
        if !text.is_empty() {
            text.push(' ').expect(rt, "memory");
        }
        text.push_str(*word).expect(rt, "memory");
    }
}

// Asserts that table and readers agree on a line of an input with these words in place of the one at an index, from 0.
fn agrees_with(
    rt: &(impl Abort + AllocGlobal),
    line: Line<'_>,
    input: &str,
    index: usize,
    words: &[&str],
) {
    let mut text = String::new(rt.alloc());
    for (place, old) in line.text.split(' ').enumerate() {
        if place == index {
            add_words(rt, &mut text, words);
        } else {
            add_words(rt, &mut text, &[old]);
        }
    }
    let number = line.number as usize;
    let changed = joined_with(rt.alloc(), &[input], number, text.as_str());
    agrees(rt, line, changed.expect(rt, "memory").as_str());
}

// Asserts that they agree without a word, `old`, and with each other word in place of it, and before it.
fn agree_at(rt: &(impl Abort + AllocGlobal), line: Line<'_>, input: &str, index: usize, old: &str) {
    agrees_with(rt, line, input, index, &[]);
    for word in WORDS.split(' ') {
        agrees_with(rt, line, input, index, &[word]);
        agrees_with(rt, line, input, index, &[word, old]);
    }
}

// Asserts that they agree on a line of an input, and on the line with one word changed.
fn agree_on(rt: &(impl Abort + AllocGlobal), line: Line<'_>, input: &str) {
    agrees(rt, line, input);
    for (index, old) in line.text.split(' ').enumerate() {
        agree_at(rt, line, input, index, old);
    }
}

// Asserts that they agree on each line of an input.
fn agree(rt: &(impl Abort + AllocGlobal), sections: Sections, input: &str) {
    assert!(rt; refusal_in(rt, sections, input).is_none());
    let mut number = 0u32;
    for text in input.lines() {
        number = number.saturating_add(1);
        let line = Line {
            sections,
            number,
            text,
        };
        agree_on(rt, line, input);
    }
}

#[test]
fn questions_have_the_form_of_the_table(rt: HostRuntime) {
    agree(&rt, Sections::Question, QUESTION);
}

#[test]
fn games_have_the_form_of_the_table(rt: HostRuntime) {
    agree(&rt, Sections::Played, PLAYED);
}

#[test]
fn games_under_plans_have_the_form_of_the_table(rt: HostRuntime) {
    agree(&rt, Sections::PlayedUnder, UNDER);
}

#[test]
fn turns_have_the_form_of_the_table(rt: HostRuntime) {
    agree(&rt, Sections::Turns, NEXT);
}
