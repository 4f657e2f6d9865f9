//! Tests of games and plans in words.
#![tactic(auto)]

#[cfg(test)]
use std::fmt::Debug;
#[cfg(test)]
use std::process::Abort;

#[cfg(test)]
mod game_sheet;
#[cfg(test)]
mod plan_sheet;

// Asserts that two values are equal.
#[cfg(test)]
fn same<T: PartialEq + Debug + Drop>(rt: &impl Abort, found: T, wanted: T) {
    assert_eq!(rt; found, wanted);
}

#[cfg(test)]
fn append(rt: &impl Abort, text: &mut String, more: &str) {
    text.push_str(more).expect(rt, "memory");
}

// Whether a text is a beginning of another, and not all of it.
#[cfg(test)]
fn is_front(text: &str, whole: &str) -> bool {
    text.len() < whole.len() && whole.starts_with(text)
}
