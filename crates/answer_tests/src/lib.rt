//! Tests of answers, their delivery, the messages of refusals, and the words of a command line.
#![tactic(auto)]

#[cfg(test)]
mod answer;
#[cfg(test)]
mod command;
#[cfg(test)]
mod message;
#[cfg(test)]
mod run;

#[cfg(test)]
use crib_run::{Answer, Status};
#[cfg(test)]
use std::alloc::Global;
#[cfg(test)]
use std::fmt::Debug;
#[cfg(test)]
use std::process::Abort;

// Asserts that two values are equal.
#[cfg(test)]
fn same<T: PartialEq + Debug + Drop>(rt: &impl Abort, found: T, wanted: T) {
    assert_eq!(rt; found, wanted);
}

// Asserts that an answer is this text, with this status.
#[cfg(test)]
fn is_answer(rt: &impl Abort, answer: &Answer<Global>, wanted: &str, status: Status) {
    same(rt, answer.as_slice(), wanted.as_bytes());
    same(rt, answer.status(), status);
}
