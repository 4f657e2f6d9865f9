//! Tests of texts: bytes in and out, lines, words and numbers.
#![tactic(auto)]

#[cfg(test)]
use std::fmt::Debug;
#[cfg(test)]
use std::process::Abort;

#[cfg(test)]
mod text;

// Asserts that two values are equal.
#[cfg(test)]
fn same<T: PartialEq + Debug + Drop>(rt: &impl Abort, found: T, wanted: T) {
    assert_eq!(rt; found, wanted);
}
