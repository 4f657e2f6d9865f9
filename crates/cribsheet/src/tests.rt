//! Tests of runs that read from memory and write to memory, and of the words of the command line.
mod beaten;
mod failures;
mod games;
mod growths;
mod holes;
mod leads;
mod messages;
mod next;
mod plans;
mod refutations;
mod runs;
mod scores;
mod tries;
mod words;

use std::fmt::Debug;
use std::process::Abort;

// Asserts that two values are equal.
fn same<T: PartialEq + Debug + Drop>(rt: &impl Abort, found: T, wanted: T) {
    assert_eq!(rt; found, wanted);
}
