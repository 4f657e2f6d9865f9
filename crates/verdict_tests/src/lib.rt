//! Tests of the checker, the finder, and the deals that beat a plan.
#![tactic(auto)]

#[cfg(test)]
mod beaten;
#[cfg(test)]
mod bound;
#[cfg(test)]
mod check;
#[cfg(test)]
mod leads;
#[cfg(test)]
mod search;
#[cfg(test)]
mod sections;
#[cfg(test)]
mod tables;

#[cfg(test)]
use std::fmt::Debug;
#[cfg(test)]
use std::process::Abort;

// Asserts that two values are equal.
#[cfg(test)]
fn same<T: PartialEq + Debug + Drop>(rt: &impl Abort, found: T, wanted: T) {
    assert_eq!(rt; found, wanted);
}
