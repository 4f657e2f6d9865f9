//! For tests: problems, plans, games and boards as text, one name for each text. Tests of several crates read them.
//!
//! The opponent is the dealer unless a comment says otherwise.
#![tactic(auto)]

pub mod boards;
pub mod changes;
pub mod games;
pub mod plans;
pub mod problems;
mod sections;

pub use sections::{joined, joined_with};
