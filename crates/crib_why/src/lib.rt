//! Why a plan is sure, or none is: games that refute every player, or the answer that suits decide.
#![tactic(auto)]

mod laws;
mod search;
mod suits;
mod why;

pub use laws::kind_law;
pub use why::{Why, find_why};
