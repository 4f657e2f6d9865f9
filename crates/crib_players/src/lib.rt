//! Players of every kind, and games that refute all of them.
#![tactic(auto)]

mod judge;
mod laws;

pub use judge::refutes;
pub use laws::{
    cards_law, follower_law, no_plan_law, refuted_law, sure_card_law, sure_turn_law, turn_law,
};
