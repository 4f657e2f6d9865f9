//! Sheets of plans, for a person to read: a plan in words, the position now, and why a plan is stuck.
#![tactic(auto)]

mod index;
mod labels;
mod laws;
mod now;
mod outline;
mod page;
mod rows;
mod spots;
mod stuck;
mod ways;

pub use labels::{Label, label_of};
pub use laws::{play_law, sheet_law, sheet_text_law};
pub use now::put_now;
pub use outline::Outline;
pub use page::put_plan;
pub use stuck::{put_letter, put_stuck};
