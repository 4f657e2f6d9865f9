//! How many deals beat a plan, and how many of each choice of four ranks.
#![tactic(auto)]

mod laws;
mod plays;
mod rows;
mod tally;

pub use laws::{beaten_law, tally_law};
pub use plays::{Plays, may_show};
pub use rows::{Row, Rows, Slot, Term, rows_of};
pub use tally::{RanksTally, Tally, tally_of};
