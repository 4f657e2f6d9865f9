//! The open deals of a problem, counted by the ranks of the hold and by what the show demands.
#![tactic(auto)]

mod choices;
mod deals;
mod holds;
mod points;
mod sums;
mod table;
mod throws;

pub use choices::{are_in_order, ranks_at};
pub use deals::Deals;
pub use table::{Counted, Table};
