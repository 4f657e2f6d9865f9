//! How many deals beat each plan at least.
#![tactic(auto)]

mod cases;
mod entries;
mod grades;
mod joins;
mod laws;
mod path;
mod players;
mod units;
mod walk;
mod weights;

pub use cases::bound_in_cases;
pub use laws::bound_law;
pub use players::is_for_all_players;
pub use units::unit_of;
pub use walk::bound_of;
