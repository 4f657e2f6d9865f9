//! What a sure plan is, the shows that are still possible, and positions with the turns after them.
#![tactic(auto)]

mod keys;
mod shows;
mod turns;

pub use keys::Key;
pub use shows::{Shows, demand_at_end, is_reached};
pub use turns::{go_by_own, go_by_theirs, own_move};
