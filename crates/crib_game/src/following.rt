//! How a plan is followed through a game.

mod ending;
mod follows;

pub use ending::Ending;
pub use follows::follow;
