//! The sheet of a game: what each point is for.
mod acts;
mod before;
mod combination;
mod counted;
mod laws;
mod pegged;
mod reason;
mod reasons;
mod shows;
mod text;

pub use before::put_acts_beside;
pub use combination::{Combination, Kind};
pub use laws::{combination_law, game_sheet_law, points_law};
pub use reason::PlayReason;
pub use reasons::{PlayReasons, reasons_of};
pub use shows::{Combinations, crib_combinations, hand_combinations};
pub use text::{put_game_sheet, put_played};
