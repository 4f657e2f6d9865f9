//! Sheets of games, for a person to read: a game with the reasons of its points.
#![tactic(auto)]

mod game;
mod heading;
mod puts;

pub use game::{
    Combination, Combinations, Kind, PlayReason, PlayReasons, combination_law, crib_combinations,
    game_sheet_law, hand_combinations, points_law, put_acts_beside, put_game_sheet, put_played,
    reasons_of,
};
pub use heading::{put_heading, put_how_many};
