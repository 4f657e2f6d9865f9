//! The section of a game, read and written.

mod game;
mod reading;
mod words_of_lines;
mod writing;

pub use game::Game;
pub use reading::read_game;
pub use writing::write_game;
