//! Tests against outside examples.

mod follows;
mod openings;
mod replays;
mod texts;
