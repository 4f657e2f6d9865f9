#![tactic(auto)]

mod holes;
mod scores;
mod sure;

pub use holes::{Holes, TurnHoles, holes_of};
pub use scores::{Mark, Row, ScoreTable, scores_of};
