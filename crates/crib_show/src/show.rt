//! The show: the points of a hand and of a crib, the order in which they are counted, and the outcome.

mod outcomes;
pub(crate) mod points;
mod words;

pub use outcomes::{Outcome, ShowRow, outcome_with, settle, show_rows};
pub use points::{
    MOST_POINTS, count_ranks, crib_points, hand_flush, hand_points, jack_points, plain_of_ranks,
};
