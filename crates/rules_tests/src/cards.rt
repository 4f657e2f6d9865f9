//! Tests against outside examples.

mod cards;
mod counts;
mod ranks;
mod sets;
mod text;
