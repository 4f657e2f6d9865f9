//! Tests against outside examples.

mod fitting;
mod points;
mod rounds;
