//! Games that refute every player in words, for a person to read.
#![tactic(auto)]

mod groups;
mod held;
mod laws;
mod line;
mod names;
mod page;
mod rows;
mod runs;
mod scores;

pub use laws::row_law;
pub use line::{Columns, Spread, Text, WhyLine};
pub use page::put_lines;
pub use rows::why_lines;
