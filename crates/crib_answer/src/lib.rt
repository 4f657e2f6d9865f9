//! The answer of a job to an input: from bytes in memory to a text and a status in memory.
#![tactic(auto)]

mod answering;
mod asking;
mod ending;
mod job;
mod laws;
mod passed;
mod report;
mod solve;
mod verdict;

pub use answering::answer_to;
pub use job::{Job, NAMES, UnknownJob};
pub use laws::{agreement_law, check_law, reply_law, solve_law};
