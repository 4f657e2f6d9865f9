//! The inputs of the commands: the sections that bytes spell, or the refusal of the bytes with its cause.
#![tactic(auto)]

mod reading;
mod reason;
mod refusal;
mod sections;

pub use reading::{
    Played, PlayedUnder, Question, played_of, played_under_of, problem_of, question_of,
};
pub use reason::{FaultCause, Reason};
pub use refusal::{Cause, Refusal};
pub use sections::Sections;
