//! What comes next when a plan is played: the turns since its problem, read and judged, and what the owner does then.
#![tactic(auto)]

mod laws;
mod next;
mod question;
mod section;
mod walk;

pub use laws::next_law;
pub use next::NextTurn;
pub use question::{NextQuestion, next_question_of};
pub use section::{Turns, read_turns};
pub use walk::next_of;
