//! The answers of the second program: sheets of plans and of games, how many deals beat a plan, a plan to try, games
//! that refute every player, or the same in words, what may be played next, what comes next, at which scores turns are
//! sure, and how many holes are.
#![tactic(auto)]

mod answer;
mod holes;
mod laws;
mod leads;
mod next;
mod refutation;
mod scores;
mod tally;
mod verdict;

pub use answer::{GameSheet, LeadsSheet, NAMES, NextSheet, PlanSheet, Sheet, SheetJob, TriedPlan};
pub use holes::HolesSheet;
pub use laws::sheet_law;
pub use refutation::InWords;
pub use scores::ScoreSheet;
pub use verdict::Best;
