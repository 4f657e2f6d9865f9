//! What may be played next, and after each such turn whether a plan is sure, or how many deals beat a plan.
#![tactic(auto)]

mod ended;
mod laws;
mod leads;
mod order;
mod theirs;
mod verdict;

pub use laws::lead_law;
pub use leads::{Lead, Leads, leads_of};
pub use verdict::{LeadVerdict, verdict_after};
