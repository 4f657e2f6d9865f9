//! The walk through the acts of a game, and its replay.

pub(crate) mod judge;
mod judging;
mod remark;
mod replays;
mod report;

pub(crate) use judging::JudgedGame;
pub(crate) use remark::Remark;
pub use replays::{full_with, replay};
pub use report::{Report, Row};
