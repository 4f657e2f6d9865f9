//! The sheet of a plan, with the verdict on it.
mod beaten;
mod figures;
mod head;
mod page;

pub use beaten::Best;
pub(crate) use beaten::{beaten_by, best_beside, best_of, figures_of};
pub(crate) use figures::{put_beating, put_grouped};
pub(crate) use page::put_plan_sheet;
