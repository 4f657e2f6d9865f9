//! Positions, as a table stores them.

use crib_know::Shown;
use crib_plan::Next;

/// A position as a table stores it: the index of what the owner sees, what the opponent has shown, and the place of the
/// plan.
///
/// The place is not hashed, because few positions share the other two.
#[derive(Clone, Copy, PartialEq, Eq)]
#[derive_where(Hash)]
pub struct Entry {
    pub(crate) sight: u32,
    pub(crate) shown: Shown,
    #[derive_where(skip(Hash))]
    pub(crate) place: Next,
}
