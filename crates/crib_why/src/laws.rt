//! The law of answers. The function does nothing, and its contract is the law.
ghost use Rattle.crib_why.specs.Laws.{KindLaw};

use std::alloc::Allocator;

/// A problem has right answers of one kind only: [`Sure`](crate::Why::Sure), [`Refuted`](crate::Why::Refuted) or
/// [`BySuits`](crate::Why::BySuits).
pub fn kind_law<A: Allocator, B: Allocator>()
    ensures { KindLaw A B }
{}
