//! Positions: what the owner knows, with the place of the plan.
ghost use Rattle.std.specs.Prelude.{◌≡◌};
ghost use Rattle.crib_know.specs.Knowledge.{played_events};
ghost use Rattle.crib_sure.specs.Positions.{StandsAt};

use crib_know::Know;
use crib_plan::{Next, Plan, start};
use crib_problem::Problem;
use std::alloc::Allocator;

/// A position: what the owner knows, and the place of the plan.
#[derive(PartialEq, Eq, Hash, Drop)]
pub struct Key {
    /// What the owner knows.
    pub know: Know,
    /// The place of the plan.
    pub place: Next,
}

impl Key {
    /// Returns the position after the opening.
    #[inline(always)]
    pub fn start<A: Allocator>(problem: &Problem, plan: &Plan<A>) -> Self
        ensures { StandsAt problem.now plan.now result (played_events problem.now) }
    {
        Key {
            know: Know::start(problem),
            place: start(plan),
        }
    }

    /// A copy of the position.
    pub fn copy(&self) -> Self
        ensures { result ≡ self.now }
    {
        Key {
            know: self.know.copy(),
            place: self.place,
        }
    }
}
