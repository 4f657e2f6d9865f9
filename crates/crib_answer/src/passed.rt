//! Plans that the checker found to be sure.
ghost use Rattle.std.specs.Prelude.{◌≡◌, ◌≢◌, None, IfSome};
ghost use Rattle.crib_sure.specs.Shows.{AreShowsOf};
ghost use Rattle.crib_sure.specs.Sure.{IsSure};

use crib_check::{Verdict, verdict_by};
use crib_plan::Plan;
use crib_problem::Problem;
use crib_sure::Shows;
use std::alloc::Allocator;

/// A plan that the checker found to be sure for a problem. Only [`passed`] makes a value of this type. `solve` prints
/// no plan without one.
#[derive(Drop)]
pub(crate) struct PassedPlan<'a, A: Allocator> {
    problem: &'a Problem,
    plan: &'a Plan<A>,
    ghost sure: { IsSure problem.now plan.now },
}

impl<'a, A: Allocator> PassedPlan<'a, A> {
    /// Returns the plan.
    pub(crate) fn plan(&self) -> &'a Plan<A>
        ensures { result.now ≡ self.now.plan.now }
    {
        self.plan
    }
}

/// Checks a plan, with shows of the problem that may have been counted before. Returns the plan if it is sure for the
/// problem, and `None` if it is not. Only the checker's position table allocates memory. If an allocation fails, the
/// result is the same.
pub(crate) fn passed<'a, A: Allocator + Copy>(
    alloc: A,
    problem: &'a Problem,
    plan: &'a Plan<A>,
    shows: Shows,
) -> Option<PassedPlan<'a, A>>
    requires { AreShowsOf problem.now shows }
    ensures plan { IfSome result (λ passed. passed.plan.now ≡ plan.now) }
    ensures sure { IsSure problem.now plan.now → result ≢ None }
{
    match verdict_by(alloc, problem, plan, shows) {
        Verdict::Holds => Some(PassedPlan { problem, plan }),
        Verdict::Fails(_, _) => None,
    }
}
