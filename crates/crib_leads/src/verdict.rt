//! Whether a plan is sure after a turn, or how many deals beat a plan.
ghost use Rattle.std.specs.Prelude.{◌≡◌, IfOk, IsErr, Err, IsFalse, IsTrue, MatchOption};
ghost use Rattle.crib_search.specs.Finder.{ExceedsLimit};
ghost use Rattle.crib_leads.specs.Leads.{IsVerdict, IsVerdictOn, IsTooLarge, is_sure, may_come};

use crate::ended::ended_verdict;
use crib_beaten::tally_of;
use crib_cards::{Act, Card, Move, Side};
use crib_problem::{Problem, ProblemCause};
use crib_search::{Advice, SearchFault, try_plan};
use std::alloc::Allocator;

/// What is after a turn.
#[derive(Clone, Copy, Debug, PartialEq, Eq)]
pub enum LeadVerdict {
    /// Some plan is sure. The plan that [`find`](crib_search::find) returns has so many nodes.
    Sure { nodes: usize },
    /// No plan is sure. Of the open deals so many beat the plan of [`try_plan`].
    Beaten { beaten: u32, open_deals: u32 },
    /// The deal is done, and each deal that agrees with the turn reaches the goal.
    Reached,
    /// The deal is done, and some deal that agrees with the turn misses the goal.
    Missed,
}

impl LeadVerdict {
    /// Whether the goal is reached: some plan is sure, or the deal is done and each deal reaches it.
    pub fn is_sure(&self) -> bool
        ensures { result ≡ is_sure self.now }
    {
        match self {
            LeadVerdict::Sure { .. } | LeadVerdict::Reached => true,
            LeadVerdict::Beaten { .. } | LeadVerdict::Missed => false,
        }
    }
}

/// Returns what is after a turn, or `None` if it may not come next.
///
/// It fails with [`SearchFault::TooLarge`] if a plan is sure after the turn, and the plan of
/// [`find`](crib_search::find) has more than 65,535 nodes. It fails with [`SearchFault::NoMemory`] if an allocation
/// fails, except one for a table of answers: if that fails, the search is slower.
///
/// The advice is for the problem: what a search finds behind a card of the owner is kept there, and looked up.
pub fn verdict_after<A: Allocator + Copy>(
    alloc: A,
    problem: &Problem,
    act: &Act,
    advice: &mut Option<Advice<A>>,
) -> Result<Option<LeadVerdict>, SearchFault>
    ensures right { IfOk result (λ found. MatchOption found (IsFalse (may_come problem.now act.now))
        (λ verdict. IsTrue (may_come problem.now act.now) × IsVerdict problem.now act.now verdict)) }

    // If the plan of `find` has too many nodes, the call fails. `TooLarge` is returned only then.
    ensures large { IsTooLarge problem.now act.now → IsErr result }
    ensures too_large { result ≡ Err SearchFault.TooLarge → IsTooLarge problem.now act.now }
{
    match problem.after(*act) {
        Ok(next) => {
            let verdict = verdict_on(alloc, &next, problem, own_card(act), advice)?;
            Ok(Some(verdict))
        }
        Err(ProblemCause::AlreadyOver) => Ok(Some(ended_verdict(problem, act))),
        Err(_) => Ok(None),
    }
}

// The card of a turn of the owner.
fn own_card(act: &Act) -> Option<Card> {
    match *act {
        Act {
            side: Side::Owner,
            what: Move::Card(card),
        } => Some(card),
        _ => None,
    }
}

// What is found for a problem. If the last turn of its opening is a card of the owner, the problem before it is given.
fn verdict_on<A: Allocator + Copy>(
    alloc: A,
    problem: &Problem,
    before: &Problem,
    last: Option<Card>,
    advice: &mut Option<Advice<A>>,
) -> Result<LeadVerdict, SearchFault>
    ensures right { IfOk result (IsVerdictOn problem.now) }
    ensures large { ExceedsLimit problem.now 65535 → IsErr result }
    ensures too_large { result ≡ Err SearchFault.TooLarge → ExceedsLimit problem.now 65535 }
{
    let tried = try_plan(alloc, problem, before, last, advice)?;
    if tried.is_sure {
        return Ok(LeadVerdict::Sure {
            nodes: tried.plan.nodes().len(),
        });
    }
    match tally_of(alloc, problem, &tried.plan) {
        Ok(tally) => Ok(LeadVerdict::Beaten {
            beaten: tally.beaten,
            open_deals: tally.open_deals,
        }),
        Err(_) => Err(SearchFault::NoMemory),
    }
}
