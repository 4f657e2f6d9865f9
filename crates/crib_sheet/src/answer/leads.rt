//! What may be played next for the problem that an input spells.
ghost use Rattle.std.specs.Prelude.{◌≡◌, ◌≤◌, IfErr, MatchResult, length};
ghost use Rattle.crib_leads.specs.Leads.{AreLeads};
ghost use Rattle.crib_run.specs.Reply.{IsOutcome};
ghost use Rattle.crib_sheet.specs.Leads.{AreStops, IsBelow, below_text, leads_reply, wants_stops};
ghost use Rattle.crib_sheet.specs.Private.Tries.{IsNoLeads, IsNoTurns};
ghost use Rattle.crib_sheet.specs.Sheet.{SheetMakes};
ghost use Rattle.crib_sheet.specs.Told.{SheetTells};

use crate::answer::job::SheetJob;
use crate::answer::to_try::tried_of;
use crate::leads::{is_any_sure, leads_status};
use crate::verdict::figures_of;
use crib_beaten::{Rows, Tally};
use crib_input::{FaultCause, Reason, problem_of};
use crib_leads::{Lead, Leads, leads_of};
use crib_plan::Plan;
use crib_problem::{Goal, Problem};
use crib_run::Status;
use crib_search::{Advice, SearchFault};
use crib_text::MAX_INPUT;
use std::alloc::Allocator;

/// The turns that may come next for a problem, with what is after each. Nothing more is allocated to send them.
#[derive(Drop)]
pub struct LeadsSheet<A: Allocator> {
    pub problem: Problem,
    pub leads: Leads<A>,
    /// If no card of the owner is sure to win: the same cards for the goal that the other player doesn't win.
    pub stops: Vec<Lead, A>,
    /// A plan to try, if no plan is sure.
    pub below: Option<TriedPlan<A>>,
}

/// A plan that is not sure, and the deals that beat it.
#[derive(Drop)]
pub struct TriedPlan<A: Allocator> {
    pub plan: Plan<A>,
    pub tally: Tally<A>,
    /// Rows that say which hands beat the plan, unless more than a tenth of all deals do.
    pub hands: Option<Rows>,
}

/// Returns what may be played next for the problem of an input, or the reason why there is no answer: the refusal of
/// the input, a sure plan with more than 65,535 nodes, or an allocation that failed.
pub(crate) fn leads_sheet<A: Allocator + Copy>(
    alloc: A,
    input: &[u8],
) -> Result<LeadsSheet<A>, Reason>
    requires { length input.now ≤ MAX_INPUT }
    ensures outcome { IsOutcome leads_reply (SheetMakes SheetJob.Leads input.now) result }
    ensures told { IfErr result (SheetTells SheetJob.Leads input.now) }
{
    let problem = problem_of(input)?;
    let mut advice = None;
    let leads = all_leads(alloc, &problem, &mut advice)?;
    let stops = stops_of(alloc, &problem, leads.own.as_slice())?;
    let status = leads_status(leads.own.as_slice(), leads.theirs.as_slice());
    let below = tried_below(alloc, &problem, status, &mut advice)?;
    Ok(LeadsSheet {
        problem,
        leads,
        stops,
        below,
    })
}

// Returns the turns that may come next.
fn all_leads<A: Allocator + Copy>(
    alloc: A,
    problem: &Problem,
    advice: &mut Option<Advice<A>>,
) -> Result<Leads<A>, Reason>
    ensures { MatchResult result (AreLeads problem.now) (IsNoTurns problem.now) }
{
    match leads_of(alloc, problem, advice) {
        Ok(leads) => Ok(leads),
        Err(SearchFault::TooLarge) => Err(Reason::Fault(FaultCause::TooLarge)),
        Err(SearchFault::NoMemory) => Err(Reason::Fault(FaultCause::NoMemory)),
    }
}

// Returns the owner's cards for the goal that the other player doesn't win, if none of them is sure to win.
fn stops_of<A: Allocator + Copy>(
    alloc: A,
    problem: &Problem,
    own: &[Lead],
) -> Result<Vec<Lead, A>, Reason>
    ensures { MatchResult result (λ stops. AreStops problem.now own.now stops.items) (IsNoLeads problem.now) }
{
    if !wants_stops(problem, own) {
        return Ok(Vec::new(alloc));
    }
    let Some(other) = problem.with_goal(Goal::Stop) else {
        return Ok(Vec::new(alloc));
    };
    let leads = all_leads(alloc, &other, &mut None)?;
    Ok(leads.own)
}

// Returns whether the goal is to win, it is the owner's turn, and no card is sure.
fn wants_stops(problem: &Problem, own: &[Lead]) -> bool
    ensures { result ≡ wants_stops problem.now.goal own.now }
{
    match own {
        [] => false,
        [_, ..] => problem.goal() == Goal::Win && !is_any_sure(own),
    }
}

// Returns the plan to try if no plan is sure, by the status of the turns.
fn tried_below<A: Allocator + Copy>(
    alloc: A,
    problem: &Problem,
    status: Status,
    advice: &mut Option<Advice<A>>,
) -> Result<Option<TriedPlan<A>>, Reason>
    ensures { MatchResult result (λ below. IsBelow problem.now status (below_text below)) (IsNoLeads problem.now) }
{
    if let Status::Yes = status {
        return Ok(None);
    }
    let tried = tried_of(alloc, problem, advice)?;
    if tried.is_sure {
        return Ok(None);
    }
    match figures_of(alloc, problem, &tried.plan) {
        Ok((tally, hands)) => Ok(Some(TriedPlan {
            plan: tried.plan,
            tally,
            hands,
        })),
        Err(_) => Err(Reason::Fault(FaultCause::NoMemory)),
    }
}
