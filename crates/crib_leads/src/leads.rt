//! What may be played next, and what is after each such turn.
ghost use Rattle.std.specs.Prelude.{◌≡◌, ◌++◌, ◌∷◌, [], IfOk, Err};
ghost use Rattle.crib_cards.specs.declared.moves.Act.{Act};
ghost use Rattle.crib_leads.specs.Leads.{AreEntries, AreLeads, IsTooLarge, own_turns};
ghost use Rattle.crib_leads.specs.Private.Turns.{Adds};

use crate::theirs::their_leads;
use crate::verdict::{LeadVerdict, verdict_after};
use crib_cards::{Act, CardSet, Move, Side};
use crib_problem::Problem;
use crib_search::{Advice, SearchFault};
use std::alloc::{Allocator, Global};

/// A turn that may come next, and what is after it.
#[derive(Clone, Copy)]
pub struct Lead {
    /// The turn.
    pub act: Act,
    /// Whether the entry is that of all cards of the rank. The turn has the lowest of them.
    pub is_rank: bool,
    /// What is after the turn.
    pub verdict: LeadVerdict,
}

/// The turns that may come next. Only the side to move has any.
#[derive(Drop)]
pub struct Leads<A: Allocator = Global> {
    /// The turns of the owner: the cards in pack order, or a go.
    pub own: Vec<Lead, A>,
    /// The ranks that the opponent may show, and a go if they may say it, the worst for the owner first.
    pub theirs: Vec<Lead, A>,
}

/// Returns each turn that may come next, and what is after it.
///
/// On the owner's turn these are the cards that they may play, the lowest first, or their go. On the opponent's turn
/// they are the ranks that the opponent may show, and a go if they may say it. The verdict on a rank is that on its
/// lowest card. But if a plan is sure after this card and no plan is sure after each card of the rank, each card has
/// an entry. Those that the greatest part of the deals beats are first; otherwise the order is that of the pack.
///
/// It fails with [`SearchFault::TooLarge`] if a plan is sure after some turn, and the plan of
/// [`find`](crib_search::find) has more than 65,535 nodes. It fails with [`SearchFault::NoMemory`] if an allocation
/// fails, except one for a table of answers: if that fails, the search is slower.
///
/// The advice is for the problem. What a search finds is kept there for a later search.
pub fn leads_of<A: Allocator + Copy>(
    alloc: A,
    problem: &Problem,
    advice: &mut Option<Advice<A>>,
) -> Result<Leads<A>, SearchFault>
    // No verdict is that a plan is sure if the plan of `find` has too many nodes. `TooLarge` is returned only then.
    ensures right { IfOk result (AreLeads problem.now) }
    ensures too_large { result ≡ Err SearchFault.TooLarge → (act : Act) × IsTooLarge problem.now act }
{
    let own = own_leads(alloc, problem, advice)?;
    let theirs = their_leads(alloc, problem)?;
    Ok(Leads { own, theirs })
}

// Returns an entry for each turn of the owner that may come next.
fn own_leads<A: Allocator + Copy>(
    alloc: A,
    problem: &Problem,
    advice: &mut Option<Advice<A>>,
) -> Result<Vec<Lead, A>, SearchFault>
    ensures right { IfOk result (λ leads. AreEntries problem.now own_turns leads.items) }
    ensures too_large { result ≡ Err SearchFault.TooLarge → (act : Act) × IsTooLarge problem.now act }
{
    let mut leads = Vec::new(alloc);
    let mut rest = CardSet::full();
    while let Some(card) = rest.lowest() {
        rest = rest.without(card);
        add_turn(
            alloc,
            problem,
            &own_act(Move::Card(card)),
            advice,
            &mut leads,
        )?;
    }
    add_turn(alloc, problem, &own_act(Move::Go), advice, &mut leads)?;
    Ok(leads)
}

fn own_act(what: Move) -> Act
    ensures { result ≡ record { side = Side.Owner; what = what } }
{
    Act {
        side: Side::Owner,
        what,
    }
}

/// Adds a turn if it may come next.
pub(crate) fn add_turn<A: Allocator + Copy>(
    alloc: A,
    problem: &Problem,
    act: &Act,
    advice: &mut Option<Advice<A>>,
    leads: &mut Vec<Lead, A>,
) -> Result<(), SearchFault>
    ensures added { IfOk result (λ _. Adds problem.now (act.now ∷ []) leads.old.items leads.new.items) }
    ensures too_large { result ≡ Err SearchFault.TooLarge → IsTooLarge problem.now act.now }
{
    let Some(verdict) = verdict_after(alloc, problem, act, advice)? else {
        return Ok(());
    };
    add_lead(leads, lead_of(act, false, verdict))
}

/// Adds an entry.
pub(crate) fn add_lead<A: Allocator>(
    leads: &mut Vec<Lead, A>,
    lead: Lead,
) -> Result<(), SearchFault>
    ensures added { IfOk result (λ _. leads.new.items ≡ leads.old.items ++ lead ∷ []) }
    ensures failed { result ≡ Err SearchFault.TooLarge → ⊥ }
{
    match leads.push(lead) {
        Ok(()) => Ok(()),
        Err(_) => Err(SearchFault::NoMemory),
    }
}

/// Returns an entry with a verdict.
pub(crate) fn lead_of(act: &Act, is_rank: bool, verdict: LeadVerdict) -> Lead
    ensures { (result.act ≡ act.now) × (result.is_rank ≡ is_rank) × (result.verdict ≡ verdict) }
{
    Lead {
        act: *act,
        is_rank,
        verdict,
    }
}
