//! The ranks that the opponent may show next, and what is after each of them.
ghost use Rattle.std.specs.Prelude.{◌≡◌, ◌↔◌, ◌++◌, IfOk, IsTrue, Err, List, filter};
ghost use Rattle.std.specs.List.{All};
ghost use Rattle.crib_cards.specs.Cards.{IsRank};
ghost use Rattle.crib_cards.specs.declared.moves.Act.{Act};
ghost use Rattle.crib_search.specs.Winnable.{IsWinnableAfter};
ghost use Rattle.crib_leads.specs.declared.leads.Lead.{Lead};
ghost use Rattle.crib_leads.specs.Leads.{AreOfRank, AreOfRanks, AreTheirs, IsLowest, IsTooLarge, cards_of, may_come};
ghost use Rattle.crib_leads.specs.Leads.{played_by};
ghost use Rattle.crib_leads.specs.Private.Turns.{Adds};

use crate::leads::{Lead, add_lead, add_turn, lead_of};
use crate::order::worst_first;
use crate::verdict::verdict_after;
use crib_cards::{Act, Card, Move, Rank, Side, Suit};
use crib_problem::Problem;
use crib_search::{SearchFault, is_winnable_after};
use std::alloc::Allocator;

// The numbers of the ranks.
const RANKS: [u8; 13] = [1, 2, 3, 4, 5, 6, 7, 8, 9, 10, 11, 12, 13];

/// Returns the entries of the ranks that the opponent may show next, and of a go, the worst for the owner first.
pub(crate) fn their_leads<A: Allocator + Copy>(
    alloc: A,
    problem: &Problem,
) -> Result<Vec<Lead, A>, SearchFault>
    ensures right { IfOk result (λ leads. AreTheirs problem.now leads.items) }
    ensures too_large { result ≡ Err SearchFault.TooLarge → (act : Act) × IsTooLarge problem.now act }
{
    let mut leads = Vec::new(alloc);
    add_ranks(alloc, problem, &RANKS, &mut leads)?;
    add_turn(alloc, problem, &their_act(Move::Go), &mut None, &mut leads)?;
    worst_first(alloc, leads.as_slice())
}

// Adds the entries of some ranks.
fn add_ranks<A: Allocator + Copy>(
    alloc: A,
    problem: &Problem,
    numbers: &[u8],
    leads: &mut Vec<Lead, A>,
) -> Result<(), SearchFault>
    requires { All IsRank numbers.now }
    ensures added { IfOk result (λ _. (here : List Lead) × AreOfRanks problem.now numbers.now here
        × (leads.new.items ≡ leads.old.items ++ here)) }
    ensures too_large { result ≡ Err SearchFault.TooLarge → (act : Act) × IsTooLarge problem.now act }
{
    match numbers {
        [] => Ok(()),
        [number, others @ ..] => {
            let Some(rank) = Rank::new(*number) else {
                unreachable!()
            };
            add_rank(alloc, problem, rank, leads)?;
            add_ranks(alloc, problem, others, leads)
        }
    }
}

// Adds the entry of a rank, or those of its cards if suits decide.
fn add_rank<A: Allocator + Copy>(
    alloc: A,
    problem: &Problem,
    rank: Rank,
    leads: &mut Vec<Lead, A>,
) -> Result<(), SearchFault>
    ensures added { IfOk result (λ _. (here : List Lead) × AreOfRank problem.now rank here
        × (leads.new.items ≡ leads.old.items ++ here)) }
    ensures too_large { result ≡ Err SearchFault.TooLarge → (act : Act) × IsTooLarge problem.now act }
{
    let cards = cards_of(rank);
    let Some(lead) = lowest_lead(alloc, problem, &cards)? else {
        return Ok(());
    };
    if lead.verdict.is_sure() && !is_winnable(alloc, problem, rank)? {
        add_cards(alloc, problem, &cards, leads)
    } else {
        add_lead(leads, lead)
    }
}

// Returns whether one plan is sure after each card of a rank.
fn is_winnable<A: Allocator + Copy>(
    alloc: A,
    problem: &Problem,
    rank: Rank,
) -> Result<bool, SearchFault>
    ensures right { IfOk result (λ winnable. IsTrue winnable ↔ IsWinnableAfter problem.now rank) }
    ensures failed { result ≡ Err SearchFault.TooLarge → ⊥ }
{
    match is_winnable_after(alloc, problem, rank) {
        Ok(winnable) => Ok(winnable),
        Err(_) => Err(SearchFault::NoMemory),
    }
}

// Returns the entry on the first of some cards that may come next.
fn lowest_lead<A: Allocator + Copy>(
    alloc: A,
    problem: &Problem,
    cards: &[Card],
) -> Result<Option<Lead>, SearchFault>
    ensures right { IfOk result
        (IsLowest problem.now (filter (may_come problem.now) (played_by Side.Opponent cards.now))) }
    ensures too_large { result ≡ Err SearchFault.TooLarge → (act : Act) × IsTooLarge problem.now act }
{
    match cards {
        [] => Ok(None),
        [card, others @ ..] => {
            let act = their_act(Move::Card(*card));
            match verdict_after(alloc, problem, &act, &mut None)? {
                Some(verdict) => Ok(Some(lead_of(&act, true, verdict))),
                None => lowest_lead(alloc, problem, others),
            }
        }
    }
}

// Adds the entries of some cards.
fn add_cards<A: Allocator + Copy>(
    alloc: A,
    problem: &Problem,
    cards: &[Card],
    leads: &mut Vec<Lead, A>,
) -> Result<(), SearchFault>
    ensures added { IfOk result (λ _.
        Adds problem.now (played_by Side.Opponent cards.now) leads.old.items leads.new.items) }
    ensures too_large { result ≡ Err SearchFault.TooLarge → (act : Act) × IsTooLarge problem.now act }
{
    match cards {
        [] => Ok(()),
        [card, others @ ..] => {
            add_turn(
                alloc,
                problem,
                &their_act(Move::Card(*card)),
                &mut None,
                leads,
            )?;
            add_cards(alloc, problem, others, leads)
        }
    }
}

// Returns the cards of a rank, in pack order.
fn cards_of(rank: Rank) -> [Card; 4]
    ensures { result ≡ cards_of rank }
{
    [
        Card::of(rank, Suit::Clubs),
        Card::of(rank, Suit::Diamonds),
        Card::of(rank, Suit::Hearts),
        Card::of(rank, Suit::Spades),
    ]
}

fn their_act(what: Move) -> Act
    ensures { result ≡ record { side = Side.Opponent; what = what } }
{
    Act {
        side: Side::Opponent,
        what,
    }
}
