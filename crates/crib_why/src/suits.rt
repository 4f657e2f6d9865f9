//! After which ranks suits decide.
ghost use Rattle.std.specs.Prelude.{◌↔◌, IfOk, IsTrue};
ghost use Rattle.crib_why.specs.Answer.{AreBySuit, IsBySuit, IsSureAfter};

use crate::search::is_winnable;
use arrayvec::ArrayVec;
use crib_cards::{Act, Card, Move, Rank, Side, Suit};
use crib_check::NoMemory;
use crib_problem::Problem;
use crib_search::is_winnable_after;
use std::alloc::Allocator;

/// The ranks that the opponent may show next after which suits decide, from the ace.
pub(crate) fn ranks_by_suit<A: Allocator + Copy>(
    alloc: A,
    problem: &Problem,
) -> Result<ArrayVec<Rank, 13>, NoMemory>
    ensures { IfOk result (λ ranks. AreBySuit problem.now ranks.items) }
{
    let mut ranks = ArrayVec::new();
    for number in 1..14u8 {
        if let Some(rank) = Rank::new(number) {
            if is_by_suit(alloc, problem, rank)? {
                ranks.push(rank);
            }
        }
    }
    Ok(ranks)
}

// Whether suits decide after a rank.
fn is_by_suit<A: Allocator + Copy>(
    alloc: A,
    problem: &Problem,
    rank: Rank,
) -> Result<bool, NoMemory>
    ensures { IfOk result (λ is. IsTrue is ↔ IsBySuit problem.now rank) }
{
    match is_winnable_after(alloc, problem, rank) {
        Ok(true) => return Ok(false),
        Ok(false) => (),
        Err(_) => return Err(NoMemory),
    }
    for suit in [Suit::Clubs, Suit::Diamonds, Suit::Hearts, Suit::Spades] {
        if !is_sure_after(alloc, problem, Card::of(rank, suit))? {
            return Ok(false);
        }
    }
    Ok(true)
}

// Whether some plan is sure after a card of the opponent, if it may come next.
fn is_sure_after<A: Allocator + Copy>(
    alloc: A,
    problem: &Problem,
    card: Card,
) -> Result<bool, NoMemory>
    ensures { IfOk result (λ is. IsTrue is ↔ IsSureAfter problem.now card) }
{
    let act = Act {
        side: Side::Opponent,
        what: Move::Card(card),
    };
    match problem.after(act) {
        Ok(longer) => is_winnable(alloc, &longer),
        Err(_) => Ok(true),
    }
}
