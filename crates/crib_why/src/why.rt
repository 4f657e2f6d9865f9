//! Why a plan is sure, or none is.
ghost use Rattle.std.specs.Prelude.{IfOk};
ghost use Rattle.crib_why.specs.Answer.{HasFewGames, IsRightWhy};

use crate::search::{is_winnable, refute};
use crate::suits::ranks_by_suit;
use arrayvec::ArrayVec;
use crib_cards::Rank;
use crib_check::NoMemory;
use crib_game::Game;
use crib_know::Know;
use crib_problem::Problem;
use std::alloc::{Allocator, Global};

/// Why a plan is sure, or none is.
#[derive(Drop)]
pub enum Why<A: Allocator = Global> {
    /// Some plan is sure.
    Sure,
    /// No player is sure, whatever they look at: these games refute every player.
    Refuted(Vec<Game, A>),
    /// No plan is sure, since a plan sees no suits. But some player who looks at suits is sure. These are the ranks
    /// after which suits decide, from the ace: those that the opponent may show next after which no plan is sure,
    /// though one is after each card of the rank.
    BySuits(ArrayVec<Rank, 13>),
}

/// Returns why a plan is sure for a problem, or none is.
///
/// A plan looks at ranks alone. A player may look at all that was shown, suits too.
///
/// There are at most 24 games: the owner has at most four cards, and each order of these needs at most one game.
///
/// It fails with [`NoMemory`] if an allocation fails, except one for a table of answers: if that fails, the search is
/// slower.
pub fn find_why<A: Allocator + Copy>(alloc: A, problem: &Problem) -> Result<Why<A>, NoMemory>
    ensures right { IfOk result (λ why. IsRightWhy problem.now why) }
    ensures few { IfOk result (λ why. HasFewGames why) }
{
    let know = Know::start(problem);
    if is_winnable(alloc, problem)? {
        return Ok(Why::Sure);
    }
    match refute(alloc, problem, &know)? {
        Some(games) => Ok(Why::Refuted(games)),
        None => Ok(Why::BySuits(ranks_by_suit(alloc, problem)?)),
    }
}
