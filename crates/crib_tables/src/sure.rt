//! Whether a plan is sure for a problem, and whether a turn of the owner is.
ghost use Rattle.std.specs.Prelude.{◌≡◌, ◌∷◌, ◌↔◌, IfOk, IsTrue, Some};
ghost use Rattle.crib_cards.specs.declared.sides.Side.TheVariants.{Owner};
ghost use Rattle.crib_play.specs.History.{event_of};
ghost use Rattle.crib_problem.specs.Refusals.{already_over};
ghost use Rattle.crib_problem.specs.Setup.{IsSetup};
ghost use Rattle.crib_know.specs.Hidden.{CanDoAt};
ghost use Rattle.crib_know.specs.Knowledge.{played_events};
ghost use Rattle.crib_sure.specs.Shows.{IsReachedBehind};
ghost use Rattle.crib_search.specs.Winnable.{IsWinnable};
ghost use Rattle.crib_leads.specs.Leads.{may_come, refusal_of};
ghost use Rattle.crib_tables.specs.Turns.{IsSureTurn, own_turns};

use crib_cards::{Act, Card, Move, Side};
use crib_know::Know;
use crib_play::{Turn, fits};
use crib_problem::{Problem, ProblemCause};
use crib_search::{Found, SearchFault, find};
use crib_sure::{Shows, is_reached};
use std::alloc::{AllocError, Allocator};

/// Returns whether a plan is sure for a problem, however many nodes it has. It fails if an allocation fails, except one
/// for the table of answers: if that fails, the search is slower.
pub(crate) fn is_winnable<A: Allocator + Copy>(
    alloc: A,
    problem: &Problem,
) -> Result<bool, AllocError>
    requires { IsSetup problem.now }
    ensures { IfOk result (λ sure. IsTrue sure ↔ IsWinnable problem.now) }
{
    match find(alloc, problem) {
        Ok(Found::Plan(_)) => Ok(true),
        Ok(Found::None) => Ok(false),
        Err(SearchFault::TooLarge) => Ok(true),
        Err(SearchFault::NoMemory) => Err(AllocError),
    }
}

/// Returns the turns of the owner that can be sure: the cards of the hold, and a go.
pub(crate) fn own_turns(problem: &Problem) -> [Act; 5]
    ensures { result ≡ own_turns problem.now }
{
    let [first, second, third, fourth] = problem.hold();
    [
        own_card(first),
        own_card(second),
        own_card(third),
        own_card(fourth),
        Act {
            side: Side::Owner,
            what: Move::Go,
        },
    ]
}

fn own_card(card: Card) -> Act
    ensures { result ≡ record { side = Owner; what = Move.Card card } }
{
    Act {
        side: Side::Owner,
        what: Move::Card(card),
    }
}

/// Returns whether a turn may come next.
pub(crate) fn may_come(problem: &Problem, act: &Act) -> bool
    ensures { result ≡ may_come problem.now act.now }
{
    match problem.after(*act) {
        Ok(_) | Err(ProblemCause::AlreadyOver) => true,
        Err(_) => false,
    }
}

/// Returns whether a turn of the owner is sure: it may come next, and then a plan is sure, or the deal is done and each
/// deal that agrees reaches the goal.
pub(crate) fn is_sure_turn<A: Allocator + Copy>(
    alloc: A,
    problem: &Problem,
    act: &Act,
) -> Result<bool, AllocError>
    requires { act.now.side ≡ Owner }
    ensures { IfOk result (λ sure. IsTrue sure ↔ IsSureTurn problem.now act.now) }
{
    match problem.after(*act) {
        Ok(next) => is_winnable(alloc, &next),
        Err(ProblemCause::AlreadyOver) => Ok(reaches(problem, &act.what)),
        Err(_) => Ok(false),
    }
}

// Returns whether each deal that agrees with a move of the owner reaches the goal. The deal is done after the move.
fn reaches(problem: &Problem, what: &Move) -> bool
    requires { refusal_of problem.now (record { side = Owner; what = what.now }) ≡ Some already_over }
    ensures { IsTrue result ↔ IsReachedBehind problem.now
        (event_of (record { side = Owner; what = what.now }) ∷ played_events problem.now) }
{
    let mut know = Know::start(problem);
    if !can_do(&know, what) {
        return true;
    }
    know.did(what);
    let mut shows = Shows::new(problem);
    is_reached(problem, &mut shows, &know)
}

// Whether the owner can make this move next.
fn can_do(know: &Know, what: &Move) -> bool
    ensures { IsTrue result ↔ CanDoAt know.now what.now }
{
    match *what {
        Move::Card(card) => {
            know.turn() == Turn::Owner
                && know.own_left().has(card)
                && fits(card, know.round().count())
        }
        Move::Go => know.must_go(),
    }
}
