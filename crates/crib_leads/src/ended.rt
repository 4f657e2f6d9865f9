//! Whether the goal is reached with a turn that ends the deal.
ghost use Rattle.std.specs.Prelude.{◌≡◌, ◌↔◌, IsTrue, Some};
ghost use Rattle.crib_play.specs.History.{Own, Theirs, event_of};
ghost use Rattle.crib_problem.specs.Refusals.{already_over};
ghost use Rattle.crib_know.specs.Hidden.{CanDoAt};
ghost use Rattle.crib_leads.specs.Leads.{HasEnded, refusal_of};
ghost use Rattle.crib_leads.specs.Private.Turns.{IsNextOf};

use crate::verdict::LeadVerdict;
use crib_cards::{Act, Letter, Move, Side};
use crib_check::missed_game;
use crib_know::Know;
use crib_play::{Turn, fits};
use crib_problem::Problem;

/// Returns whether the goal is reached with a turn that ends the deal.
pub(crate) fn ended_verdict(problem: &Problem, act: &Act) -> LeadVerdict
    requires { refusal_of problem.now act.now ≡ Some already_over }
    ensures { HasEnded problem.now act.now result }
{
    let know = Know::start(problem);
    let Some(next) = with_turn(&know, act) else {
        return LeadVerdict::Reached;
    };
    let Turn::Over = next.turn() else {
        unreachable!()
    };
    match missed_game(problem, &next, act) {
        None => LeadVerdict::Reached,
        Some(_) => LeadVerdict::Missed,
    }
}

// What the owner knows with one turn more, or nothing if no deal agrees with it.
fn with_turn(know: &Know, act: &Act) -> Option<Know>
    ensures { IsNextOf know.now (event_of act.now) result }
{
    match act.side {
        Side::Owner => with_own(know, &act.what),
        Side::Opponent => with_theirs(know, &act.what.letter()),
    }
}

// The same with a move of the owner.
fn with_own(know: &Know, what: &Move) -> Option<Know>
    ensures { IsNextOf know.now (Own what.now) result }
{
    if !can_do(know, what) {
        return None;
    }
    let mut next = know.copy();
    next.did(what);
    Some(next)
}

// The same with a letter that the opponent shows.
fn with_theirs(know: &Know, letter: &Letter) -> Option<Know>
    ensures { IsNextOf know.now (Theirs letter.now) result }
{
    if !know.can_show(*letter) {
        return None;
    }
    let mut next = know.copy();
    next.saw(letter);
    Some(next)
}

// Whether the owner can make this move next.
fn can_do(know: &Know, what: &Move) -> bool
    ensures { IsTrue result ↔ CanDoAt know.now what.now }
{
    match *what {
        Move::Card(card) => {
            know.turn() == Turn::Owner
                && know.own_left().has(card)
                && fits(card, know.round().count())
        }
        Move::Go => know.must_go(),
    }
}
