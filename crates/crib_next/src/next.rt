//! What comes next, by what the owner knows and the card that the plan states.
ghost use Rattle.std.specs.Prelude.{◌≡◌};
ghost use Rattle.crib_know.specs.Knowledge.{played_events};
ghost use Rattle.crib_plan.specs.Places.{stated_card};
ghost use Rattle.crib_next.specs.Next.{next_by, stated_next};

use crib_cards::{Card, CardSet};
use crib_know::Know;
use crib_plan::{Next, Plan, card_at};
use crib_play::{Turn, any_fits, fits};
use crib_problem::Problem;
use std::alloc::Allocator;

/// What comes next, for the owner of a plan.
#[derive(Clone, Copy, Debug, PartialEq, Eq)]
pub enum NextTurn {
    /// The owner plays this card, which the plan states. They hold it, and it fits.
    Play(Card),
    /// The owner says go: none of their cards fits.
    Go,
    /// It is the opponent's turn.
    Wait,
    /// The deal is done.
    Over,
    /// The owner is stuck: a card of theirs fits, but the plan states none that they hold and that fits.
    Stuck,
}

// Returns what comes next after the opening of a problem, where the plan is at this place.
pub(crate) fn next_at<A: Allocator>(problem: &Problem, plan: &Plan<A>, place: Next) -> NextTurn
    ensures { result ≡ next_by problem.now (played_events problem.now) (stated_card plan.now place) }
{
    let know = Know::start(problem);
    let left = know.own_left();
    let count = know.round().count();
    match know.turn() {
        Turn::Over => NextTurn::Over,
        Turn::Opponent => NextTurn::Wait,
        Turn::Owner if !any_fits(left, count) => NextTurn::Go,
        Turn::Owner => stated_next(count, left, card_at(plan, place)),
    }
}

// Returns what comes next if a card of the owner fits.
fn stated_next(count: u8, left: CardSet, stated: Option<Card>) -> NextTurn
    ensures { result ≡ stated_next count left stated }
{
    match stated {
        Some(card) if left.has(card) && fits(card, count) => NextTurn::Play(card),
        _ => NextTurn::Stuck,
    }
}
