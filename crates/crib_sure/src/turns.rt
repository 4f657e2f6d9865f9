//! The turns that are possible at a position, and the position after each.
ghost use Rattle.std.specs.Prelude.{◌≡◌, List, ◌∷◌, MatchOption};
ghost use Rattle.crib_play.specs.History.{Event, Own, Theirs};
ghost use Rattle.crib_problem.specs.Setup.{Setup};
ghost use Rattle.crib_know.specs.Hidden.{CanShowAt};
ghost use Rattle.crib_sure.specs.Positions.{IsStuckAt, MayTakeAt, StandsAt};

use crate::keys::Key;
use crib_cards::{Letter, Move};
use crib_plan::{Plan, after_card, card_at, place_after};
use crib_play::Turn;
use std::alloc::Allocator;

/// Goes to the position after the opponent has shown a letter. Some deal must let them show it.
pub fn go_by_theirs<A: Allocator>(plan: &Plan<A>, key: &mut Key, letter: &Letter)
    requires { CanShowAt key.old.know letter.now }
    ensures { (problem : Setup) (history : List Event) → StandsAt problem plan.now key.old history
        → StandsAt problem plan.now key.new (Theirs letter.now ∷ history) }
{
    key.know.saw(letter);
    key.place = place_after(plan, key.place, *letter);
}

/// Returns the move that the plan gives the owner, who must be to move: go if no card of theirs fits, and otherwise the
/// stated card. `None` if they are stuck: no card is stated, or they do not hold the stated card, or it does not fit.
pub fn own_move<A: Allocator>(plan: &Plan<A>, key: &Key) -> Option<Move>
    requires { key.now.know.round.asked ≡ Turn.Owner }
    ensures { MatchOption result (IsStuckAt plan.now key.now) (MayTakeAt plan.now key.now) }
{
    if key.know.must_go() {
        return Some(Move::Go);
    }
    match card_at(plan, key.place) {
        Some(card) if key.know.own_left().has(card) && key.know.round().fits(card.rank()) => {
            Some(Move::Card(card))
        }
        _ => None,
    }
}

/// Goes to the position after the owner's move. It must be one that the plan gives them.
pub fn go_by_own<A: Allocator>(plan: &Plan<A>, key: &mut Key, what: &Move)
    requires { MayTakeAt plan.now key.old what.now }
    ensures { (problem : Setup) (history : List Event) → StandsAt problem plan.now key.old history
        → StandsAt problem plan.now key.new (Own what.now ∷ history) }
{
    key.know.did(what);
    key.place = match *what {
        Move::Card(_) => after_card(plan, key.place),
        Move::Go => key.place,
    };
}
