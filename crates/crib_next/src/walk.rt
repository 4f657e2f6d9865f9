//! The turns since a problem, judged one after another, and what comes next after them.
ghost use Rattle.std.specs.Prelude.{◌≡◌, ℕ, ◌+◌, ◌-◌, ◌≤◌, List, [], ◌∷◌, length, Some, None};
ghost use Rattle.std.specs.Prelude.{IfErr, IsTrue, MatchOption, MatchResult};
ghost use Rattle.crib_cards.specs.declared.moves.Act.{Act};
ghost use Rattle.crib_text.specs.Reading.{Gives};
ghost use Rattle.crib_play.specs.History.{event_of};
ghost use Rattle.crib_problem.specs.Played.{is_over_by};
ghost use Rattle.crib_problem.specs.Setup.{Setup, opening_basis_of};
ghost use Rattle.crib_plan.specs.declared.plan.Node.{Node};
ghost use Rattle.crib_game.specs.Followed.{is_stated, strays_at};
ghost use Rattle.crib_sure.specs.HistoryPlaces.{place_after_event};
ghost use Rattle.crib_input.specs.Refusals.{game_fault_of, input_cause_number, refusal_of};
ghost use Rattle.crib_next.specs.Next.{acts_with, next_from, turn_fault, turn_refusal};
ghost use Rattle.crib_next.specs.Private.Walking.{HasCause, IsAfter, wrong_line};

use crate::next::{NextTurn, next_at};
use crate::question::NextQuestion;
use crib_cards::{Act, Card, Move, Side};
use crib_game::GameFault;
use crib_input::{Cause, Refusal};
use crib_plan::{Next, Plan, after_card, card_at, place_after, start};
use crib_problem::Problem;
use std::alloc::Allocator;

// A wrong turn: its number, from 1, and why it is refused.
#[derive(Clone, Copy)]
struct WrongTurn {
    number: u8,
    cause: Cause,
}

/// Returns what comes next after the turns of an input, or the refusal of the first wrong turn. It allocates no memory.
///
/// A turn is refused as in an opening, but it may end the deal. A turn after the end of the deal is refused with 45. A
/// card of the owner that the rules allow is refused with 46 if the plan doesn't state it there.
pub fn next_of<A: Allocator>(question: &NextQuestion<A>) -> Result<NextTurn, Refusal>
    ensures next { Gives (λ next. next) refusal_of result
        (next_from question.now.problem question.now.plan (question.now.first + 1) [] question.now.turns.items) }
    ensures cause { IfErr result (λ refusal. game_fault_of refusal.cause
        ≡ turn_fault (refusal.line - question.now.first) (refusal_of refusal).number) }
{
    // The proof reads from this call that the problem is valid.
    let _ = question.problem.target();
    let place = start(&question.plan);
    match walk(
        &question.problem,
        &question.plan,
        place,
        question.turns.as_slice(),
        1,
    ) {
        Ok(next) => Ok(next),
        Err(WrongTurn { number, cause }) => Err(Refusal {
            line: question.first + u32::from(number),
            cause,
        }),
    }
}

// Returns what comes next after more turns, or the first wrong one. The turns before them are in the opening of `at`,
// and the plan is at this place. The first of the turns has this number.
fn walk<A: Allocator>(
    at: &Problem,
    plan: &Plan<A>,
    place: Next,
    turns: &[Act],
    number: u8,
) -> Result<NextTurn, WrongTurn>
    requires { number + length turns.now ≤ 200 }
    ensures next { (problem : Setup) (before : List Act) (first : ℕ) → IsAfter problem plan.now before at.now place
        → Gives (λ next. next) (wrong_line first) result
        (next_from problem plan.now (first + number) before turns.now) }
    ensures cause { IfErr result HasCause }
{
    let [turn, rest @ ..] = turns else {
        return Ok(next_at(at, plan, place));
    };
    let later = after(at, plan, place, turn, number)?;
    match later {
        Some(later) => walk(
            &later,
            plan,
            place_with(plan, place, turn),
            rest,
            number + 1,
        ),
        None => ended(rest, number + 1),
    }
}

// Returns what comes next after the end of the deal: nothing, unless there are turns, of which the first is wrong.
fn ended(turns: &[Act], number: u8) -> Result<NextTurn, WrongTurn>
    ensures next { (problem : Setup) (plan : List Node) (before : List Act) (first : ℕ)
        → IsTrue (is_over_by (opening_basis_of problem) (acts_with problem before))
        → Gives (λ next. next) (wrong_line first) result (next_from problem plan (first + number) before turns.now) }
    ensures cause { IfErr result HasCause }
{
    match turns {
        [] => Ok(NextTurn::Over),
        [_, ..] => Err(wrong(number, Cause::Game(GameFault::AfterEnd(number)))),
    }
}

// Returns the problem with one more turn in its opening, or none if the deal is done after it. Or the turn is wrong.
fn after<A: Allocator>(
    at: &Problem,
    plan: &Plan<A>,
    place: Next,
    turn: &Act,
    number: u8,
) -> Result<Option<Problem>, WrongTurn>
    ensures next { (problem : Setup) (before : List Act) → IsAfter problem plan.now before at.now place
        → MatchResult result
        (λ later. (turn_refusal problem plan.now before turn.now ≡ None)
        × MatchOption later (IsTrue (is_over_by (opening_basis_of problem) (acts_with problem (turn.now ∷ before))))
        (λ next. IsAfter problem plan.now (turn.now ∷ before) next
        (place_after_event plan.now place (event_of turn.now))))
        (λ wrong. (turn_refusal problem plan.now before turn.now ≡ Some (input_cause_number wrong.cause))
        × (wrong.number ≡ number)) }
    ensures cause { IfErr result HasCause }
{
    match at.after(*turn) {
        Ok(later) => {
            if strays(plan, place, turn) {
                return Err(stray(number));
            }
            Ok(Some(later))
        }
        Err(cause) => {
            if cause.number() != 24 {
                return Err(wrong(number, Cause::Problem(cause)));
            }
            if strays(plan, place, turn) {
                return Err(stray(number));
            }
            Ok(None)
        }
    }
}

fn stray(number: u8) -> WrongTurn
    ensures number { result.number ≡ number }
    ensures cause { result.cause ≡ Cause.Game (GameFault.Strays number) }
{
    wrong(number, Cause::Game(GameFault::Strays(number)))
}

fn wrong(number: u8, cause: Cause) -> WrongTurn
    ensures { result ≡ record { number = number; cause = cause } }
{
    WrongTurn { number, cause }
}

// Whether a turn is a card of the owner that isn't the one stated at the place.
fn strays<A: Allocator>(plan: &Plan<A>, place: Next, turn: &Act) -> bool
    ensures { result ≡ strays_at plan.now place turn.now.side turn.now.what }
{
    match (turn.side, turn.what) {
        (Side::Owner, Move::Card(card)) => !is_stated(card_at(plan, place), card),
        _ => false,
    }
}

fn is_stated(stated: Option<Card>, card: Card) -> bool
    ensures { result ≡ is_stated stated card }
{
    matches!(stated, Some(stated) if stated == card)
}

// Returns the place of the plan after a turn.
fn place_with<A: Allocator>(plan: &Plan<A>, place: Next, turn: &Act) -> Next
    ensures { result ≡ place_after_event plan.now place (event_of turn.now) }
{
    match (turn.side, turn.what) {
        (Side::Owner, Move::Card(_)) => after_card(plan, place),
        (Side::Owner, Move::Go) => place,
        (Side::Opponent, what) => place_after(plan, place, what.letter()),
    }
}
