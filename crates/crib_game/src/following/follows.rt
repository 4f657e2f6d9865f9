//! How a plan is followed through a game.
ghost use Rattle.std.specs.Prelude.{◌≡◌, true, List, OnOk, OnErr, if◌then◌else◌};
ghost use Rattle.crib_cards.specs.declared.moves.Move.{Move};
ghost use Rattle.crib_game.specs.Following.{is_playable_at, place_after_turn};
ghost use Rattle.crib_game.specs.Followed.{IsRecordUnder, by_plan, follow_result, is_stated, strays_at};
ghost use Rattle.crib_game.specs.Private.Tracing.{IsPlanAfter, ending_at, is_stuck_at};

use super::ending::Ending;
use crate::fault::GameFault;
use crate::replaying::judge::{Follower, judge};
use crate::replaying::{JudgedGame, Remark, Row};
use crate::section::Game;
use crib_cards::{Act, Card, CardSet, Dealt, Move, Side};
use crib_plan::{Next, Plan, after_card, card_at, place_after, start};
use crib_play::{Round, any_fits, fits};
use crib_problem::Problem;
use std::alloc::Allocator;

/// Follows a plan through a game. Returns the ending of the game under the plan, or the first refusal. It allocates no
/// memory.
///
/// It returns an ending exactly when the opponent's six cards are a deal of the problem, and the acts are the visible
/// turns of a legal record that begins with the opening and then follows the plan. The opening is the visible turns
/// that the problem lists as played. After it, each card of the owner is the one stated at the place just before.
///
/// The place is [`start`] until the opening is over. After that a card of the owner moves it on, a letter of the
/// opponent moves it along its branch, and a go of the owner leaves it unchanged.
///
/// The first refusal is that of a replay, with one more cause: [`GameFault::Strays`] (46). Only an act after the
/// opening can stray. For one act, 46 comes after 44 (the other side's turn) and before 41 (a card that is not held).
pub fn follow<A: Allocator>(
    problem: &Problem,
    plan: &Plan<A>,
    game: &Game,
) -> Result<Ending, GameFault>
    ensures follows { OnOk result ((played : List Move) × IsRecordUnder problem.now plan.now game.now played) }
    ensures refused { OnErr result
        ((played : List Move) → IsRecordUnder problem.now plan.now game.now played → ⊥) }
    ensures exact { result ≡ follow_result problem.now plan.now game.now }
{
    let mut follower = PlanSoFar {
        plan,
        place: start(plan),
    };
    let walk = judge(problem, game, &mut follower)?;
    Ok(ending(problem, &game.opp, &walk, card_at(plan, follower.place)))
}

// A plan, and its place after the acts so far.
#[derive(Drop)]
struct PlanSoFar<'a, A: Allocator> {
    plan: &'a Plan<A>,
    place: Next,
}

impl<'a, A: Allocator> Follower for PlanSoFar<'a, A> {
    ghost judge_of = { λ first problem. by_plan first.plan.now problem };

    ghost has_followed = { λ first self problem before.
        IsPlanAfter first.plan.now self.plan.now self.place problem before };

    fn remark(&self, played: Option<Act>, act: &Act) -> Remark {
        Remark::of(played, strays(self.plan, self.place, act), act)
    }

    fn take(&mut self, act: &Act, is_played: bool, _row: &Row) {
        self.place = place_with(self.plan, self.place, is_played, act);
    }
}

// Whether the act is a card of the owner that is not the one stated at the place.
fn strays<A: Allocator>(plan: &Plan<A>, place: Next, act: &Act) -> bool
    ensures { result ≡ strays_at plan.now place act.now.side act.now.what }
{
    match (act.side, act.what) {
        (Side::Owner, Move::Card(card)) => !is_stated(card_at(plan, place), card),
        _ => false,
    }
}

fn is_stated(stated: Option<Card>, card: Card) -> bool
    ensures { result ≡ is_stated stated card }
{
    matches!(stated, Some(stated) if stated == card)
}

// The place of the plan after an act. A turn of the opening leaves it unchanged. After the opening, a card of the owner
// moves it, and so does a letter of the opponent.
fn place_with<A: Allocator>(plan: &Plan<A>, place: Next, is_played: bool, act: &Act) -> Next
    ensures { result ≡ (if is_played then place else place_after_turn plan.now act.now.side act.now.what true place) }
{
    if is_played {
        return place;
    }
    match (act.side, act.what) {
        (Side::Owner, Move::Card(_)) => after_card(plan, place),
        (Side::Owner, Move::Go) => place,
        (Side::Opponent, what) => place_after(plan, place, what.letter()),
    }
}

// The ending of a game after some acts. `stated` is the card that the plan states there.
fn ending(problem: &Problem, dealt: &Dealt, walk: &JudgedGame, stated: Option<Card>) -> Ending
    ensures { result ≡ ending_at problem.now dealt.now walk.now.round walk.now.held.owner stated }
{
    match walk.end(problem, dealt).1 {
        Some(outcome) => Ending::of(outcome),
        None if is_stuck(&walk.round, walk.held.owner, stated) => Ending::Stuck,
        None => Ending::Open,
    }
}

// Whether the owner is to move and a card of theirs fits, but no card is stated that they hold and that fits.
fn is_stuck(round: &Round, cards: CardSet, stated: Option<Card>) -> bool
    ensures { result ≡ is_stuck_at round.now cards stated }
{
    round.next().asks(Side::Owner)
        && any_fits(cards, round.count())
        && !is_playable(round.count(), cards, stated)
}

// Whether a card is stated, is held, and fits at this count.
fn is_playable(count: u8, cards: CardSet, stated: Option<Card>) -> bool
    ensures { result ≡ is_playable_at count cards stated }
{
    matches!(stated, Some(card) if cards.has(card) && fits(card, count))
}
