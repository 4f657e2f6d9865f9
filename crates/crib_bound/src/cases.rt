//! A bound that is counted in cases: at some place of the owner each card is fixed in turn.
ghost use Rattle.std.specs.Prelude.{◌≡◌, ◌<◌, ◌≤◌, ◌*◌, ◌++◌, ◌∷◌, [], ℕ, IfOk, IsTrue, List, get_or, length};
ghost use Rattle.crib_cards.specs.Cards.{rank_of};
ghost use Rattle.crib_plan.specs.declared.plan.Node.{Node};
ghost use Rattle.crib_deals.specs.Exact.{AreExactly};
ghost use Rattle.crib_beaten.specs.Beaten.{Beats};
ghost use Rattle.crib_bound.specs.Private.Cases.{BoundsKeepers};
ghost use Rattle.crib_bound.specs.Private.Walks.{IsReady};

use crate::path::{Fixed, TurnTrail, number_of};
use crate::units::unit_of;
use crate::walk::{SPARE, worth_if};
use crate::weights::Choices;
use arrayvec::ArrayVec;
use crib_cards::{Card, Side};
use crib_know::Know;
use crib_problem::Problem;
use crib_search::{Case, Guide, ShownTurn};
use std::alloc::{AllocError, Allocator};

// No more cards are fixed at the same time.
const DEPTH: u8 = 24;

// No more walks are taken.
const WALKS: u8 = 40;

// What the bound is counted from in each case.
#[derive(Drop)]
struct Cases<'a, A: Allocator> {
    problem: &'a Problem,
    start: Know,
    choices: Choices<'a, A>,
    parts: u32,
    // So much shows that the plan of the search is best.
    enough: u64,
}

// What changes from case to case: the cards that are fixed, the room of a walk, and how many walks may be taken yet.
#[derive(Drop)]
struct Room<A: Allocator> {
    fixed: Vec<Fixed, A>,
    spare: Vec<u32, A>,
    walks: u8,
}

/// Returns a number that is at most `parts` times the deals that beat a plan, whatever the plan, as [`bound_of`] does.
/// If one walk doesn't show that the plan of the guide's search is best, it asks the guide for a place of the owner. It
/// takes the least of what is found if a card of each rank is fixed there in turn. It fails if an allocation fails.
///
/// [`bound_of`]: crate::bound_of
pub fn bound_in_cases<A: Allocator + Copy>(
    alloc: A,
    problem: &Problem,
    parts: u32,
    guide: &mut Guide<'_, A>,
) -> Result<u64, AllocError>
    ensures { IfOk result (λ value. (plan : List Node) (count : ℕ) → AreExactly (Beats problem.now plan) count
        → value ≤ parts * count) }
{
    let worse = guide.beaten().saturating_sub(unit_of(problem) as u64);
    let cases = Cases {
        problem,
        start: Know::start(problem),
        choices: Choices::of(alloc, problem, &guide.ladders())?,
        parts,
        enough: worse.saturating_mul(parts as u64).saturating_add(1),
    };
    let mut room = Room {
        fixed: Vec::new(alloc),
        spare: vec![in alloc; 0; SPARE]?,
        walks: WALKS,
    };
    let whole = guide.whole();
    let bound = cases.least_in(guide, whole, &mut room, DEPTH)?;
    Ok(bound)
}

impl<A: Allocator + Copy> Cases<'_, A> {
    // The bound for plans that keep to what is fixed, by one walk, or in the cases in which a card more is fixed.
    #[cycle(cases)]
    fn least_in(
        &self,
        guide: &mut Guide<'_, A>,
        case: Case,
        room: &mut Room<A>,
        depth: u8,
    ) -> Result<u64, AllocError>
        requires { IsReady self.now room.old }
        ensures bounds { IfOk result (BoundsKeepers self.now.problem.now self.now.parts room.old.fixed.items) }
        ensures kept { IfOk result (λ value. room.new.fixed.items ≡ room.old.fixed.items) }
        ensures ready { length room.new.spare.items ≡ length room.old.spare.items }
    {
        let question = guide.question(case).map(trail_of);
        let is_split = depth < DEPTH && question.is_some();
        let value = self.worth_in(guide, case, is_split, room)?;
        match question {
            Some(trail) if value < self.enough && depth > 0 => {
                let least = self.least_of_cards(guide, case, &trail, room, depth - 1)?;
                Ok(value.max(least))
            }
            _ => Ok(value),
        }
    }

    // The bound by one walk. It is 0 if the case is split or no more walks may be taken.
    fn worth_in(
        &self,
        guide: &mut Guide<'_, A>,
        case: Case,
        is_split: bool,
        room: &mut Room<A>,
    ) -> Result<u64, AllocError>
        requires { IsReady self.now room.old }
        ensures bounds { IfOk result (BoundsKeepers self.now.problem.now self.now.parts room.old.fixed.items) }
        ensures kept { IfOk result (λ value. room.new.fixed.items ≡ room.old.fixed.items) }
        ensures ready { length room.new.spare.items ≡ length room.old.spare.items }
    {
        if is_split || room.walks == 0 {
            return Ok(0);
        }
        room.walks -= 1;
        guide.take(case)?;
        Ok(worth_if(
            self.problem,
            &self.start,
            &self.choices,
            self.parts,
            guide,
            room.fixed.as_slice(),
            room.spare.as_mut_slice(),
        ))
    }

    // The least bound of the cases in which a card of each rank that the owner holds is fixed at a place, or 0 if one
    // of them isn't enough.
    #[cycle(cases)]
    fn least_of_cards(
        &self,
        guide: &mut Guide<'_, A>,
        case: Case,
        trail: &TurnTrail,
        room: &mut Room<A>,
        depth: u8,
    ) -> Result<u64, AllocError>
        requires { IsReady self.now room.old }
        ensures bounds { IfOk result (BoundsKeepers self.now.problem.now self.now.parts room.old.fixed.items) }
        ensures kept { IfOk result (λ value. room.new.fixed.items ≡ room.old.fixed.items) }
        ensures ready { length room.new.spare.items ≡ length room.old.spare.items }
    {
        let hold = self.problem.hold();
        let mut least = u64::MAX;
        for at in 0..4usize {
            if is_again(&hold, at) {
                continue;
            }
            let rank = hold[at].rank();
            let one = Fixed {
                trail: copy_of(trail),
                rank,
            };
            let next = guide.answer(case, rank);
            let value = self.least_with(guide, next, one, room, depth)?;
            if value < self.enough {
                return Ok(0);
            }
            least = least.min(value);
        }
        Ok(least)
    }

    // The bound in the case in which one card more is fixed.
    #[cycle(cases)]
    fn least_with(
        &self,
        guide: &mut Guide<'_, A>,
        case: Case,
        one: Fixed,
        room: &mut Room<A>,
        depth: u8,
    ) -> Result<u64, AllocError>
        requires { IsReady self.now room.old }
        ensures bounds { IfOk result (BoundsKeepers self.now.problem.now self.now.parts
            (room.old.fixed.items ++ one ∷ [])) }
        ensures kept { IfOk result (λ value. room.new.fixed.items ≡ room.old.fixed.items) }
        ensures ready { length room.new.spare.items ≡ length room.old.spare.items }
    {
        let count = room.fixed.len();
        room.fixed.push(one)?;
        let value = self.least_in(guide, case, room, depth)?;
        room.fixed.truncate(count);
        Ok(value)
    }
}

// Whether one of the cards before an index has the same rank.
fn is_again(hold: &[Card; 4], at: usize) -> bool
    requires { at < 4 }
    ensures { IsTrue result → (place : ℕ) × (place < at)
        × (rank_of (get_or hold.now place 0) ≡ rank_of (get_or hold.now at 0)) }
{
    for place in 0..at {
        if hold[place].rank() == hold[at].rank() {
            return true;
        }
    }
    false
}

// The trail to a place to which a guide leads by these turns.
fn trail_of(turns: &[ShownTurn]) -> TurnTrail {
    let mut trail = ArrayVec::new();
    for turn in turns {
        let digit = 2 * number_of(&turn.letter) + u8::from(turn.side == Side::Owner);
        if !trail.is_full() {
            trail.insert(0, digit);
        }
    }
    trail
}

// The same trail again.
fn copy_of(trail: &TurnTrail) -> TurnTrail
    ensures { result.items ≡ trail.now.items }
{
    let mut copy = ArrayVec::new();
    copy.try_extend_from_slice(trail.as_slice()).unwrap();
    copy
}
