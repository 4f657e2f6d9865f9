//! The turns that lead to the places at which cases are split.
ghost use Rattle.std.specs.Prelude.{◌+◌, ◌≤◌, IsTrue};
ghost use Rattle.crib_cards.specs.Cards.{card_value};
ghost use Rattle.crib_cards.specs.Sets.{has};
ghost use Rattle.crib_play.specs.Record.{count_of};
ghost use Rattle.crib_search.specs.Private.Search.{IsHere, IsTurnOf};

use crate::own_options::options;
use crate::tries::cases::Case;
use crate::tries::planner::card_of;
use crate::tries::spot::Spot;
use crate::tries::survey::Survey;
use crib_cards::{Card, Letter, Side};
use crib_know::Know;
use crib_play::Turn;
use crib_problem::Problem;
use std::alloc::{AllocError, Allocator};

/// A turn as its letter shows it: whose it is, and the rank of the card, or a go.
#[derive(Clone, Copy)]
pub struct ShownTurn {
    /// Whose turn it is.
    pub side: Side,
    /// What it shows.
    pub letter: Letter,
}

impl ShownTurn {
    /// The turn in which the owner plays a card.
    pub(crate) fn of(card: Card) -> Self {
        ShownTurn {
            side: Side::Owner,
            letter: Letter::Seen(card.rank()),
        }
    }
}

impl<A: Allocator + Copy> Survey<A> {
    /// Keeps the turns that lead to the place at which a case is split, if it is: some, and those from a position on.
    /// It fails if an allocation fails.
    pub(crate) fn trace_case(
        &mut self,
        problem: &Problem,
        know: &Know,
        turns: &[ShownTurn],
        spot: &Spot,
        case: Case,
    ) -> Result<(), AllocError>
        requires here { IsHere problem.now know.now }
    {
        if let Some(place) = self.cases.place(case) {
            let first = self.cases.turns.len();
            self.cases.turns.extend_from_slice(turns)?;
            self.trace(problem, know, spot, place)?;
            self.cases.put_turns(case, first);
        }
        Ok(())
    }

    // Adds the turns that lead from a position to the place with an index.
    #[cycle(tracing)]
    fn trace(
        &mut self,
        problem: &Problem,
        know: &Know,
        spot: &Spot,
        place: usize,
    ) -> Result<(), AllocError>
        requires here { IsHere problem.now know.now }
    {
        match know.turn() {
            Turn::Over => Ok(()),
            Turn::Owner => self.trace_own(problem, know, spot, place),
            Turn::Opponent => self.trace_theirs(problem, know, spot, place),
        }
    }

    // The same if the owner is to move.
    #[cycle(tracing)]
    fn trace_own(
        &mut self,
        problem: &Problem,
        know: &Know,
        spot: &Spot,
        place: usize,
    ) -> Result<(), AllocError>
        requires turn { IsTurnOf problem.now know.now Turn.Owner }
    {
        let (cards, len) = options(problem, know);
        if len == 0 {
            self.cases.turns.push(ShownTurn {
                side: Side::Owner,
                letter: Letter::Go,
            })?;
            let mut next = know.copy();
            next.own_go();
            return self.trace(problem, &next, spot, place);
        }
        let branch = if len > 1 {
            self.places.branch_to(spot, place)
        } else {
            None
        };
        if len > 1 && branch.is_none() {
            return Ok(());
        }
        let (card, after) = card_of(branch, spot, &cards[..len]);
        self.trace_after(problem, know, card, &after, place)
    }

    // The same after a card.
    #[cycle(tracing)]
    fn trace_after(
        &mut self,
        problem: &Problem,
        know: &Know,
        card: Card,
        spot: &Spot,
        place: usize,
    ) -> Result<(), AllocError>
        requires turn { IsTurnOf problem.now know.now Turn.Owner }
        requires held { IsTrue (has know.now.own_left card) }
        requires fits { count_of know.now.round.pile + card_value card ≤ 31 }
    {
        self.cases.turns.push(ShownTurn::of(card))?;
        let mut next = know.copy();
        next.own_play(card);
        self.trace(problem, &next, spot, place)
    }

    // The same if the opponent is to move.
    #[cycle(tracing)]
    fn trace_theirs(
        &mut self,
        problem: &Problem,
        know: &Know,
        spot: &Spot,
        place: usize,
    ) -> Result<(), AllocError>
        requires turn { IsTurnOf problem.now know.now Turn.Opponent }
    {
        let Some(goal) = self.places.place(place) else {
            return Ok(());
        };
        let letter = spot.letter_to(goal.key);
        if !know.can_show(letter) {
            return Ok(());
        }
        self.cases.turns.push(ShownTurn {
            side: Side::Opponent,
            letter,
        })?;
        let mut next = know.copy();
        next.saw(&letter);
        self.trace(problem, &next, &spot.after_letter(letter), place)
    }
}
