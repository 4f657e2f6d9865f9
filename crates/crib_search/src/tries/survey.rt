//! A survey of a problem: at which places the owner has a choice, and what each card demands of the deals.
ghost use Rattle.std.specs.Prelude.{◌+◌, ◌≤◌, ◌<◌, ℕ, length, IsTrue};
ghost use Rattle.crib_cards.specs.Cards.{card_value};
ghost use Rattle.crib_cards.specs.Sets.{has};
ghost use Rattle.crib_play.specs.Record.{count_of};
ghost use Rattle.crib_search.specs.Private.Search.{IsHere, IsTurnOf};

use crate::own_options::options;
use crate::tries::cases::Cases;
use crate::tries::choices::{Choices, Classes, Left, fitting, one_of};
use crate::tries::favour::richest;
use crate::tries::places::{Branch, Places};
use crate::tries::spot::Spot;
use crate::tries::tape::Tape;
use crib_cards::{Card, Letter, Rank};
use crib_know::Know;
use crib_play::Turn;
use crib_problem::Problem;
use crib_show::{Demand, hand_points};
use crib_sure::demand_at_end;
use std::alloc::{AllocError, Allocator};

/// A choice of ranks that agrees with what was seen.
#[derive(Clone, Copy)]
pub(crate) struct Entry {
    // The index of the choice.
    pub(crate) choice: usize,
    // The index of the entry on the level below of which this one is a part.
    pub(crate) below: usize,
    // How many cards of each rank are left.
    pub(crate) left: Left,
    // The classes that have deals.
    pub(crate) classes: Classes,
    // The classes that beat the owner, even if they knew what the opponent holds.
    pub(crate) forced: Classes,
    // The classes that beat the owner at the worst.
    pub(crate) worst: Classes,
}

impl Entry {
    // Whether all deals beat the owner.
    fn is_lost(&self) -> bool {
        self.forced == self.classes
    }
}

/// A survey in the making.
#[derive(Drop)]
pub(crate) struct Survey<A: Allocator> {
    own_hand: u8,
    /// The choices that agree with the opening.
    pub(crate) choices: Choices<A>,
    // The entries of all levels, those of the highest last.
    pub(crate) entries: Vec<Entry, A>,
    // The index of the first entry of the highest level.
    first: usize,
    /// The places that were surveyed.
    pub(crate) places: Places<A>,
    /// What was learned of them, and the cases that were tried then.
    pub(crate) tape: Tape<A>,
    pub(crate) cases: Cases<A>,
}

impl<A: Allocator + Copy> Survey<A> {
    /// Begins a survey of a problem. It fails if an allocation fails.
    pub(crate) fn of(alloc: A, problem: &Problem) -> Result<Self, AllocError> {
        Ok(Survey {
            own_hand: hand_points(&problem.hold(), problem.starter()),
            choices: Choices::of(alloc, problem, &Know::start(problem))?,
            entries: Vec::new(alloc),
            first: 0,
            places: Places::new(alloc),
            tape: Tape::new(alloc),
            cases: Cases::new(alloc),
        })
    }

    /// Adds the places from a position on at which the opponent has shown nothing since the opening. Returns the
    /// classes of each choice that beat the owner whatever they play. It fails if an allocation fails.
    pub(crate) fn look(
        &mut self,
        alloc: A,
        problem: &Problem,
        know: &Know,
    ) -> Result<Vec<Classes, A>, AllocError>
        requires here { IsHere problem.now know.now }
    {
        self.entries.truncate(0);
        self.first = 0;
        for index in 0..self.choices.len() {
            if let Some(choice) = self.choices.get(index) {
                self.entries.push(Entry {
                    choice: index,
                    below: index,
                    left: choice.left,
                    classes: choice.classes,
                    forced: 0,
                    worst: 0,
                })?;
            }
        }
        self.look_at(problem, know, &Spot::at(0, 0))?;
        let mut forced = Vec::new(alloc);
        for index in 0..self.entries.len() {
            if let Some(entry) = self.entries.get(index) {
                forced.push(entry.forced)?;
            }
        }
        Ok(forced)
    }

    // Surveys what comes from a position on.
    #[cycle(looking)]
    fn look_at(&mut self, problem: &Problem, know: &Know, spot: &Spot) -> Result<(), AllocError>
        requires here { IsHere problem.now know.now }
    {
        match know.turn() {
            Turn::Over => {
                self.demand(demand_at_end(problem, self.own_hand, know));
                Ok(())
            }
            Turn::Owner => self.look_own(problem, know, spot),
            Turn::Opponent => self.look_theirs(problem, know, spot),
        }
    }

    // The same if the owner is to move.
    #[cycle(looking)]
    fn look_own(&mut self, problem: &Problem, know: &Know, spot: &Spot) -> Result<(), AllocError>
        requires turn { IsTurnOf problem.now know.now Turn.Owner }
    {
        let (cards, len) = options(problem, know);
        if len == 0 {
            let mut next = know.copy();
            next.own_go();
            return self.look_at(problem, &next, spot);
        }
        if len == 1 {
            return self.look_after(problem, know, cards[0], spot);
        }
        self.look_each(problem, know, &cards[..len], spot)
    }

    // The same after each of some cards.
    #[cycle(looking)]
    fn look_each(
        &mut self,
        problem: &Problem,
        know: &Know,
        cards: &[Card],
        spot: &Spot,
    ) -> Result<(), AllocError>
        requires turn { IsTurnOf problem.now know.now Turn.Owner }
        requires playable { (card : ℕ) → IsTrue (has cards.now card)
            → IsTrue (has know.now.own_left card) × (count_of know.now.round.pile + card_value card ≤ 31) }
    {
        let (base, end) = (self.first, self.entries.len());
        let index = self.places.open(spot.key, cards.len())?;
        for at in 0..cards.len() {
            let card = card_at(cards, at);
            let last = end.min(self.entries.len());
            self.first = self.entries.len();
            self.entries.extend_from_within(base.min(last)..last)?;
            let next = self.places.len();
            self.look_after(problem, know, card, spot)?;
            self.close_branch(index, at, card.rank(), next);
        }
        self.close(index, richest(know, cards), base, end)?;
        self.entries.truncate(end);
        self.first = base;
        Ok(())
    }

    // The same after a card.
    #[cycle(looking)]
    fn look_after(
        &mut self,
        problem: &Problem,
        know: &Know,
        card: Card,
        spot: &Spot,
    ) -> Result<(), AllocError>
        requires turn { IsTurnOf problem.now know.now Turn.Owner }
        requires held { IsTrue (has know.now.own_left card) }
        requires fits { count_of know.now.round.pile + card_value card ≤ 31 }
    {
        let mut next = know.copy();
        next.own_play(card);
        self.look_at(problem, &next, spot)
    }

    // The same if the opponent is to move.
    #[cycle(looking)]
    fn look_theirs(&mut self, problem: &Problem, know: &Know, spot: &Spot) -> Result<(), AllocError>
        requires turn { IsTurnOf problem.now know.now Turn.Opponent }
    {
        let (below, end) = (self.first, self.entries.len());
        let fits = fitting(know);
        let left = self.left() & fits;
        for index in 0..14u8 {
            let letter = Letter::at(index);
            if !is_possible(&letter, left) {
                continue;
            }
            if self.show(&letter, fits, end)? {
                if know.can_show(letter) {
                    let mut next = know.copy();
                    next.saw(&letter);
                    self.look_at(problem, &next, &spot.after_letter(letter))?;
                }
            }
            self.take_back(below, end);
        }
        Ok(())
    }

    // Demands something of the deals of the level.
    fn demand(&mut self, demand: Demand) {
        if demand.is_met_by_all() {
            return;
        }
        let asked = self.choices.asked(demand);
        for index in self.first..self.entries.len() {
            if let Some(entry) = self.entries.get_mut(index) {
                if let Some(choice) = self.choices.get(entry.choice) {
                    let missing = asked.missing(choice);
                    entry.forced |= missing;
                    entry.worst |= missing;
                }
            }
        }
    }

    // Adds a level after a letter of the opponent. It has the entries below an index that can show the letter, except
    // those all of whose deals are lost. Returns whether it has any.
    fn show(&mut self, letter: &Letter, fits: Left, end: usize) -> Result<bool, AllocError> {
        match *letter {
            Letter::Seen(rank) => self.show_rank(rank, end)?,
            Letter::Go => self.show_go(fits, end)?,
        }
        self.first = end;
        Ok(self.entries.len() > end)
    }

    // Adds those of the entries of the level that have a card of a rank left.
    fn show_rank(&mut self, rank: Rank, end: usize) -> Result<(), AllocError> {
        let one = one_of(rank);
        let digit = one.saturating_mul(15);
        for index in self.first..end {
            if let Some(entry) = self.entries.get(index) {
                if entry.left & digit != 0 && !entry.is_lost() {
                    let next = Entry {
                        below: index,
                        left: entry.left.saturating_sub(one),
                        ..*entry
                    };
                    self.entries.push(next)?;
                }
            }
        }
        Ok(())
    }

    // Adds those of the entries of the level that have no card left that fits.
    fn show_go(&mut self, fits: Left, end: usize) -> Result<(), AllocError> {
        for index in self.first..end {
            if let Some(entry) = self.entries.get(index) {
                if entry.left & fits == 0 && !entry.is_lost() {
                    let next = Entry {
                        below: index,
                        ..*entry
                    };
                    self.entries.push(next)?;
                }
            }
        }
        Ok(())
    }

    // The ranks of which an entry of the level has a card left.
    fn left(&self) -> Left {
        let mut left = 0;
        for index in self.first..self.entries.len() {
            if let Some(entry) = self.entries.get(index) {
                left |= entry.left;
            }
        }
        left
    }

    // Goes back to the level below, between two indices. It takes over what beats the owner.
    fn take_back(&mut self, below: usize, end: usize) {
        for index in end..self.entries.len() {
            if let Some(entry) = self.entries.get(index).copied() {
                if let Some(other) = self.entries.get_mut(entry.below) {
                    other.forced = entry.forced;
                    other.worst = entry.worst;
                }
            }
        }
        self.entries.truncate(end);
        self.first = below;
    }

    // Closes a branch of a place. The places after it begin at `next`.
    fn close_branch(&mut self, index: usize, at: usize, rank: Rank, next: usize) {
        let end = self.places.len();
        self.places
            .put_branch(index, at, Branch::after(rank, next, end));
    }
}

/// The card at an index.
pub(crate) fn card_at(cards: &[Card], index: usize) -> Card
    requires { index < length cards.now }
    ensures { IsTrue (has cards.now result) }
{
    cards[index]
}

// Whether the opponent may show a letter, if cards of these ranks are left that fit.
fn is_possible(letter: &Letter, left: Left) -> bool {
    match *letter {
        Letter::Seen(rank) => left & one_of(rank).saturating_mul(15) != 0,
        Letter::Go => true,
    }
}
