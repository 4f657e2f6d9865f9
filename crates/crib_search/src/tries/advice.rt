//! What a search advises the owner to play.
ghost use Rattle.std.specs.Prelude.{◌+◌, ◌≤◌, ℕ, IsTrue};
ghost use Rattle.crib_cards.specs.Cards.{card_value};
ghost use Rattle.crib_cards.specs.Sets.{has};
ghost use Rattle.crib_play.specs.Record.{count_of};
ghost use Rattle.crib_search.specs.Private.Search.{IsHere, IsTurnOf};

use crate::own_options::options;
use crate::tries::cases::Case;
use crate::tries::choosing::choose;
use crate::tries::guide::Guide;
use crate::tries::places::{Branch, Places};
use crate::tries::spot::Spot;
use crate::tries::survey::{Survey, card_at};
use crate::tries::trails::ShownTurn;
use crib_cards::{Card, Rank};
use crib_know::Know;
use crib_play::Turn;
use crib_problem::Problem;
use std::alloc::{AllocError, Allocator, Global};

/// What a search advises the owner of a problem to play.
#[derive(Drop)]
pub struct Advice<A: Allocator = Global> {
    survey: Survey<A>,
    // The starts that have been searched.
    starts: Vec<Start, A>,
    // Where the play of the problem begins, and the case in which no card is fixed.
    spot: Spot,
    whole: Case,
}

/// The places behind the first card of the owner, or behind the opening.
#[derive(Clone, Copy)]
struct Start {
    // The rank of the card.
    rank: Option<Rank>,
    // The index of the first place.
    next: usize,
    // The index past the last one.
    end: usize,
    // How many deals beat the cards that are chosen there.
    beaten: u64,
    // The case in which no card is fixed but that one, and the first one behind its parts.
    case: Case,
    case_end: Case,
}

impl<A: Allocator + Copy> Advice<A> {
    /// Begins to search a problem. It fails if an allocation fails.
    pub(crate) fn of(alloc: A, problem: &Problem) -> Result<Self, AllocError> {
        let survey = Survey::of(alloc, problem)?;
        let whole = survey.cases.end();
        Ok(Advice {
            survey,
            starts: Vec::new(alloc),
            spot: Spot::at(0, 0),
            whole,
        })
    }

    /// A guide for the opponent, as the search found it. It fails if an allocation fails.
    pub fn guide(&self, alloc: A) -> Result<Guide<'_, A>, AllocError> {
        let mut beaten = u64::MAX;
        for index in 0..self.starts.len() {
            if let Some(start) = self.starts.get(index) {
                beaten = beaten.min(start.beaten);
            }
        }
        Guide::of(alloc, &self.survey, self.spot, self.whole, beaten)
    }

    /// The places at which the owner has a choice.
    pub(crate) fn places(&self) -> &Places<A> {
        &self.survey.places
    }

    /// The spot after the opening of a problem. If a last card is given, the problem is the one that is searched with
    /// one turn more, in which the owner plays it. It fails if an allocation fails.
    pub(crate) fn spot(
        &mut self,
        alloc: A,
        problem: &Problem,
        last: Option<Card>,
    ) -> Result<Spot, AllocError> {
        let know = Know::start(problem);
        let Some(card) = last else {
            self.spot = self.first_spot(alloc, problem, &know)?;
            return Ok(self.spot);
        };
        let start = self.start_at(alloc, problem, &know, Some(card.rank()))?;
        Ok(Spot::at(start.next, start.end))
    }

    // The spot after the opening. If the owner leads, it is that of a place of its own.
    fn first_spot(&mut self, alloc: A, problem: &Problem, know: &Know) -> Result<Spot, AllocError>
        requires here { IsHere problem.now know.now }
    {
        if let Turn::Owner = know.turn() {
            let (cards, len) = options(problem, know);
            if len > 1 {
                return self.first_place(alloc, problem, know, &cards[..len]);
            }
        }
        let start = self.start_at(alloc, problem, know, None)?;
        self.whole = start.case;
        Ok(Spot::at(start.next, start.end))
    }

    // Adds a place for these cards, which are looked at one by one.
    fn first_place(
        &mut self,
        alloc: A,
        problem: &Problem,
        know: &Know,
        cards: &[Card],
    ) -> Result<Spot, AllocError>
        requires turn { IsTurnOf problem.now know.now Turn.Owner }
        requires playable { (card : ℕ) → IsTrue (has cards.now card)
            → IsTrue (has know.now.own_left card) × (count_of know.now.round.pile + card_value card ≤ 31) }
    {
        let index = self.survey.places.open(0, cards.len())?;
        self.whole = self.survey.cases.open()?;
        let mut least = u64::MAX;
        for at in 0..cards.len() {
            let card = card_at(cards, at);
            let start = self.start_after(alloc, problem, know, card)?;
            self.survey.places.put_branch(
                index,
                at,
                Branch::after(card.rank(), start.next, start.end),
            );
            self.survey
                .cases
                .put_answer(self.whole, card.rank(), start.case)?;
            if self.survey.cases.place(start.case).is_some() {
                self.survey.cases.split(self.whole, index);
            }
            if start.beaten < least {
                least = start.beaten;
                self.survey.places.choose(index, at);
            }
        }
        Ok(Spot::at(index, index.saturating_add(1)))
    }

    // What is behind a card of the owner.
    fn start_after(
        &mut self,
        alloc: A,
        problem: &Problem,
        know: &Know,
        card: Card,
    ) -> Result<Start, AllocError>
        requires turn { IsTurnOf problem.now know.now Turn.Owner }
        requires held { IsTrue (has know.now.own_left card) }
        requires fits { count_of know.now.round.pile + card_value card ≤ 31 }
    {
        let mut after = know.copy();
        after.own_play(card);
        self.start_with(alloc, problem, &after, card)
    }

    // What is behind a card that has been played last.
    fn start_with(
        &mut self,
        alloc: A,
        problem: &Problem,
        know: &Know,
        card: Card,
    ) -> Result<Start, AllocError>
        requires here { IsHere problem.now know.now }
    {
        let start = self.start_at(alloc, problem, know, Some(card.rank()))?;
        self.trace(problem, know, &[ShownTurn::of(card)], &start)?;
        Ok(start)
    }

    // Keeps the turns that lead to the places at which the cases of a start are split. Those before it are given.
    fn trace(
        &mut self,
        problem: &Problem,
        know: &Know,
        turns: &[ShownTurn],
        start: &Start,
    ) -> Result<(), AllocError>
        requires here { IsHere problem.now know.now }
    {
        for index in start.case.index..start.case_end.index {
            let spot = Spot::at(start.next, start.end);
            let case = Case { index };
            self.survey.trace_case(problem, know, turns, &spot, case)?;
        }
        Ok(())
    }

    // What is behind a card of a rank that has been played, or behind the opening.
    fn start_at(
        &mut self,
        alloc: A,
        problem: &Problem,
        know: &Know,
        rank: Option<Rank>,
    ) -> Result<Start, AllocError>
        requires here { IsHere problem.now know.now }
    {
        for index in 0..self.starts.len() {
            if let Some(start) = self.starts.get(index) {
                if start.rank == rank {
                    return Ok(*start);
                }
            }
        }
        let next = self.survey.places.len();
        let forced = self.survey.look(alloc, problem, know)?;
        let (beaten, case) = choose(alloc, &mut self.survey, next, forced)?;
        let start = Start {
            rank,
            next,
            end: self.survey.places.len(),
            beaten,
            case,
            case_end: self.survey.cases.end(),
        };
        if start.rank.is_none() {
            self.trace(problem, know, &[], &start)?;
        }
        self.starts.push(start)?;
        Ok(start)
    }
}
