//! The cases of a search: in each, some cards of the owner are fixed.

use crate::tries::tape::Tape;
use crate::tries::trails::ShownTurn;
use crib_cards::Rank;
use std::alloc::{AllocError, Allocator};

/// A case of a search, in which some cards of the owner are fixed.
#[derive(Clone, Copy, PartialEq, Eq)]
pub struct Case {
    // Its index among those that are kept.
    pub(crate) index: usize,
}

/// What is kept of a case.
#[derive(Drop)]
struct Kept<A: Allocator> {
    // The place at which it is split, if it is.
    question: Option<Question>,
    // What was learned in it alone.
    tape: Option<Tape<A>>,
}

/// The place at which a case is split.
#[derive(Clone, Copy)]
struct Question {
    // The index of the place.
    place: usize,
    // The indices of the first turn on the way there, and past the last one.
    turn: usize,
    turn_end: usize,
}

/// A card that is fixed at the place at which a case is split.
#[derive(Clone, Copy)]
struct Answer {
    case: Case,
    rank: Rank,
    // The case in which it is fixed.
    next: Case,
}

/// The cases of a search. If one is split, no plan can be better than the best in each that isn't.
#[derive(Drop)]
pub(crate) struct Cases<A: Allocator> {
    cases: Vec<Kept<A>, A>,
    answers: Vec<Answer, A>,
    /// The turns on the way to the places at which cases are split.
    pub(crate) turns: Vec<ShownTurn, A>,
}

impl<A: Allocator + Copy> Cases<A> {
    /// No cases.
    pub(crate) fn new(alloc: A) -> Self {
        Cases {
            cases: Vec::new(alloc),
            answers: Vec::new(alloc),
            turns: Vec::new(alloc),
        }
    }

    /// The case that will be added next.
    pub(crate) fn end(&self) -> Case {
        Case {
            index: self.cases.len(),
        }
    }

    /// Adds a case. It fails if an allocation fails.
    pub(crate) fn open(&mut self) -> Result<Case, AllocError> {
        let index = self.cases.len();
        self.cases.push(Kept {
            question: None,
            tape: None,
        })?;
        Ok(Case { index })
    }

    /// Takes out the cases behind one, which isn't split then. No earlier one leads to them.
    pub(crate) fn close(&mut self, case: Case) {
        self.cases.truncate(case.index.saturating_add(1));
        if let Some(kept) = self.cases.get_mut(case.index) {
            kept.question = None;
        }
        let mut count = 0usize;
        for index in 0..self.answers.len() {
            if let Some(answer) = self.answers.get(index) {
                if answer.case.index < case.index {
                    count = index.saturating_add(1);
                }
            }
        }
        self.answers.truncate(count);
    }

    /// Splits a case at the place with an index.
    pub(crate) fn split(&mut self, case: Case, place: usize) {
        if let Some(kept) = self.cases.get_mut(case.index) {
            kept.question = Some(Question {
                place,
                turn: 0,
                turn_end: 0,
            });
        }
    }

    /// Adds the case in which a card of a rank is fixed at the place at which another one is split. It fails if an
    /// allocation fails.
    pub(crate) fn put_answer(
        &mut self,
        case: Case,
        rank: Rank,
        next: Case,
    ) -> Result<(), AllocError> {
        self.answers.push(Answer { case, rank, next })?;
        Ok(())
    }

    /// Keeps what was learned in a case.
    pub(crate) fn keep(&mut self, case: Case, tape: Tape<A>) {
        if let Some(kept) = self.cases.get_mut(case.index) {
            kept.tape = Some(tape);
        }
    }

    /// Keeps where the turns are that lead to the place at which a case is split: those from an index on.
    pub(crate) fn put_turns(&mut self, case: Case, turn: usize) {
        let turn_end = self.turns.len();
        if let Some(kept) = self.cases.get_mut(case.index) {
            if let Some(question) = kept.question {
                kept.question = Some(Question {
                    turn,
                    turn_end,
                    ..question
                });
            }
        }
    }

    fn question(&self, case: Case) -> Option<Question> {
        self.cases.get(case.index)?.question
    }

    /// The index of the place at which a case is split, if it is.
    pub(crate) fn place(&self, case: Case) -> Option<usize> {
        Some(self.question(case)?.place)
    }

    /// The turns that lead to the place at which a case is split, if it is.
    pub(crate) fn turns(&self, case: Case) -> Option<&[ShownTurn]> {
        let question = self.question(case)?;
        self.turns.get(question.turn..question.turn_end)
    }

    /// What was learned in a case alone, if something was.
    pub(crate) fn tape(&self, case: Case) -> Option<&Tape<A>> {
        self.cases.get(case.index)?.tape.as_ref()
    }

    /// The case in which a card of a rank is fixed at the place at which another one is split. If there is none, it is
    /// that of the first card there.
    pub(crate) fn answer(&self, case: Case, rank: Rank) -> Option<Case> {
        let mut first = None;
        for index in 0..self.answers.len() {
            let answer = self.answers.get(index)?;
            if answer.case == case {
                if answer.rank == rank {
                    return Some(answer.next);
                }
                if first.is_none() {
                    first = Some(answer.next);
                }
            }
        }
        first
    }
}
