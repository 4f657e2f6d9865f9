//! A guide for the opponent: how much of the open deals they keep for each turn, as a search found.

use crate::tries::cases::Case;
use crate::tries::grades::{GRADES, Ladder, RUNGS, Scale};
use crate::tries::matching::ONE;
use crate::tries::spot::Spot;
use crate::tries::survey::Survey;
use crate::tries::tape::{Stop, Tape, Visit};
use crate::tries::trails::ShownTurn;
use crib_cards::Rank;
use crib_show::{CHOICES, Demand};
use std::alloc::{AllocError, Allocator};

/// A guide for the opponent. The open deals whose holds have the same four ranks, and that have the same grade, are an
/// entry. Its index is 16 times that of the ranks, and its grade. The grade of a deal is how many demands of a ladder
/// it meets in a row.
#[derive(Drop)]
pub struct Guide<'a, A: Allocator> {
    survey: &'a Survey<A>,
    // What was learned in the case that is taken.
    tape: &'a Tape<A>,
    start: Spot,
    // The case in which no card is fixed.
    whole: Case,
    // How many deals beat the best plan that was found.
    beaten: u64,
    scale: Scale,
    // What goes to the stops, and for each stop the index of the first flow and the index past the last one.
    flows: Vec<Flow, A>,
    ranges: Vec<(usize, usize), A>,
    notes: Vec<Note, A>,
    // The number of the last notes, and whether they say something.
    number: u64,
    is_noted: bool,
}

// What of an entry goes to a stop, in parts of one.
#[derive(Clone, Copy)]
struct Flow {
    entry: usize,
    share: u64,
}

// What is noted of an entry, and the number of these notes.
#[derive(Clone, Copy, Default)]
struct Note {
    number: u64,
    share: u64,
}

impl<'a, A: Allocator + Copy> Guide<'a, A> {
    /// The guide that a survey gives. It fails if an allocation fails.
    pub(crate) fn of(
        alloc: A,
        survey: &'a Survey<A>,
        start: Spot,
        whole: Case,
        beaten: u64,
    ) -> Result<Self, AllocError> {
        let mut guide = Guide {
            survey,
            tape: &survey.tape,
            start,
            whole,
            beaten,
            scale: survey.tape.scale(&survey.choices),
            flows: Vec::new(alloc),
            ranges: Vec::new(alloc),
            notes: Vec::new(alloc),
            number: 0,
            is_noted: false,
        };
        for _ in 0..GRADES * CHOICES {
            guide.notes.push(Note::default())?;
        }
        guide.take(guide.whole())?;
        Ok(guide)
    }

    /// How many deals beat the best plan that the search found.
    pub fn beaten(&self) -> u64 {
        self.beaten
    }

    /// The case in which no card is fixed.
    pub fn whole(&self) -> Case {
        self.whole
    }

    /// Takes what was learned in a case. It fails if an allocation fails.
    pub fn take(&mut self, case: Case) -> Result<(), AllocError> {
        self.tape = match self.survey.cases.tape(case) {
            Some(tape) => tape,
            None => &self.survey.tape,
        };
        self.flows.truncate(0);
        self.ranges.truncate(0);
        self.is_noted = false;
        for index in 0..self.tape.stops.len() {
            if let Some(stop) = self.tape.stops.get(index).copied() {
                self.add_flows(&stop)?;
            }
        }
        Ok(())
    }

    /// The turns since the opening that lead to the place of the owner at which a case is split, the first one first,
    /// if it is split.
    pub fn question(&self, case: Case) -> Option<&[ShownTurn]> {
        self.survey.cases.turns(case)
    }

    /// The case in which the owner plays a card of a rank at the place at which another one is split, or one that is as
    /// good against each deal.
    pub fn answer(&self, case: Case, rank: Rank) -> Case {
        let cases = &self.survey.cases;
        let Some(place) = cases.place(case) else {
            return case;
        };
        let rank = match self.survey.places.as_good(place, rank) {
            Some(other) => other,
            None => rank,
        };
        match cases.answer(case, rank) {
            Some(next) => next,
            None => case,
        }
    }

    // Adds what goes to a stop.
    fn add_flows(&mut self, stop: &Stop) -> Result<(), AllocError> {
        let first = self.flows.len();
        for at in stop.visit..stop.visit_end {
            if let Some(visit) = self.tape.visits.get(at) {
                self.add_parts(visit)?;
            }
        }
        self.ranges.push((first, self.flows.len()))?;
        Ok(())
    }

    // Adds what a visit brings of each entry.
    fn add_parts(&mut self, visit: &Visit) -> Result<(), AllocError> {
        let Some(choice) = self.survey.choices.get(visit.choice) else {
            return Ok(());
        };
        for grade in 0..GRADES {
            let classes = self.scale.classes(grade);
            let all = u64::from(self.survey.choices.count(visit.choice, classes));
            let part = u64::from(
                self.survey
                    .choices
                    .count(visit.choice, classes & visit.classes),
            );
            if part > 0 && all > 0 {
                self.flows.push(Flow {
                    entry: choice.index.saturating_mul(GRADES).saturating_add(grade),
                    share: visit.share.saturating_mul(part) / all,
                })?;
            }
        }
        Ok(())
    }

    /// The ladders of the choices of four ranks, by their indices.
    pub fn ladders(&self) -> [Ladder; CHOICES] {
        let mut ladders = [Ladder {
            rungs: [Demand::none(); RUNGS],
        }; CHOICES];
        for number in 0..self.survey.choices.len() {
            if let Some(choice) = self.survey.choices.get(number) {
                if choice.index < CHOICES {
                    ladders[choice.index] = self.scale.ladder(&self.survey.choices, choice);
                }
            }
        }
        ladders
    }

    /// Where the play begins.
    pub fn start(&self) -> Spot {
        self.start
    }

    /// The spot after a card of a rank, if the owner had a choice at another.
    pub fn after_card(&self, spot: &Spot, rank: Rank) -> Spot {
        self.survey.places.after_card(spot, rank)
    }

    /// Notes how much of the entries goes to the stops ahead of a spot, of those that go to a stop since the last card.
    pub fn note_ahead(&mut self, spot: &Spot) {
        self.number = self.number.saturating_add(1);
        self.is_noted = true;
        let mut index = self.tape.first_stop(spot.next);
        for _ in index..self.tape.stops.len() {
            let Some(stop) = self.tape.stops.get(index).copied() else {
                break;
            };
            if stop.place >= spot.end {
                break;
            }
            self.note(index, spot.key <= stop.key && stop.key < spot.last());
            index = stop.end.max(index.saturating_add(1));
        }
    }

    /// Notes the entries that go to the place at a spot, if something was learned of it.
    pub fn note_here(&mut self, spot: &Spot) {
        self.number = self.number.saturating_add(1);
        self.is_noted = false;
        if let Some(place) = self.survey.places.index_at(spot) {
            self.is_noted = self.survey.tape.is_learned(place);
            let index = self.tape.first_stop(place);
            if let Some(stop) = self.tape.stops.get(index) {
                if stop.place == place {
                    self.note(index, true);
                }
            }
        }
    }

    // Notes the entries that go to a stop, and how much of them if it lies ahead.
    fn note(&mut self, stop: usize, is_ahead: bool) {
        let Some((first, end)) = self.ranges.get(stop).copied() else {
            return;
        };
        for at in first..end {
            if let Some(flow) = self.flows.get(at) {
                if let Some(note) = self.notes.get_mut(flow.entry) {
                    let before = if note.number == self.number {
                        note.share
                    } else {
                        0
                    };
                    *note = Note {
                        number: self.number,
                        share: if is_ahead {
                            before.saturating_add(flow.share)
                        } else {
                            before
                        },
                    };
                }
            }
        }
    }

    /// Whether an entry was noted. If nothing was learned, all are.
    pub fn is_noted(&self, entry: usize) -> bool {
        match self.notes.get(entry) {
            Some(note) => !self.is_noted || note.number == self.number,
            None => true,
        }
    }

    /// How many of the parts of an entry the notes allow.
    pub fn allowed(&self, entry: usize, parts: u32) -> u32 {
        match self.notes.get(entry) {
            Some(note) if self.is_noted && note.number == self.number => {
                let allowed = note.share.saturating_mul(u64::from(parts)).div_ceil(ONE);
                allowed.min(u64::from(parts)) as u32
            }
            _ => parts,
        }
    }
}
