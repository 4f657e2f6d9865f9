//! How much of each group of deals the opponent keeps for each place, as the rounds taught.

use crate::tries::choices::{Choices, Classes};
use crate::tries::grades::{Scale, mixed};
use std::alloc::{AllocError, Allocator};

/// A place at which a choice of the owner matters.
#[derive(Clone, Copy)]
pub(crate) struct Stop {
    /// The index of the place, and its key.
    pub(crate) place: usize,
    pub(crate) key: u64,
    /// The index past the last stop that lies behind it.
    pub(crate) end: usize,
    /// The index of what goes there first, and the index past what does last.
    pub(crate) visit: usize,
    pub(crate) visit_end: usize,
}

/// A group of deals that goes to a stop.
#[derive(Clone, Copy)]
pub(crate) struct Visit {
    /// The number of its choice of ranks.
    pub(crate) choice: usize,
    pub(crate) classes: Classes,
    /// The share of the group that goes there, in parts of one.
    pub(crate) share: u64,
}

/// What was learned of the places.
#[derive(Drop)]
pub(crate) struct Tape<A: Allocator> {
    /// The places of which something was learned: the index of the first one, and the index past the last one.
    pub(crate) learned: Vec<(usize, usize), A>,
    /// The stops, in the order of their places.
    pub(crate) stops: Vec<Stop, A>,
    pub(crate) visits: Vec<Visit, A>,
}

impl<A: Allocator + Copy> Tape<A> {
    /// An empty tape.
    pub(crate) fn new(alloc: A) -> Self {
        Tape {
            learned: Vec::new(alloc),
            stops: Vec::new(alloc),
            visits: Vec::new(alloc),
        }
    }

    /// Whether something was learned of a place.
    pub(crate) fn is_learned(&self, place: usize) -> bool {
        for index in 0..self.learned.len() {
            if let Some((first, end)) = self.learned.get(index) {
                if *first <= place && place < *end {
                    return true;
                }
            }
        }
        false
    }

    /// The index of the first stop from a place on.
    pub(crate) fn first_stop(&self, place: usize) -> usize {
        let mut low = 0usize;
        let mut high = self.stops.len();
        for _ in 0..64u8 {
            let middle = low.midpoint(high);
            match self.stops.get(middle) {
                Some(stop) if middle < high && stop.place < place => {
                    low = middle.saturating_add(1)
                }
                _ => high = middle.min(high),
            }
        }
        low
    }

    /// The scale by which the fewest deals get the same grade as others that go elsewhere.
    pub(crate) fn scale(&self, choices: &Choices<A>) -> Scale {
        if !choices.is_dealer {
            return Scale::Totals;
        }
        let mut hands = 0u64;
        let mut cribs = 0u64;
        for index in 0..self.visits.len() {
            if let Some(visit) = self.visits.get(index) {
                let (choice, classes) = (visit.choice, visit.classes);
                hands = hands.saturating_add(mixed(choices, choice, classes, Scale::Hands));
                cribs = cribs.saturating_add(mixed(choices, choice, classes, Scale::Cribs));
            }
        }
        if cribs < hands {
            Scale::Cribs
        } else {
            Scale::Hands
        }
    }
}
