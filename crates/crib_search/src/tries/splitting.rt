//! Cases: a card is fixed at the place that is most in doubt, each in turn, and both sides learn anew.

use crate::tries::cases::{Case, Cases};
use crate::tries::choosing::Choosing;
use crate::tries::matching::{GRAIN, Matching, ONE};
use crate::tries::net::{Net, Node};
use crate::tries::places::Places;
use crate::tries::rounds::average;
use crate::tries::tape::Tape;
use std::alloc::{AllocError, Allocator};

// The rounds in a case, after which what was learned is tried, and how often that is done at most.
const ROUNDS: u8 = 16;

const TIMES: u8 = 16;

// At no more places a card is fixed at the same time.
const DEPTH: u8 = 16;

// The guests that are heard in all cases.
const PATIENCE: usize = 24_000_000;

/// The cases in the making.
#[derive(Drop)]
pub(crate) struct Splitting<'a, A: Allocator> {
    places: &'a Places<A>,
    cases: &'a mut Cases<A>,
    // The case that is split.
    whole: Case,
    // Whether some case was left in which a plan may be better. Then no more are kept.
    is_left: bool,
    patience: usize,
}

/// A card of a node that is fixed in a case of which another one is a part.
#[derive(Clone, Copy)]
struct Fixed {
    whole: Case,
    node: usize,
    edge: usize,
}

impl<A: Allocator + Copy> Splitting<'_, A> {
    // Adds the case in which a card is fixed, unless some case was left.
    fn open(&mut self, net: &Net<A>, fixed: &Fixed) -> Result<Case, AllocError> {
        if self.is_left {
            return Ok(fixed.whole);
        }
        let next = self.cases.open()?;
        if let Some(node) = net.node(fixed.node) {
            self.cases.split(fixed.whole, node.place);
            if let Some(rank) = net.rank_of(self.places, &node, fixed.edge) {
                self.cases.put_answer(fixed.whole, rank, next)?;
            }
        }
        Ok(next)
    }

    // Leaves a case in which a plan may be better.
    fn leave(&mut self) {
        self.is_left = true;
        self.cases.close(self.whole);
    }
}

impl<A: Allocator + Copy> Choosing<'_, A> {
    /// Tries what is learned in cases of which a given one consists, until no plan can be better than the best so far.
    pub(crate) fn split(
        &mut self,
        alloc: A,
        places: &Places<A>,
        matching: &mut Matching<A>,
        cases: &mut Cases<A>,
        whole: Case,
    ) -> Result<(), AllocError> {
        if self.is_best(matching.least(&self.net)) {
            return Ok(());
        }
        let mut splitting = Splitting {
            places,
            cases,
            whole,
            is_left: false,
            patience: PATIENCE,
        };
        self.split_at(alloc, matching, &mut splitting, whole, DEPTH)
    }

    // Fixes each card at the place that is most in doubt.
    #[cycle(splitting)]
    fn split_at(
        &mut self,
        alloc: A,
        matching: &mut Matching<A>,
        splitting: &mut Splitting<'_, A>,
        whole: Case,
        depth: u8,
    ) -> Result<(), AllocError> {
        let Some((index, node)) = matching.most_in_doubt(&self.net) else {
            splitting.leave();
            return Ok(());
        };
        if depth == 0 {
            splitting.leave();
            return Ok(());
        }
        let mut fixed = Fixed {
            whole,
            node: index,
            edge: matching.favourite(&node),
        };
        let first = fixed.edge;
        let regrets = matching.regrets(alloc)?;
        self.try_case(alloc, matching, splitting, &regrets, &fixed, depth)?;
        for at in node.edge..node.edge_end {
            if at != first {
                fixed.edge = at;
                self.try_case(alloc, matching, splitting, &regrets, &fixed, depth)?;
            }
        }
        matching.fix(index, None);
        Ok(())
    }

    // Lets both sides learn in the case that a card is fixed. What they regretted before is given.
    #[cycle(splitting)]
    fn try_case(
        &mut self,
        alloc: A,
        matching: &mut Matching<A>,
        splitting: &mut Splitting<'_, A>,
        regrets: &[u64],
        fixed: &Fixed,
        depth: u8,
    ) -> Result<(), AllocError> {
        if splitting.patience == 0 || depth == 0 {
            splitting.leave();
            return Ok(());
        }
        let case = splitting.open(&self.net, fixed)?;
        matching.fix(fixed.node, Some(fixed.edge));
        matching.restart(&self.net, regrets);
        if !self.learn_on(matching, splitting)? {
            return self.split_at(alloc, matching, splitting, case, depth - 1);
        }
        if !splitting.is_left {
            let mut tape = Tape::new(alloc);
            self.keep_on(&mut tape, splitting.places, matching)?;
            splitting.cases.keep(case, tape);
        }
        Ok(())
    }

    // Lets both sides learn, until no plan can be better than the best so far, or the owner is in doubt somewhere.
    // Returns whether no plan can be better.
    fn learn_on(
        &mut self,
        matching: &mut Matching<A>,
        splitting: &mut Splitting<'_, A>,
    ) -> Result<bool, AllocError> {
        for _ in 0..TIMES {
            for _ in 0..ROUNDS {
                matching.play(&self.net);
                splitting.patience = splitting.patience.saturating_sub(matching.len());
            }
            if self.is_best_now(matching)? {
                return Ok(true);
            }
            if splitting.patience == 0 || matching.most_in_doubt(&self.net).is_some() {
                break;
            }
        }
        Ok(false)
    }
}

impl<A: Allocator + Copy> Matching<A> {
    // The place at which the owner is most in doubt, by what deals get there: its index and its node.
    fn most_in_doubt(&self, net: &Net<A>) -> Option<(usize, Node)> {
        let weight = self.weight();
        let mut most = 0;
        let mut found = None;
        for index in 0..net.nodes.len() {
            if let Some(node) = net.node(index) {
                let doubt = self.doubt(index, &node, weight);
                if doubt > most {
                    most = doubt;
                    found = Some((index, node));
                }
            }
        }
        found
    }

    // How much in doubt the owner is at a node, if all rounds weigh so much.
    fn doubt(&self, index: usize, node: &Node, weight: u64) -> u64 {
        let lesson = self.lesson(index);
        if lesson.fixed.is_some() {
            return 0;
        }
        let favourite = self.favourite(node);
        let mut others = 0u64;
        for at in node.edge..node.edge_end {
            if at != favourite {
                others = others.saturating_add(self.habit(at).total);
            }
        }
        let mut deals = 0u64;
        for at in lesson.guest..lesson.guest_end {
            if let Some(guest) = self.guests.get(at) {
                if let Some(way) = self.ways.get(guest.way) {
                    let flow = average(guest.total, weight);
                    deals = deals.saturating_add(flow.saturating_mul(way.weight));
                }
            }
        }
        average(others, weight).saturating_mul(deals / (ONE / GRAIN))
    }

    // Fixes an edge at a node, or none.
    fn fix(&mut self, index: usize, edge: Option<usize>) {
        if let Some(lesson) = self.lessons.get_mut(index) {
            lesson.fixed = edge;
        }
    }

    // What both sides regret.
    fn regrets(&self, alloc: A) -> Result<Vec<u64, A>, AllocError> {
        let mut regrets = Vec::new(alloc);
        for index in 0..self.habits.len() {
            regrets.push(self.habit(index).regret)?;
        }
        for index in 0..self.guests.len() {
            if let Some(guest) = self.guests.get(index) {
                regrets.push(guest.regret)?;
            }
        }
        Ok(regrets)
    }

    // Begins anew from what both sides regret.
    fn restart(&mut self, net: &Net<A>, regrets: &[u64]) {
        self.round = 0;
        let habits = self.habits.len();
        for index in 0..habits {
            if let Some(habit) = self.habits.get_mut(index) {
                habit.total = 0;
                if let Some(regret) = regrets.get(index) {
                    habit.regret = *regret;
                }
            }
        }
        for index in 0..self.guests.len() {
            if let Some(guest) = self.guests.get_mut(index) {
                guest.total = 0;
                if let Some(regret) = regrets.get(habits.saturating_add(index)) {
                    guest.regret = *regret;
                }
            }
        }
        for index in 0..net.nodes.len() {
            if let Some(node) = net.node(index) {
                self.share_out(index, &node);
            }
        }
    }
}
