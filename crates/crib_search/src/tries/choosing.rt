//! Which card is chosen at each place, so that few deals beat the plan.

use crate::tries::cases::Case;
use crate::tries::choices::{Choices, Classes};
use crate::tries::ledger::Ledger;
use crate::tries::matching::Matching;
use crate::tries::net::{DEPTH, Edge, Net};
use crate::tries::places::Places;
use crate::tries::rounds::average;
use crate::tries::survey::Survey;
use crate::tries::tape::{Stop, Tape, Visit};
use std::alloc::{AllocError, Allocator};

// How often each place is chosen anew at most.
const TIMES: u8 = 4;

// The rounds after which what was learned is tried.
const ROUNDS: [u32; 5] = [16, 32, 64, 128, 256];

// The guests that are heard in all rounds.
const PATIENCE: usize = 6_000_000;

// A plan is near sure if at most one of so many deals beats it. For another plan there are no rounds.
const NEAR: u64 = 10;

/// The choices in the making.
#[derive(Drop)]
pub(crate) struct Choosing<'a, A: Allocator> {
    choices: &'a Choices<A>,
    pub(crate) net: Net<A>,
    ledger: Ledger<A>,
    // The best chosen edges so far, and how many deals beat them.
    kept: Vec<usize, A>,
    least: u64,
}

/// Chooses a card at each place from an index on. The classes of each choice of ranks that beat the owner in any case
/// are given. Returns how many deals beat the cards that are chosen, and a case whose parts may show that no fewer can.
/// It fails if an allocation fails.
pub(crate) fn choose<A: Allocator + Copy>(
    alloc: A,
    survey: &mut Survey<A>,
    first: usize,
    forced: Vec<Classes, A>,
) -> Result<(u64, Case), AllocError> {
    let Survey {
        choices,
        places,
        tape,
        cases,
        ..
    } = survey;
    let mut beaten = 0u64;
    for index in 0..forced.len() {
        if let Some(classes) = forced.get(index) {
            beaten = beaten.saturating_add(u64::from(choices.count(index, *classes)));
        }
    }
    let mut ledger = Ledger::new(alloc, choices.len())?;
    // The net of a pone is small. Whole, it leads deals with the same ranks and different shows better.
    let is_whole = !choices.is_dealer;
    let net = Net::knit(alloc, places, first, &mut ledger, forced, is_whole)?;
    ledger.divide(choices)?;
    let mut choosing = Choosing {
        choices,
        net,
        ledger,
        kept: Vec::new(alloc),
        least: u64::MAX,
    };
    let end = choosing.net.nodes.len();
    choosing.choose_all((0, end), false, DEPTH);
    choosing.improve()?;
    let case = cases.open()?;
    if beaten.saturating_add(choosing.least) <= choices.open_deals() / NEAR {
        let mut matching = choosing.learn(alloc)?;
        tape.learned.push((first, places.len()))?;
        choosing.keep_on(tape, places, &matching)?;
        choosing.split(alloc, places, &mut matching, cases, case)?;
    }
    choosing.restore();
    choosing.enrich_all(places, (0, end), DEPTH);
    choosing.net.choose_at(places);
    Ok((beaten.saturating_add(choosing.least), case))
}

impl<A: Allocator + Copy> Choosing<'_, A> {
    // Lets both sides learn, and tries what was learned, until no plan can be better.
    fn learn(&mut self, alloc: A) -> Result<Matching<A>, AllocError> {
        let mut matching = Matching::new(alloc, &self.net, &self.ledger)?;
        let mut patience = PATIENCE;
        for round in 1..257u32 {
            matching.play(&self.net);
            patience = patience.saturating_sub(matching.len());
            if (patience == 0 || ROUNDS.contains(&round)) && self.is_best_now(&mut matching)? {
                break;
            }
            if patience == 0 {
                break;
            }
        }
        Ok(matching)
    }

    /// Tries what was learned. Returns whether no plan can be better than the best so far.
    pub(crate) fn is_best_now(&mut self, matching: &mut Matching<A>) -> Result<bool, AllocError> {
        let least = matching.least(&self.net);
        self.follow(matching, false);
        self.improve()?;
        if !self.is_best(least) {
            self.follow(matching, true);
            self.improve()?;
        }
        Ok(self.is_best(least))
    }

    /// Whether no plan can be better than the best so far, if each is beaten by so many deals at least. By totals, the
    /// bound that is proved knows no number that divides those of all groups.
    pub(crate) fn is_best(&self, least: u64) -> bool {
        let step = if self.choices.are_by_totals() {
            1
        } else {
            self.ledger.step()
        };
        least.saturating_add(step) > self.least
    }

    /// Keeps on a tape what was learned.
    pub(crate) fn keep_on(
        &self,
        tape: &mut Tape<A>,
        places: &Places<A>,
        matching: &Matching<A>,
    ) -> Result<(), AllocError> {
        let base = tape.stops.len();
        let weight = matching.weight();
        for index in 0..self.net.nodes.len() {
            if let Some(node) = self.net.node(index) {
                let visit = tape.visits.len();
                let lesson = matching.lesson(index);
                for at in lesson.guest..lesson.guest_end {
                    self.keep_visit(tape, matching, at, weight)?;
                }
                if let Some(place) = places.place(node.place) {
                    tape.stops.push(Stop {
                        place: node.place,
                        key: place.key,
                        end: base.saturating_add(self.net.past(index)),
                        visit,
                        visit_end: tape.visits.len(),
                    })?;
                }
            }
        }
        Ok(())
    }

    // Keeps how much of the group of a guest went to its node in all rounds, which weigh so much.
    fn keep_visit(
        &self,
        tape: &mut Tape<A>,
        matching: &Matching<A>,
        guest: usize,
        weight: u64,
    ) -> Result<(), AllocError> {
        if let Some(guest) = matching.guests.get(guest) {
            if let Some(group) = self.ledger.group(guest.group) {
                tape.visits.push(Visit {
                    choice: group.choice,
                    classes: group.classes,
                    share: average(guest.total, weight),
                })?;
            }
        }
        Ok(())
    }

    // Chooses anew until nothing is gained, and keeps the choices if they are the best so far.
    fn improve(&mut self) -> Result<(), AllocError> {
        for _ in 0..TIMES {
            let beaten = self.ledger.beaten;
            let end = self.net.nodes.len();
            self.choose_all((0, end), true, DEPTH);
            if self.ledger.beaten >= beaten {
                break;
            }
        }
        if self.ledger.beaten < self.least {
            self.least = self.ledger.beaten;
            self.kept.truncate(0);
            for index in 0..self.net.nodes.len() {
                if let Some(node) = self.net.node(index) {
                    self.kept.push(node.choice)?;
                }
            }
        }
        Ok(())
    }

    // Takes the best choices.
    fn restore(&mut self) {
        let all = (0, self.net.nodes.len());
        self.pass_all(all, true, DEPTH);
        for index in 0..self.net.nodes.len() {
            if let Some(node) = self.net.nodes.get_mut(index) {
                if let Some(choice) = self.kept.get(index) {
                    node.choice = *choice;
                }
            }
        }
        self.pass_all(all, false, DEPTH);
    }

    // Takes the cards that score most at the nodes between two indices, side by side, and at those behind them, where
    // no more deals beat the plan then.
    #[cycle(enriching)]
    fn enrich_all(&mut self, places: &Places<A>, range: (usize, usize), depth: u8) {
        let (first, end) = range;
        let mut index = first;
        for _ in first..end {
            if index >= end {
                break;
            }
            self.enrich(places, index, depth);
            index = self.net.past(index);
        }
    }

    // The same for a node.
    #[cycle(enriching)]
    fn enrich(&mut self, places: &Places<A>, index: usize, depth: u8) {
        let Some(node) = self.net.node(index) else {
            return;
        };
        if depth == 0 {
            return;
        }
        let richest = self.net.richest(places, &node);
        if richest != node.choice {
            let beaten = self.ledger.beaten;
            self.turn(index, richest, depth);
            if self.ledger.beaten > beaten {
                self.turn(index, node.choice, depth);
            }
        }
        if let Some(node) = self.net.node(index) {
            if let Some(edge) = self.net.edge(node.choice) {
                self.enrich_all(places, (edge.next, edge.end), depth - 1);
            }
        }
    }

    // Chooses an edge at a node from which on the chosen ones pass.
    fn turn(&mut self, index: usize, edge: usize, depth: u8) {
        self.pass_node(index, true, depth);
        if let Some(node) = self.net.nodes.get_mut(index) {
            node.choice = edge;
        }
        self.pass_node(index, false, depth);
    }

    // Takes the choices that were learned: those that were played most, or the best against what was played.
    fn follow(&mut self, matching: &Matching<A>, is_answer: bool) {
        let all = (0, self.net.nodes.len());
        self.pass_all(all, true, DEPTH);
        for index in 0..self.net.nodes.len() {
            if let Some(node) = self.net.nodes.get_mut(index) {
                node.choice = if is_answer {
                    matching.lesson(index).answer
                } else {
                    matching.favourite(node)
                };
            }
        }
        self.pass_all(all, false, DEPTH);
    }

    // Lets through what an edge lets through, or takes it back.
    fn pass(&mut self, edge: &Edge, is_back: bool) {
        for index in edge.hit..edge.hit_end {
            if let Some(item) = self.net.hits.get(index).copied() {
                if is_back {
                    self.ledger.take_back(self.choices, item);
                } else {
                    self.ledger.let_through(self.choices, item);
                }
            }
        }
    }

    // The same for the chosen edges of the nodes between two indices, side by side, and of those behind them.
    #[cycle(passing)]
    fn pass_all(&mut self, range: (usize, usize), is_back: bool, depth: u8) {
        let (first, end) = range;
        let mut index = first;
        for _ in first..end {
            if index >= end {
                break;
            }
            self.pass_node(index, is_back, depth);
            index = self.net.past(index);
        }
    }

    // The same for a node.
    #[cycle(passing)]
    fn pass_node(&mut self, index: usize, is_back: bool, depth: u8) {
        if depth == 0 {
            return;
        }
        if let Some(node) = self.net.node(index) {
            if let Some(edge) = self.net.edge(node.choice) {
                self.pass(&edge, is_back);
                self.pass_all((edge.next, edge.end), is_back, depth - 1);
            }
        }
    }

    // Chooses at each of the nodes between two indices, side by side. If they have been chosen before, what they let
    // through passes already.
    #[cycle(choosing)]
    fn choose_all(&mut self, range: (usize, usize), is_again: bool, depth: u8) {
        let (first, end) = range;
        let mut index = first;
        for _ in first..end {
            if index >= end {
                break;
            }
            if is_again {
                self.pass_node(index, true, depth);
            }
            self.choose_at(index, is_again, depth);
            self.pass_node(index, false, depth);
            index = self.net.past(index);
        }
    }

    // Chooses at a node, of which nothing passes yet.
    #[cycle(choosing)]
    fn choose_at(&mut self, index: usize, is_again: bool, depth: u8) {
        let Some(node) = self.net.node(index) else {
            return;
        };
        if depth == 0 {
            return;
        }
        let mut best = node.choice;
        let mut least = u64::MAX;
        for at in node.edge..node.edge_end {
            if let Some(edge) = self.net.edge(at) {
                let range = (edge.next, edge.end);
                self.pass(&edge, false);
                if self.ledger.beaten < least {
                    if is_again {
                        self.pass_all(range, false, depth - 1);
                    }
                    self.choose_all(range, is_again, depth - 1);
                    if self.ledger.beaten < least {
                        best = at;
                        least = self.ledger.beaten;
                    }
                    self.pass_all(range, true, depth - 1);
                }
                self.pass(&edge, true);
            }
        }
        if let Some(node) = self.net.nodes.get_mut(index) {
            node.choice = best;
        }
    }
}
