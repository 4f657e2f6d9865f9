//! The rounds of regret matching.

use crate::tries::matching::{GRAIN, Habit, Lesson, Matching, ONE};
use crate::tries::net::{Net, Node};
use std::alloc::Allocator;

impl<A: Allocator + Copy> Matching<A> {
    /// Plays a round. First the opponent plays as they have learned, and the owner learns from it. Then the owner plays
    /// as they have learned, and the opponent learns from that.
    pub(crate) fn play(&mut self, net: &Net<A>) {
        self.round = self.round.saturating_add(1);
        let first = net.edges.len();
        self.spread(first);
        for at in 0..net.edges.len() {
            self.spread(at);
        }
        for before in 0..net.nodes.len() {
            let index = net.nodes.len() - 1 - before;
            if let Some(node) = net.node(index) {
                self.learn(net, index, &node);
            }
        }
        self.reach(net, (0, net.nodes.len()), ONE);
        for index in 0..net.nodes.len() {
            if let Some(node) = net.node(index) {
                self.go_on(net, &node, self.lesson(index).reach);
            }
        }
        for before in 0..net.nodes.len() {
            let index = net.nodes.len() - 1 - before;
            if let Some(node) = net.node(index) {
                self.settle(&node, self.lesson(index).reach);
            }
        }
        self.collect(&self.habit(first), ONE);
    }

    // The owner gets to the nodes between two indices, side by side, with a share.
    fn reach(&mut self, net: &Net<A>, range: (usize, usize), share: u64) {
        let mut child = range.0;
        for _ in range.0..range.1 {
            if child >= range.1 {
                break;
            }
            if let Some(lesson) = self.lessons.get_mut(child) {
                lesson.reach = share;
            }
            child = net.past(child);
        }
    }

    // Lets the groups go from an edge to the nodes after it.
    fn spread(&mut self, at: usize) {
        let habit = self.habit(at);
        let weight = self.round.saturating_mul(self.round);
        for index in habit.way..habit.way_end {
            if let Some(way) = self.ways.get_mut(index) {
                way.regret = 0;
                if let Some(host) = way.host {
                    if let Some(guest) = self.guests.get(host) {
                        way.flow = guest.flow;
                    }
                }
            }
        }
        for index in habit.guest..habit.guest_end {
            if let Some(guest) = self.guests.get(index) {
                if let Some(way) = self.ways.get_mut(guest.way) {
                    way.regret = way.regret.saturating_add(guest.regret);
                }
            }
        }
        for index in habit.guest..habit.guest_end {
            if let Some(guest) = self.guests.get_mut(index) {
                if let Some(way) = self.ways.get(guest.way) {
                    guest.value = 0;
                    if way.doors > 1 {
                        guest.share = share(guest.regret, way.regret, way.doors);
                    }
                    guest.flow = part(guest.share, way.flow);
                    guest.total = guest
                        .total
                        .saturating_add(guest.flow.saturating_mul(weight));
                }
            }
        }
    }

    // The owner goes on from a node, to which they get with a share.
    fn go_on(&mut self, net: &Net<A>, node: &Node, reach: u64) {
        let weight = self.round.saturating_mul(self.round);
        for at in node.edge..node.edge_end {
            let near = part(self.habit(at).share, reach);
            if let Some(habit) = self.habits.get_mut(at) {
                habit.total = habit.total.saturating_add(near.saturating_mul(weight));
            }
            if let Some(edge) = net.edge(at) {
                self.reach(net, (edge.next, edge.end), near);
            }
        }
    }

    // Counts for the guests of a node, to which the owner gets with a share, what passes from it on. What passes from
    // the nodes behind it has been counted.
    fn settle(&mut self, node: &Node, reach: u64) {
        for at in node.edge..node.edge_end {
            let habit = self.habit(at);
            let near = part(habit.share, reach);
            if near > 0 {
                self.collect(&habit, near);
                self.pass(&habit);
            }
        }
    }

    // Adds up what passes the nodes after an edge, to which the owner gets with a share. The guests there learn.
    fn collect(&mut self, habit: &Habit, near: u64) {
        for index in habit.way..habit.way_end {
            if let Some(way) = self.ways.get_mut(index) {
                way.value = 0;
            }
        }
        for index in habit.guest..habit.guest_end {
            if let Some(guest) = self.guests.get(index) {
                if let Some(way) = self.ways.get_mut(guest.way) {
                    way.value = way.value.saturating_add(part(guest.share, guest.value));
                }
            }
        }
        for index in habit.guest..habit.guest_end {
            if let Some(guest) = self.guests.get_mut(index) {
                if let Some(way) = self.ways.get(guest.way) {
                    if way.doors > 1 {
                        guest.regret = guest
                            .regret
                            .saturating_add(part(near, guest.value))
                            .saturating_sub(part(near, way.value));
                    }
                }
            }
        }
    }

    // Adds to the values of the guests of a node what passes an edge.
    fn pass(&mut self, habit: &Habit) {
        for index in habit.way..habit.way_end {
            if let Some(way) = self.ways.get(index) {
                if let Some(host) = way.host {
                    if let Some(guest) = self.guests.get_mut(host) {
                        guest.value = guest.value.saturating_add(part(habit.share, way.value));
                    }
                }
            }
        }
        for index in habit.loss..habit.loss_end {
            if let Some(loss) = self.losses.get(index) {
                if let Some(guest) = self.guests.get_mut(loss.guest) {
                    guest.value = guest.value.saturating_add(habit.share);
                }
            }
        }
    }

    // Lets the owner learn at a node how many deals pass from it on. Those that do from the nodes behind it have been
    // counted.
    fn learn(&mut self, net: &Net<A>, index: usize, node: &Node) {
        let mut worth = 0u64;
        for at in node.edge..node.edge_end {
            let lost = self.lost(net, at) / (ONE / GRAIN);
            if let Some(habit) = self.habits.get_mut(at) {
                habit.lost = lost;
                worth = worth.saturating_add(habit.share.saturating_mul(lost));
            }
        }
        let average = worth / ONE;
        for at in node.edge..node.edge_end {
            if let Some(habit) = self.habits.get_mut(at) {
                habit.regret = habit
                    .regret
                    .saturating_add(average)
                    .saturating_sub(habit.lost);
            }
        }
        if let Some(lesson) = self.lessons.get_mut(index) {
            lesson.worth = worth / GRAIN;
        }
        self.share_out(index, node);
    }

    // How many deals pass an edge or from the nodes after it on, in parts of one.
    fn lost(&self, net: &Net<A>, at: usize) -> u64 {
        let habit = self.habit(at);
        let mut lost = self.worth_after(net, at);
        for index in habit.loss..habit.loss_end {
            if let Some(loss) = self.losses.get(index) {
                if let Some(guest) = self.guests.get(loss.guest) {
                    lost = lost.saturating_add(guest.flow.saturating_mul(loss.weight));
                }
            }
        }
        lost
    }

    /// Shares out the edges of a node. If one is fixed, it is played alone.
    pub(crate) fn share_out(&mut self, index: usize, node: &Node) {
        let fixed = self.lesson(index).fixed;
        let mut all = 0u64;
        let mut doors = 0u64;
        for at in node.edge..node.edge_end {
            all = all.saturating_add(self.habit(at).regret);
            doors = doors.saturating_add(1);
        }
        for at in node.edge..node.edge_end {
            if let Some(habit) = self.habits.get_mut(at) {
                habit.share = match fixed {
                    Some(fixed) if fixed == at => ONE,
                    Some(_) => 0,
                    None => share(habit.regret, all, doors),
                };
            }
        }
    }

    /// What all rounds weigh.
    pub(crate) fn weight(&self) -> u64 {
        let mut weight = 0u64;
        for round in 0..self.round.saturating_add(1) {
            weight = weight.saturating_add(round.saturating_mul(round));
        }
        weight
    }

    /// How many deals pass at least, whatever the owner plays, if the opponent plays as in all rounds.
    pub(crate) fn least(&mut self, net: &Net<A>) -> u64 {
        let weight = self.weight();
        for before in 0..net.nodes.len() {
            let index = net.nodes.len() - 1 - before;
            if let Some(node) = net.node(index) {
                let mut best = Lesson {
                    worth: u64::MAX,
                    answer: node.edge,
                    ..self.lesson(index)
                };
                for at in node.edge..node.edge_end {
                    let worth = self.worth(net, at, weight);
                    if worth < best.worth && best.may_go_on(at) {
                        best.worth = worth;
                        best.answer = at;
                    }
                }
                if let Some(lesson) = self.lessons.get_mut(index) {
                    *lesson = best;
                }
            }
        }
        self.worth_of(net, (0, net.nodes.len())).div_ceil(ONE)
    }

    // How many deals pass an edge or from the nodes after it on, in parts of one, with the average flow.
    fn worth(&self, net: &Net<A>, at: usize, weight: u64) -> u64 {
        let habit = self.habit(at);
        let mut worth = self.worth_after(net, at);
        for index in habit.loss..habit.loss_end {
            if let Some(loss) = self.losses.get(index) {
                if let Some(guest) = self.guests.get(loss.guest) {
                    let flow = average(guest.total, weight);
                    worth = worth.saturating_add(flow.saturating_mul(loss.weight));
                }
            }
        }
        worth
    }

    // How many deals pass from the nodes after an edge on.
    fn worth_after(&self, net: &Net<A>, at: usize) -> u64 {
        match net.edge(at) {
            Some(edge) => self.worth_of(net, (edge.next, edge.end)),
            None => 0,
        }
    }

    // How many deals pass from the nodes between two indices on, side by side.
    fn worth_of(&self, net: &Net<A>, range: (usize, usize)) -> u64 {
        let mut worth = 0u64;
        let mut child = range.0;
        for _ in range.0..range.1 {
            if child >= range.1 {
                break;
            }
            worth = worth.saturating_add(self.lesson(child).worth);
            child = net.past(child);
        }
        worth
    }
}

// A share of a number.
fn part(share: u64, of: u64) -> u64 {
    share.saturating_mul(of) / ONE
}

/// The average of rounds with a weight.
pub(crate) fn average(total: u64, weight: u64) -> u64 {
    if weight > 0 { total / weight } else { 0 }
}

// The share of what is regretted. If nothing is, the doors have equal shares.
fn share(regret: u64, all: u64, doors: u64) -> u64 {
    if all > 0 {
        return regret.saturating_mul(ONE) / all;
    }
    if doors > 0 { ONE / doors } else { 0 }
}
