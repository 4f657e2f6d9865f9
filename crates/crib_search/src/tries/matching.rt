//! Regret matching: the owner and the opponent learn from each other what to play.

use crate::tries::ledger::Ledger;
use crate::tries::net::{Net, Node};
use crate::tries::register::Register;
use std::alloc::{AllocError, Allocator};

/// Shares and values are in parts of one.
pub(crate) const ONE: u64 = 16_777_216;

/// What the owner regrets is counted in so many parts of a deal.
pub(crate) const GRAIN: u64 = 64;

/// A group of deals that may beat the owner at a node or behind it.
#[derive(Clone, Copy)]
pub(crate) struct Guest {
    /// The index of the group.
    pub(crate) group: usize,
    /// The index of its way.
    pub(crate) way: usize,
    /// How much the opponent regrets that they did not go here more often.
    pub(crate) regret: u64,
    /// The share of the group that goes here, of what goes its way and of all.
    pub(crate) share: u64,
    pub(crate) flow: u64,
    /// The share of what gets here that passes.
    pub(crate) value: u64,
    /// The flow of all rounds, later ones counted more.
    pub(crate) total: u64,
}

/// A group of deals on its way to the nodes after an edge.
#[derive(Clone, Copy)]
pub(crate) struct Way {
    /// The index of the guest that goes this way. There is none before the first node.
    pub(crate) host: Option<usize>,
    /// How many deals are in the group.
    pub(crate) weight: u64,
    /// To how many nodes it may go, and how much it regrets of all of them.
    pub(crate) doors: u64,
    pub(crate) regret: u64,
    /// The share of the group that goes this way, and the share of that which passes.
    pub(crate) flow: u64,
    pub(crate) value: u64,
}

/// A group of deals that an edge lets through.
#[derive(Clone, Copy)]
pub(crate) struct Loss {
    /// The index of the guest.
    pub(crate) guest: usize,
    /// How many deals are in the group.
    pub(crate) weight: u64,
}

/// What is learned of an edge, or of the way to the first nodes.
#[derive(Clone, Copy, Default)]
pub(crate) struct Habit {
    /// The indices of what it lets through, of the ways after it, and of the guests there: the first ones, and those
    /// past the last ones.
    pub(crate) loss: usize,
    pub(crate) loss_end: usize,
    pub(crate) way: usize,
    pub(crate) way_end: usize,
    pub(crate) guest: usize,
    pub(crate) guest_end: usize,
    /// How much the owner regrets that it was not played more often, and how often it was, later rounds counted more.
    pub(crate) regret: u64,
    pub(crate) total: u64,
    /// The share that it is played with, and how many deals pass it then.
    pub(crate) share: u64,
    pub(crate) lost: u64,
}

/// What is learned of a node.
#[derive(Clone, Copy, Default)]
pub(crate) struct Lesson {
    /// The index of its first guest, and the index past the last one.
    pub(crate) guest: usize,
    pub(crate) guest_end: usize,
    /// The share with which the owner gets here.
    pub(crate) reach: u64,
    /// How many deals pass from here on, in parts of one: in the round, or at least, if the opponent plays as in all
    /// rounds. The best edge then.
    pub(crate) worth: u64,
    pub(crate) answer: usize,
    /// The index of the only edge that may be played, if there is one.
    pub(crate) fixed: Option<usize>,
}

impl Lesson {
    /// Whether an edge may be played.
    pub(crate) fn may_go_on(&self, edge: usize) -> bool {
        match self.fixed {
            Some(fixed) => fixed == edge,
            None => true,
        }
    }
}

/// The two sides, as far as they have learned.
#[derive(Drop)]
pub(crate) struct Matching<A: Allocator> {
    pub(crate) guests: Vec<Guest, A>,
    pub(crate) ways: Vec<Way, A>,
    pub(crate) losses: Vec<Loss, A>,
    /// What is learned of each edge. That of the way to the first nodes is the last one.
    pub(crate) habits: Vec<Habit, A>,
    pub(crate) lessons: Vec<Lesson, A>,
    pub(crate) round: u64,
}

impl<A: Allocator + Copy> Matching<A> {
    /// Both sides, before the first round. It fails if an allocation fails.
    pub(crate) fn new(alloc: A, net: &Net<A>, ledger: &Ledger<A>) -> Result<Self, AllocError> {
        let mut matching = Matching {
            guests: Vec::new(alloc),
            ways: Vec::new(alloc),
            losses: Vec::new(alloc),
            habits: Vec::new(alloc),
            lessons: Vec::new(alloc),
            round: 0,
        };
        for _ in 0..net.edges.len() {
            matching.habits.push(Habit::default())?;
        }
        for _ in 0..net.nodes.len() {
            matching.lessons.push(Lesson::default())?;
        }
        matching.habits.push(Habit::default())?;
        let mut register = Register::new(alloc, net, ledger)?;
        matching.welcome(
            net,
            ledger,
            &mut register,
            net.edges.len(),
            (0, net.nodes.len()),
        )?;
        for index in 0..net.nodes.len() {
            if let Some(node) = net.node(index) {
                matching.share_out(index, &node);
                register.seat(index, matching.lesson(index).guest);
                for at in node.edge..node.edge_end {
                    if let Some(edge) = net.edge(at) {
                        matching.welcome(net, ledger, &mut register, at, (edge.next, edge.end))?;
                        matching.add_losses(&register, ledger, at)?;
                    }
                }
            }
        }
        Ok(matching)
    }

    // Adds the guests of the nodes between two indices, side by side, which are those after an edge.
    fn welcome(
        &mut self,
        net: &Net<A>,
        ledger: &Ledger<A>,
        register: &mut Register<A>,
        at: usize,
        range: (usize, usize),
    ) -> Result<(), AllocError> {
        let (way, guest) = (self.ways.len(), self.guests.len());
        let mut child = range.0;
        for _ in range.0..range.1 {
            if child >= range.1 {
                break;
            }
            self.welcome_at(ledger, register, child, way)?;
            child = net.past(child);
        }
        let (way_end, guest_end) = (self.ways.len(), self.guests.len());
        if let Some(habit) = self.habits.get_mut(at) {
            *habit = Habit {
                way,
                way_end,
                guest,
                guest_end,
                ..*habit
            };
        }
        Ok(())
    }

    // Adds the guests of a node. The ways of its edge begin at an index.
    fn welcome_at(
        &mut self,
        ledger: &Ledger<A>,
        register: &mut Register<A>,
        index: usize,
        first: usize,
    ) -> Result<(), AllocError> {
        let guest = self.guests.len();
        let (from, to) = register.range(index);
        for at in from..to {
            let group = register.group(at);
            let way = match register.way(group) {
                Some(way) if way >= first => way,
                _ => {
                    let way = self.ways.len();
                    self.ways.push(Way {
                        host: register.host(group),
                        weight: ledger.weight(group),
                        doors: 0,
                        regret: 0,
                        flow: ONE,
                        value: 0,
                    })?;
                    register.lead(group, way);
                    way
                }
            };
            if let Some(way) = self.ways.get_mut(way) {
                way.doors = way.doors.saturating_add(1);
            }
            self.guests.push(Guest {
                group,
                way,
                regret: 0,
                share: ONE,
                flow: 0,
                value: 0,
                total: 0,
            })?;
        }
        let guest_end = self.guests.len();
        if let Some(lesson) = self.lessons.get_mut(index) {
            lesson.guest = guest;
            lesson.guest_end = guest_end;
        }
        Ok(())
    }

    // Adds what an edge lets through, if the guests of its node are seated.
    fn add_losses(
        &mut self,
        register: &Register<A>,
        ledger: &Ledger<A>,
        at: usize,
    ) -> Result<(), AllocError> {
        let loss = self.losses.len();
        let (from, to) = register.hits(at);
        for hit in from..to {
            let group = register.hit(hit);
            if let Some(guest) = register.host(group) {
                self.losses.push(Loss {
                    guest,
                    weight: ledger.weight(group),
                })?;
            }
        }
        let loss_end = self.losses.len();
        if let Some(habit) = self.habits.get_mut(at) {
            habit.loss = loss;
            habit.loss_end = loss_end;
        }
        Ok(())
    }

    /// How many guests there are at all nodes.
    pub(crate) fn len(&self) -> usize {
        self.guests.len()
    }

    /// What is learned of the node with an index.
    pub(crate) fn lesson(&self, index: usize) -> Lesson {
        match self.lessons.get(index) {
            Some(lesson) => *lesson,
            None => Lesson::default(),
        }
    }

    /// What is learned of the edge with an index.
    pub(crate) fn habit(&self, index: usize) -> Habit {
        match self.habits.get(index) {
            Some(habit) => *habit,
            None => Habit::default(),
        }
    }

    /// The index of the edge of a node that was played most.
    pub(crate) fn favourite(&self, node: &Node) -> usize {
        let mut best = node.edge;
        let mut most = 0;
        for at in node.edge..node.edge_end {
            let total = self.habit(at).total;
            if total > most {
                best = at;
                most = total;
            }
        }
        best
    }
}
