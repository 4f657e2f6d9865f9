//! Which groups of deals may beat the owner at each node of a net.

use crate::tries::ledger::Ledger;
use crate::tries::net::Net;
use std::alloc::{AllocError, Allocator};

/// What is noted of a group while guests are added.
#[derive(Clone, Copy, Default)]
struct Note {
    // The node at which it was listed last, counted from 1.
    seen: usize,
    // The index of its guest at the node that is looked at, and that of its way after the edge that is.
    host: Option<usize>,
    way: Option<usize>,
}

/// The groups that each edge lets through, and those that may beat the owner at each node or behind it.
#[derive(Drop)]
pub(crate) struct Register<A: Allocator> {
    notes: Vec<Note, A>,
    hits: Vec<usize, A>,
    // The index of the first hit of each edge, and the index past the last one.
    edges: Vec<(usize, usize), A>,
    groups: Vec<usize, A>,
    // The index of the first group of each node, and the index past the last one.
    nodes: Vec<(usize, usize), A>,
}

impl<A: Allocator + Copy> Register<A> {
    /// The register of a net. It fails if an allocation fails.
    pub(crate) fn new(alloc: A, net: &Net<A>, ledger: &Ledger<A>) -> Result<Self, AllocError> {
        let mut register = Register {
            notes: Vec::new(alloc),
            hits: Vec::new(alloc),
            edges: Vec::new(alloc),
            groups: Vec::new(alloc),
            nodes: Vec::new(alloc),
        };
        for _ in 0..ledger.len() {
            register.notes.push(Note::default())?;
        }
        for at in 0..net.edges.len() {
            register.add_edge(net, ledger, at)?;
        }
        for _ in 0..net.nodes.len() {
            register.nodes.push((0, 0))?;
        }
        for before in 0..net.nodes.len() {
            register.add_node(net, net.nodes.len() - 1 - before)?;
        }
        Ok(register)
    }

    // Lists the groups that an edge lets through.
    fn add_edge(&mut self, net: &Net<A>, ledger: &Ledger<A>, at: usize) -> Result<(), AllocError> {
        let first = self.hits.len();
        if let Some(edge) = net.edge(at) {
            for hit in edge.hit..edge.hit_end {
                if let Some(item) = net.hits.get(hit).copied() {
                    let mut next = ledger.first_group(item);
                    for _ in 0..ledger.len() {
                        let Some(group) = next else {
                            break;
                        };
                        self.hits.push(group)?;
                        next = ledger.next_group(item, group);
                    }
                }
            }
        }
        self.edges.push((first, self.hits.len()))?;
        Ok(())
    }

    // Lists the groups of a node. Those of the nodes behind it are listed already.
    fn add_node(&mut self, net: &Net<A>, index: usize) -> Result<(), AllocError> {
        let Some(node) = net.node(index) else {
            return Ok(());
        };
        let first = self.groups.len();
        for at in node.edge..node.edge_end {
            let (from, to) = self.hits(at);
            for hit in from..to {
                self.add(index, self.hit(hit))?;
            }
        }
        let mut child = index.saturating_add(1);
        for _ in index..node.end {
            if child >= node.end {
                break;
            }
            let (from, to) = self.range(child);
            for at in from..to {
                self.add(index, self.group(at))?;
            }
            child = net.past(child);
        }
        let end = self.groups.len();
        if let Some(range) = self.nodes.get_mut(index) {
            *range = (first, end);
        }
        Ok(())
    }

    // Lists a group for a node, unless it is listed.
    fn add(&mut self, index: usize, group: usize) -> Result<(), AllocError> {
        if let Some(note) = self.notes.get_mut(group) {
            let seen = index.saturating_add(1);
            if note.seen != seen {
                note.seen = seen;
                self.groups.push(group)?;
            }
        }
        Ok(())
    }

    /// The indices of the hits of an edge.
    pub(crate) fn hits(&self, at: usize) -> (usize, usize) {
        match self.edges.get(at) {
            Some(range) => *range,
            None => (0, 0),
        }
    }

    /// The group of a hit.
    pub(crate) fn hit(&self, index: usize) -> usize {
        match self.hits.get(index) {
            Some(group) => *group,
            None => 0,
        }
    }

    /// The indices of the groups of a node.
    pub(crate) fn range(&self, index: usize) -> (usize, usize) {
        match self.nodes.get(index) {
            Some(range) => *range,
            None => (0, 0),
        }
    }

    /// The group at an index.
    pub(crate) fn group(&self, index: usize) -> usize {
        match self.groups.get(index) {
            Some(group) => *group,
            None => 0,
        }
    }

    /// Seats the guests of a node, whose indices begin with this one.
    pub(crate) fn seat(&mut self, index: usize, guest: usize) {
        let (from, to) = self.range(index);
        for at in from..to {
            let group = self.group(at);
            if let Some(note) = self.notes.get_mut(group) {
                note.host = Some(guest.saturating_add(at.saturating_sub(from)));
            }
        }
    }

    /// The guest of a group that was seated last.
    pub(crate) fn host(&self, group: usize) -> Option<usize> {
        self.notes.get(group)?.host
    }

    /// Leads a group a way.
    pub(crate) fn lead(&mut self, group: usize, way: usize) {
        if let Some(note) = self.notes.get_mut(group) {
            note.way = Some(way);
        }
    }

    /// The way of a group that it was led last.
    pub(crate) fn way(&self, group: usize) -> Option<usize> {
        self.notes.get(group)?.way
    }
}
