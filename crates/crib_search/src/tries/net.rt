//! The places at which a choice of the owner matters, one behind another.

use crate::tries::choices::Classes;
use crate::tries::ledger::Ledger;
use crate::tries::places::{Branch, Place, Places};
use crib_cards::Rank;
use std::alloc::{AllocError, Allocator};

/// No more choices of the owner are one behind another.
pub(crate) const DEPTH: u8 = 4;

/// A place at which a choice matters.
#[derive(Clone, Copy)]
pub(crate) struct Node {
    /// The index of the place.
    pub(crate) place: usize,
    /// The index past the last node that lies behind it.
    pub(crate) end: usize,
    /// The index of its first edge. The others follow.
    pub(crate) edge: usize,
    /// The index past its last edge.
    pub(crate) edge_end: usize,
    /// The index of the chosen edge.
    pub(crate) choice: usize,
}

/// A card at such a place.
#[derive(Clone, Copy)]
pub(crate) struct Edge {
    // The number of the branch.
    branch: usize,
    /// The index of the first node after it.
    pub(crate) next: usize,
    /// The index past the last one.
    pub(crate) end: usize,
    /// The index of the first item that it lets through, before any choice after it.
    pub(crate) hit: usize,
    /// The index past the last one.
    pub(crate) hit_end: usize,
}

/// The places at which a choice matters. After a node are those behind it.
#[derive(Drop)]
pub(crate) struct Net<A: Allocator> {
    pub(crate) nodes: Vec<Node, A>,
    pub(crate) edges: Vec<Edge, A>,
    /// The items of the ledger that the edges let through.
    pub(crate) hits: Vec<usize, A>,
    // Whether places are kept where a card lets nothing more through.
    is_whole: bool,
    // The classes of each choice of ranks that pass on the way, and those that did before.
    covered: Vec<Classes, A>,
    before: Vec<(usize, Classes), A>,
}

impl<A: Allocator + Copy> Net<A> {
    /// Knits the net of the places from an index on, and enters what its edges let through. The classes of each choice
    /// that pass in any case are given. A place where some card lets nothing more through is left out, unless the net
    /// is to be whole. It fails if an allocation fails.
    pub(crate) fn knit(
        alloc: A,
        places: &mut Places<A>,
        first: usize,
        ledger: &mut Ledger<A>,
        forced: Vec<Classes, A>,
        is_whole: bool,
    ) -> Result<Self, AllocError> {
        let mut net = Net {
            nodes: Vec::new(alloc),
            edges: Vec::new(alloc),
            hits: Vec::new(alloc),
            is_whole,
            covered: forced,
            before: Vec::new(alloc),
        };
        let end = places.len();
        net.knit_all(places, ledger, (first, end), DEPTH)?;
        Ok(net)
    }

    // Adds the nodes of the places between two indices, side by side.
    #[cycle(knitting)]
    fn knit_all(
        &mut self,
        places: &mut Places<A>,
        ledger: &mut Ledger<A>,
        range: (usize, usize),
        depth: u8,
    ) -> Result<(), AllocError> {
        if depth == 0 {
            return Ok(());
        }
        let (first, end) = range;
        let mut index = first;
        for _ in first..end {
            if index >= end {
                break;
            }
            if let Some(place) = places.place(index) {
                self.knit_place(places, ledger, index, &place, depth - 1)?;
            }
            index = places.past(index);
        }
        Ok(())
    }

    // Adds the nodes from a place on.
    #[cycle(knitting)]
    fn knit_place(
        &mut self,
        places: &mut Places<A>,
        ledger: &mut Ledger<A>,
        index: usize,
        place: &Place,
        depth: u8,
    ) -> Result<(), AllocError> {
        places.choose(index, places.first_open(place));
        if places.count_open(place) < 2 {
            if let Some(branch) = places.open_branch(place, places.first_open(place)) {
                self.knit_all(places, ledger, (branch.next, branch.end), depth)?;
            }
            return Ok(());
        }
        let (node, edge, hit) = (self.nodes.len(), self.edges.len(), self.hits.len());
        self.add_node(places, index, place)?;
        for at in edge..self.edges.len() {
            self.knit_edge(places, ledger, at, place, depth)?;
        }
        if let Some(branch) = self.free_branch(node) {
            places.choose(index, branch);
            self.nodes.truncate(node);
            self.edges.truncate(edge);
            self.hits.truncate(hit);
        }
        let end = self.nodes.len();
        if let Some(node) = self.nodes.get_mut(node) {
            node.end = end;
        }
        Ok(())
    }

    // A branch of a node that lets nothing more through, if there is one and the net isn't whole.
    fn free_branch(&self, node: usize) -> Option<usize> {
        if self.is_whole {
            return None;
        }
        let node = self.node(node)?;
        for at in node.edge..node.edge_end {
            let edge = self.edge(at)?;
            if edge.hit == edge.hit_end && edge.next == edge.end {
                return Some(edge.branch);
            }
        }
        None
    }

    // Adds the node of a place, with an edge for each open branch.
    fn add_node(
        &mut self,
        places: &Places<A>,
        index: usize,
        place: &Place,
    ) -> Result<(), AllocError> {
        let edge = self.edges.len();
        for branch in 0..place.count {
            if places.open_branch(place, branch).is_some() {
                self.edges.push(Edge {
                    branch,
                    next: 0,
                    end: 0,
                    hit: 0,
                    hit_end: 0,
                })?;
            }
        }
        self.nodes.push(Node {
            place: index,
            end: 0,
            edge,
            edge_end: self.edges.len(),
            choice: edge,
        })?;
        Ok(())
    }

    // Adds what an edge lets through, and the nodes after it.
    #[cycle(knitting)]
    fn knit_edge(
        &mut self,
        places: &mut Places<A>,
        ledger: &mut Ledger<A>,
        at: usize,
        place: &Place,
        depth: u8,
    ) -> Result<(), AllocError> {
        let Some(edge) = self.edges.get(at).copied() else {
            return Ok(());
        };
        let Some(branch) = places.branch(place, edge.branch) else {
            return Ok(());
        };
        let mark = self.before.len();
        let hit = self.hits.len();
        self.cover(places, ledger, &branch)?;
        let hit_end = self.hits.len();
        let next = self.nodes.len();
        self.knit_all(places, ledger, (branch.next, branch.end), depth)?;
        self.uncover(mark);
        let end = self.nodes.len();
        if let Some(other) = self.edges.get_mut(at) {
            *other = Edge {
                next,
                end,
                hit,
                hit_end,
                ..edge
            };
        }
        Ok(())
    }

    // Adds what a branch lets through that doesn't pass on the way to it.
    fn cover(
        &mut self,
        places: &Places<A>,
        ledger: &mut Ledger<A>,
        branch: &Branch,
    ) -> Result<(), AllocError> {
        for index in branch.hit..branch.hit_end {
            if let Some(hit) = places.hit(index) {
                if let Some(covered) = self.covered.get_mut(hit.choice) {
                    let before = *covered;
                    let more = hit.classes & !before;
                    if more != 0 {
                        *covered = before | more;
                        self.before.push((hit.choice, before))?;
                        self.hits.push(ledger.enter(hit.choice, more)?)?;
                    }
                }
            }
        }
        Ok(())
    }

    // Takes back what passes since a mark.
    fn uncover(&mut self, mark: usize) {
        for _ in mark..self.before.len() {
            if let Some((choice, before)) = self.before.pop() {
                if let Some(covered) = self.covered.get_mut(choice) {
                    *covered = before;
                }
            }
        }
    }

    /// The node at an index.
    pub(crate) fn node(&self, index: usize) -> Option<Node> {
        self.nodes.get(index).copied()
    }

    /// The edge at an index.
    pub(crate) fn edge(&self, index: usize) -> Option<Edge> {
        self.edges.get(index).copied()
    }

    /// The rank of the card of an edge of a node.
    pub(crate) fn rank_of(&self, places: &Places<A>, node: &Node, at: usize) -> Option<Rank> {
        let place = places.place(node.place)?;
        Some(places.branch(&place, self.edge(at)?.branch)?.rank)
    }

    /// The index of the edge of a node whose card scores most. If no edge has that card, it is that of the chosen edge.
    pub(crate) fn richest(&self, places: &Places<A>, node: &Node) -> usize {
        if let Some(place) = places.place(node.place) {
            for at in node.edge..node.edge_end {
                if let Some(edge) = self.edge(at) {
                    if edge.branch == place.richest {
                        return at;
                    }
                }
            }
        }
        node.choice
    }

    /// The index past a node and those behind it.
    pub(crate) fn past(&self, index: usize) -> usize {
        match self.node(index) {
            Some(node) => node.end.max(index.saturating_add(1)),
            None => index.saturating_add(1),
        }
    }

    /// Chooses the chosen edges at their places.
    pub(crate) fn choose_at(&self, places: &mut Places<A>) {
        for index in 0..self.nodes.len() {
            if let Some(node) = self.node(index) {
                if let Some(edge) = self.edge(node.choice) {
                    places.choose(node.place, edge.branch);
                }
            }
        }
    }
}
