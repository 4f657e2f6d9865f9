//! The numbers of a plan's nodes, from a walk over the nodes of a plan in the making.
ghost use Rattle.std.specs.Prelude.{◌≡◌, ◌<◌, ◌≤◌, [], ◌∷◌, length, map, slice_get, Some, is_some, IfOk};
ghost use Rattle.std.specs.List.{AllByRecursion};
ghost use Rattle.crib_search.specs.Private.Nodes.{AreKept, IsBelow, IsEarlier};
ghost use Rattle.crib_search.specs.Private.Numbers.{AreMarks, IsWalk, IsWalkBelow, mark_of};
ghost use Rattle.crib_search.specs.Private.Numbers.{next_for, node_for, nodes_of_indices};

use crate::nodes::{DraftNode, DraftPlace, Nodes};
use crib_plan::{Next, Node};
use std::alloc::{AllocError, Allocator};
use std::marker::Model;

/// A walk over kept nodes. It leaves each node of a plan once, after all nodes that the node leads to. The node that it
/// left last has number 0.
#[derive(Drop)]
pub(crate) struct Numbering<'a, A: Allocator> {
    nodes: &'a Nodes<A>,
    // The indices of the nodes that the walk left, the first one first.
    order: Vec<usize, A>,
    // For each node how many were left before it.
    marks: Vec<Option<usize>, A>,
}

impl<'a, A: Allocator> Model for Numbering<'a, A> {
    ghost use Rattle.std.specs.Prelude.{◌≡◌, ◌<◌, length, reverse};
    ghost use Rattle.std.specs.List.{AllByRecursion};
    ghost use Rattle.crib_search.specs.Private.Nodes.{AreKept};
    ghost use Rattle.crib_search.specs.Private.Numbers.{AreMarks, Walked};

    ghost Value = { Walked };

    ghost view = { λ n. record { draft_nodes = n.nodes.now; left = reverse n.order.items } };

    // The marks are those of the nodes that were left, each of which is kept.
    ghost invariant = { λ n. AreKept n.nodes.now
        × AllByRecursion (λ index. index < length n.nodes.now) (reverse n.order.items)
        × AreMarks n.marks.items (reverse n.order.items) × (length n.marks.items ≡ length n.nodes.now) };
}

impl<'a, A: Allocator + Copy> Numbering<'a, A> {
    /// The walk from a place, over all nodes that the plan goes on to. It fails if an allocation fails.
    pub(crate) fn new(
        alloc: A,
        nodes: &'a Nodes<A>,
        first: DraftPlace,
    ) -> Result<Numbering<'a, A>, AllocError>
        requires { IsEarlier (length nodes.now) first }
        ensures kept { AreKept nodes.now }
        ensures same { IfOk result (λ walked. walked.draft_nodes ≡ nodes.now) }
        ensures walk { IfOk result (λ walked. IsWalk nodes.now first [] walked.left) }
    {
        let mut numbering = Numbering {
            nodes,
            order: Vec::new(alloc),
            marks: vec![in alloc; None; nodes.len()]?,
        };
        numbering.number_from(first)?;
        Ok(numbering)
    }

    /// How many nodes the plan has.
    pub(crate) fn len(&self) -> usize
        ensures { result ≡ length self.now.left }
    {
        self.order.len()
    }

    /// The nodes of the plan by their numbers. It fails if an allocation fails.
    pub(crate) fn plan_nodes(&self, alloc: A) -> Result<Vec<Node, A>, AllocError>
        requires { length self.now.left ≤ 65535 }
        ensures { IfOk result
            (λ plan. plan.items ≡ nodes_of_indices self.now.draft_nodes self.now.left self.now.left) }
    {
        let mut plan = Vec::with_capacity(alloc, self.len())?;
        for number in 0..self.len() {
            let index = self.index_numbered(number);
            plan.push(self.numbered(self.nodes.draft_node(index)))?;
        }
        Ok(plan)
    }

    // Walks on from a place.
    #[cycle(number_from)]
    fn number_from(&mut self, draft_place: DraftPlace) -> Result<(), AllocError>
        requires { IsEarlier (length self.old.draft_nodes) draft_place }
        ensures same { self.new.draft_nodes ≡ self.old.draft_nodes }
        ensures walk { IfOk result (λ _. IsWalk self.old.draft_nodes draft_place self.old.left self.new.left) }
    {
        let DraftPlace::At(index) = draft_place else {
            return Ok(());
        };
        if self.is_left(index) {
            return Ok(());
        }
        self.number_below(index)?;
        self.leave(index)?;
        Ok(())
    }

    // Walks on from all places that a node leads to.
    #[cycle(number_from)]
    fn number_below(&mut self, index: usize) -> Result<(), AllocError>
        requires { index < length self.old.draft_nodes }
        ensures same { self.new.draft_nodes ≡ self.old.draft_nodes }
        ensures walk { IfOk result (λ _. IsWalkBelow self.old.draft_nodes index self.old.left self.new.left) }
    {
        match self.nodes.draft_node(index) {
            DraftNode::Play { card: _, next } => self.number_from(next)?,
            DraftNode::See { next } => {
                for draft_place in next {
                    self.number_from(draft_place)?;
                }
            }
        }
        Ok(())
    }

    // Leaves a node: adds its index and marks it.
    fn leave(&mut self, index: usize) -> Result<(), AllocError>
        requires { index < length self.old.draft_nodes }
        ensures same { self.new.draft_nodes ≡ self.old.draft_nodes }
        ensures left { IfOk result (λ _. self.new.left ≡ index ∷ self.old.left) }
    {
        let before = self.order.len();
        self.order.push(index)?;
        self.marks[index] = Some(before);
        Ok(())
    }

    // Whether the walk left a node.
    fn is_left(&self, index: usize) -> bool
        requires { index < length self.now.draft_nodes }
        ensures marked { result ≡ is_some (mark_of index self.now.left) }
        ensures kept { AreKept self.now.draft_nodes }
    {
        self.marks[index].is_some()
    }

    // The index of the node with a number.
    fn index_numbered(&self, number: usize) -> usize
        requires { number < length self.now.left }
        ensures index { slice_get self.now.left number ≡ Some result }
        ensures kept { result < length self.now.draft_nodes }
    {
        self.order[self.order.len() - 1 - number]
    }

    // The node of the plan for a kept node.
    fn numbered(&self, draft_node: DraftNode) -> Node
        requires few { length self.now.left ≤ 65535 }
        requires below { IsBelow (length self.now.draft_nodes) draft_node }
        ensures { result ≡ node_for self.now.left draft_node }
    {
        match draft_node {
            DraftNode::Play { card, next } => Node::Play {
                card,
                next: self.next_of(next),
            },
            DraftNode::See { next } => Node::See {
                next: self.nexts_of(&next),
            },
        }
    }

    // Where the plan goes on for each letter.
    fn nexts_of(&self, draft_places: &[DraftPlace; 14]) -> [Next; 14]
        requires few { length self.now.left ≤ 65535 }
        requires earlier { AllByRecursion (IsEarlier (length self.now.draft_nodes)) draft_places.now }
        requires all { length draft_places.now ≡ 14 }
        ensures { result ≡ map (next_for self.now.left) draft_places.now }
    {
        let mut nexts = [Next::End; 14];
        for index in 0..14 {
            nexts[index] = self.next_of(draft_places[index]);
        }
        nexts
    }

    // Where the plan goes on for a place.
    fn next_of(&self, draft_place: DraftPlace) -> Next
        requires few { length self.now.left ≤ 65535 }
        requires earlier { IsEarlier (length self.now.draft_nodes) draft_place }
        ensures { result ≡ next_for self.now.left draft_place }
    {
        let DraftPlace::At(index) = draft_place else {
            return Next::End;
        };
        match self.marks[index] {
            Some(mark) => Next::To(self.order.len().saturating_sub(1).saturating_sub(mark) as u16),
            None => Next::End,
        }
    }
}
