//! How often the nodes of a plan are led to.
ghost use Rattle.std.specs.Prelude.{◌≡◌, ℕ, length, IfOk};
ghost use Rattle.std.specs.List.{list_any};
ghost use Rattle.crib_plan.specs.Spelling.{leads_to};
ghost use Rattle.crib_plan_sheet.specs.PlanBranches.{node_leads};
ghost use Rattle.crib_plan_sheet.specs.Private.Ways.{AreCounted, one_more, ways_in};

use crib_plan::{Next, Node, new_node};
use std::alloc::{AllocError, Allocator};

/// Counts for each node of a plan how many nodes lead to it, up to 2. Fails if its only allocation fails.
pub(crate) fn ways_of<A: Allocator>(alloc: A, nodes: &[Node]) -> Result<Vec<u8, A>, AllocError>
    ensures length { IfOk result (λ ways. length ways.items ≡ length nodes.now) }
    ensures counted { IfOk result (λ ways. AreCounted nodes.now ways.items) }
{
    let mut ways = vec![in alloc; 0; nodes.len()]?;
    for number in 0..nodes.len() {
        lead_on(&mut ways, &nodes[number]);
    }
    Ok(ways)
}

// Counts one way more to each node that a node leads to.
fn lead_on(ways: &mut [u8], node: &Node)
    ensures length { length ways.new ≡ length ways.old }
    ensures ways { (number : ℕ) → ways_in ways.new number ≡ one_more (ways_in ways.old number)
        (node_leads number node.now) }
{
    match node {
        Node::Play { card: _, next } => lead_to_each(ways, &[*next]),
        Node::See { next } => lead_to_each(ways, next),
    }
}

// Counts one way more, up to 2, to each node among some places.
fn lead_to_each(ways: &mut [u8], places: &[Next])
    ensures length { length ways.new ≡ length ways.old }
    ensures ways { (number : ℕ) → ways_in ways.new number ≡ one_more (ways_in ways.old number)
        (list_any (leads_to number) places.now) }
{
    for index in 0..places.len() {
        if let Some(node) = new_node(&places[..index], places[index]) {
            let node = node as usize;
            if node < ways.len() {
                ways[node] = ways[node].saturating_add(1).min(2);
            }
        }
    }
}
