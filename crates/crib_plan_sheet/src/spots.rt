//! What is known of the nodes of a plan while paragraphs are chosen.
ghost use Rattle.std.specs.Prelude.{◌≡◌, ◌≤◌, true, false, length, IfOk};
ghost use Rattle.crib_plan.specs.Nodes.{ArePlan};
ghost use Rattle.crib_plan_sheet.specs.Private.Spots.{AreLow, AreSized, IsBroken, IsWhole, cards_at, is_first_apart};
ghost use Rattle.crib_plan_sheet.specs.Private.Spots.{levels_at, node_cards, node_levels};
ghost use Rattle.crib_plan_sheet.specs.Private.Spots as spec;
ghost use Rattle.crib_plan_sheet.specs.Private.Ways as spec_ways;

use crate::ways::ways_of;
use crib_plan::{Next, Node, new_node};
use std::alloc::{AllocError, Allocator};

// The most levels of lines, and the most cards, with which a row goes on at a node that has no paragraph.
const DEEPEST: u8 = 4;

const LONGEST: u8 = 4;

/// What is known of a node.
#[derive(Clone, Copy)]
pub(crate) struct Spot {
    // Whether the node has a paragraph of its own.
    pub(crate) is_apart: bool,
    // The levels of lines, and the cards, with which a row that leads to it goes on.
    levels: u8,
    cards: u8,
}

// What is known at first. It is also what is known of the end.
const UNKNOWN: Spot = Spot {
    is_apart: false,
    levels: 0,
    cards: 0,
};

/// Returns what is known of each node of a plan, if the nodes at these places get paragraphs of their own. Fails if an
/// allocation fails.
pub(crate) fn spots_of<A: Allocator + Copy>(
    alloc: A,
    nodes: &[Node],
    named: &[Next; 14],
) -> Result<Vec<Spot, A>, AllocError>
    requires { ArePlan nodes.now }
    ensures length { IfOk result (λ spots. length spots.items ≡ length nodes.now) }
    ensures low { IfOk result (λ spots. AreLow spots.items) }
    ensures sized { IfOk result (λ spots. AreSized named.now 1 nodes.now spots.items) }
    ensures first { IfOk result (λ spots. is_first_apart spots.items ≡ false) }
{
    let ways = ways_of(alloc, nodes)?;
    let mut spots = vec![in alloc; UNKNOWN; nodes.len()]?;
    // A node leads only to later ones, so the last is looked at first.
    let mut number = nodes.len();
    while number > 1 {
        number -= 1;
        let ways = ways_or_named(named, number as u16, ways[number]);
        let spot = spot_of(spots.as_slice(), ways, &nodes[number]);
        spots[number] = spot;
    }
    Ok(spots)
}

// Returns the number of ways that lead to a node, but 2 for each node among these places.
fn ways_or_named(named: &[Next; 14], node: u16, ways: u8) -> u8
    ensures { result ≡ spec_ways.ways_or_named named.now node ways }
{
    match new_node(named, Next::To(node)) {
        None => 2,
        Some(_) => ways,
    }
}

// What is known of a node to which so many ways lead, from the nodes after it.
fn spot_of(spots: &[Spot], ways: u8, node: &Node) -> Spot
    requires { AreLow spots.now }
    ensures low { (result.levels ≤ 4) × (result.cards ≤ 4) }
    ensures whole { result.is_apart ≡ false → IsWhole spots.now result.levels result.cards ways node.now }
    ensures broken { result.is_apart ≡ true → IsBroken spots.now result.levels result.cards ways node.now }
{
    let spot = inline_spot(spots, node);
    if spot.levels > DEEPEST || spot.cards > LONGEST || (spot.levels > 0 && ways > 1) {
        return Spot {
            is_apart: true,
            ..UNKNOWN
        };
    }
    spot
}

// What is known of a node if it has no paragraph.
fn inline_spot(spots: &[Spot], node: &Node) -> Spot
    requires { AreLow spots.now }
    ensures inline { result.is_apart ≡ false }
    ensures levels { result.levels ≡ node_levels spots.now node.now }
    ensures cards { result.cards ≡ node_cards spots.now node.now }
{
    match node {
        Node::Play { card: _, next } => Spot {
            is_apart: false,
            levels: spot_at(spots, *next).levels,
            cards: spot_at(spots, *next).cards + 1,
        },
        Node::See { next } => Spot {
            levels: most_levels(spots, next) + 1,
            ..UNKNOWN
        },
    }
}

// The most levels of lines with which a row goes on at some places.
fn most_levels(spots: &[Spot], places: &[Next]) -> u8
    requires { AreLow spots.now }
    ensures few { result ≤ 4 }
    ensures most { result ≡ spec.most_levels spots.now places.now }
{
    match places {
        [] => 0,
        [first, others @ ..] => spot_at(spots, *first)
            .levels
            .max(most_levels(spots, others)),
    }
}

// What is known of a place.
fn spot_at(spots: &[Spot], place: Next) -> Spot
    ensures levels { result.levels ≡ levels_at spots.now place }
    ensures cards { result.cards ≡ cards_at spots.now place }
{
    match place {
        Next::End => UNKNOWN,
        Next::To(node) => match spots.get(node as usize) {
            Some(spot) => *spot,
            None => UNKNOWN,
        },
    }
}
