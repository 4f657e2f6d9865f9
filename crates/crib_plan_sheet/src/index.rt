//! Where the sheet of a long plan begins: with the lines for what is shown first.
ghost use Rattle.std.specs.Prelude.{◌≡◌, map};
ghost use Rattle.crib_plan.specs.Places.{node_at};
ghost use Rattle.crib_plan_sheet.specs.PlanOutline as spec;

use crib_plan::{Next, Node, Plan, after_card, start};
use std::alloc::Allocator;

// A plan with more looks is long. Its sheet has more than 120 lines, as a rule.
const FEW: usize = 20;

/// Returns the second looks of a long plan, one for each letter that the first look may see. They get paragraphs of
/// their own. Of another plan there are none.
pub(crate) fn looks_to_name<A: Allocator>(plan: &Plan<A>) -> [Next; 14]
    ensures { result ≡ spec.looks_to_name plan.now }
{
    if is_long(plan) {
        second_looks(plan)
    } else {
        [Next::End; 14]
    }
}

/// Whether a plan is long: it has more than 20 looks.
pub(crate) fn is_long<A: Allocator>(plan: &Plan<A>) -> bool
    ensures { result ≡ spec.is_long plan.now }
{
    plan.nodes().iter().filter(|node| is_look(*node)).count() > FEW
}

// Whether a node is a look.
fn is_look(node: &Node) -> bool
    ensures { result ≡ spec.is_look node.now }
{
    matches!(node, Node::See { next: _ })
}

// Returns the places behind the cards in the lines of the first look.
fn second_looks<A: Allocator>(plan: &Plan<A>) -> [Next; 14]
    ensures { result ≡ spec.second_looks plan.now }
{
    behind_each(plan, &branches_at(plan, first_look(plan)))
}

// Returns the place of the first look, behind at most five cards.
fn first_look<A: Allocator>(plan: &Plan<A>) -> Next
    ensures { result ≡ spec.first_look plan.now }
{
    after_card(plan, behind_cards(plan, start(plan)))
}

// Returns where the branches of a look lead. Anything else leads to the end.
fn branches_at<A: Allocator>(plan: &Plan<A>, place: Next) -> [Next; 14]
    ensures { result ≡ spec.branches_at (node_at plan.now place) }
{
    match node_at(plan, place) {
        Some(Node::See { next }) => next,
        _ => [Next::End; 14],
    }
}

// Returns the node at a place, if there is one.
fn node_at<A: Allocator>(plan: &Plan<A>, place: Next) -> Option<Node>
    ensures { result ≡ node_at plan.now place }
{
    match place {
        Next::End => None,
        Next::To(node) => plan.nodes().get(node as usize).copied(),
    }
}

// Returns for each place the one behind at most four cards.
fn behind_each<A: Allocator>(plan: &Plan<A>, places: &[Next; 14]) -> [Next; 14]
    ensures { result ≡ map (spec.behind_cards plan.now) places.now }
{
    let mut behind = [Next::End; 14];
    for index in 0..14 {
        behind[index] = behind_cards(plan, places[index]);
    }
    behind
}

// Returns the place behind at most four cards of a row.
fn behind_cards<A: Allocator>(plan: &Plan<A>, place: Next) -> Next
    ensures { result ≡ spec.behind_cards plan.now place }
{
    let second = after_card(plan, after_card(plan, place));
    after_card(plan, after_card(plan, second))
}
