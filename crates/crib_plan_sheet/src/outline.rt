//! Which nodes of a plan have paragraphs of their own.
ghost use Rattle.std.specs.Prelude.{◌≡◌, ◌+◌, ◌*◌, ◌≤◌, length, IfOk};
ghost use Rattle.crib_plan_sheet.specs.PlanBranches.{plan_branches};
ghost use Rattle.crib_plan_sheet.specs.PlanOutline.{BeginsWithFirst, OnlyLargeAreApart, apart_in};
ghost use Rattle.crib_plan_sheet.specs.PlanSheet.{sheet_with};
ghost use Rattle.crib_plan_sheet.specs.PlanSheetSize.{longest_line, sheet_lines};
ghost use Rattle.crib_plan_sheet.specs.PlanText.{sheet_text};

use crate::index::looks_to_name;
use crate::spots::{Spot, spots_of};
use crib_plan::Plan;
use std::alloc::{AllocError, Allocator, Global};
use std::marker::Model;

/// Which nodes of a plan have paragraphs of their own on its sheet: an entry for each node.
///
/// A node has one only if rows would go on there with more than four cards, or with more than four levels of lines, or
/// if they would go on with lines and two nodes lead to it. Of a long plan the second looks have one too. Node 0 has
/// none. A node that the start doesn't lead to may have one too, though no row names it.
#[derive(Drop)]
pub struct Outline<A: Allocator = Global> {
    spots: Vec<Spot, A>,
}

impl<A: Allocator> Model for Outline<A> {
    ghost use Rattle.std.specs.Prelude.{List, Bool, map};

    ghost Value = { List Bool };

    ghost view = { λ outline. map (λ spot. spot.is_apart) outline.spots.items };
}

impl<A: Allocator + Copy> Outline<A> {
    /// Chooses the nodes that get paragraphs. Fails if an allocation fails.
    ///
    /// - `length`: there is an entry for each node.
    /// - `apart`: a node has a paragraph only if its row is too long or too deep, or has lines and is led to twice, or
    ///   if it is a second look of a long plan.
    /// - `begins`: the sheet of a long plan begins with the lines for what is shown first, and has none between them.
    /// - `narrow`: no line of the sheet has more than 78 columns.
    /// - `lines`: no line below a look is printed twice, so that there are at most as many as the plan has branches.
    /// - `size`: the text of the sheet has at most 76 bytes for each branch and for each node, and 76 more.
    pub fn of<B: Allocator>(alloc: A, plan: &Plan<B>) -> Result<Outline<A>, AllocError>
        ensures length { IfOk result (λ outline. length outline ≡ length plan.now) }
        ensures apart { IfOk result (λ outline. OnlyLargeAreApart (apart_in outline) plan.now) }
        ensures begins { IfOk result (λ outline. BeginsWithFirst (apart_in outline) plan.now) }
        ensures narrow { IfOk result (λ outline. longest_line 0 (sheet_text (sheet_with (apart_in outline) plan.now))
            ≤ 78) }
        ensures lines { IfOk result (λ outline. sheet_lines (sheet_with (apart_in outline) plan.now)
            ≤ plan_branches plan.now) }
        ensures size { IfOk result (λ outline. length (sheet_text (sheet_with (apart_in outline) plan.now))
            ≤ 76 * (plan_branches plan.now + length plan.now + 1)) }
    {
        let named = looks_to_name(plan);
        let spots = spots_of(alloc, plan.nodes(), &named)?;
        Ok(Outline { spots })
    }
}

impl<A: Allocator> Outline<A> {
    /// Whether a node has a paragraph of its own.
    pub(crate) fn is_apart(&self, node: u16) -> bool
        ensures { result ≡ apart_in self.now node }
    {
        match self.spots.get(node as usize) {
            Some(spot) => spot.is_apart,
            None => false,
        }
    }
}
