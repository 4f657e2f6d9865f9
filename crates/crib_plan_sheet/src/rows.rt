//! The rows of a plan's sheet, each written as the walk over the plan reaches it.
ghost use Rattle.std.specs.Prelude.{◌≡◌, ◌≤◌, ◌<◌, ◌+◌, nat_lt, length};
ghost use Rattle.crib_plan.specs.Nodes.{IsNode};
ghost use Rattle.crib_plan.specs.declared.plan.Next.TheVariants as nexts;
ghost use Rattle.crib_plan.specs.declared.plan.Node.TheVariants as node_kinds;
ghost use Rattle.crib_run.specs.Prints.{Prints};
ghost use Rattle.crib_plan_sheet.specs.PlanSheetSize.{level_count};
ghost use Rattle.crib_plan_sheet.specs.PlanText as spec;
ghost use Rattle.crib_plan_sheet.specs.PlanText.{row_text, lines_text};
ghost use Rattle.crib_plan_sheet.specs.Private.Pages.{IsDeep, line_front, lines_at, node_row, place_row, width_at};

use crate::labels::{WIDEST, label_of, width_of};
use crate::outline::Outline;
use crib_cards::card_text;
use crib_plan::{Next, Node, Plan, letters_to, new_node};
use crib_run::{Page, put_number};
use std::alloc::Allocator;

/// A plan, and which of its nodes have paragraphs of their own.
#[derive(Drop)]
pub(crate) struct Walk<'a, A: Allocator, B: Allocator> {
    pub(crate) plan: &'a Plan<A>,
    pub(crate) outline: &'a Outline<B>,
}

impl<A: Allocator, B: Allocator> Walk<'_, A, B> {
    /// Puts the row of a place, and the lines below it.
    #[cycle(row)]
    pub(crate) fn put_row<P: Page>(&self, page: &mut P, level: u16, place: Next)
        requires { IsDeep level (length self.now.plan.now) place }
        ensures { Prints (row_text level (place_row self.now.outline.now self.now.plan.now place))
            (P.stand page.old) (P.stand page.new) }
    {
        match place {
            Next::End => page.put(b"\n"),
            Next::To(node) => {
                if self.outline.is_apart(node) {
                    page.put(b"see [");
                    put_number(page, node as u32);
                    page.put(b"]\n");
                } else {
                    self.put_node(page, level, node);
                }
            }
        }
    }

    /// Puts the row of a node, and the lines below it.
    #[cycle(row)]
    pub(crate) fn put_node<P: Page>(&self, page: &mut P, level: u16, node: u16)
        requires { IsDeep level (length self.now.plan.now) (nexts.To node) }
        ensures { Prints (row_text level (node_row self.now.outline.now self.now.plan.now node))
            (P.stand page.old) (P.stand page.new) }
    {
        match &self.plan.nodes()[node as usize] {
            Node::Play { card, next } => {
                page.put(&card_text(*card));
                page.put(self.before_rest(*next));
                self.put_row(page, level, *next);
            }
            Node::See { next } => {
                page.put(b"look:\n");
                self.put_lines(page, level + 1, node, next);
            }
        }
    }

    /// Whether the row of a place has lines below it.
    pub(crate) fn has_lines(&self, place: Next) -> bool
        requires { IsDeep 0 (length self.now.plan.now) place }
        ensures { result ≡ nat_lt 0 (level_count (place_row self.now.outline.now self.now.plan.now place)) }
    {
        match place {
            Next::End => false,
            Next::To(node) => {
                if self.outline.is_apart(node) {
                    return false;
                }
                match &self.plan.nodes()[node as usize] {
                    Node::Play { card: _, next } => self.has_lines(*next),
                    Node::See { next: _ } => true,
                }
            }
        }
    }

    // Returns what is between a card and the rest of its row.
    fn before_rest(&self, place: Next) -> &'static [u8]
        requires { IsDeep 0 (length self.now.plan.now) place }
        ensures text { result.now ≡ spec.before_rest (place_row self.now.outline.now self.now.plan.now place) }
        ensures short { length result.now ≤ 7 }
    {
        match place {
            Next::End => b"",
            Next::To(node) => {
                if self.outline.is_apart(node) {
                    return b", then ";
                }
                match &self.plan.nodes()[node as usize] {
                    Node::Play { card: _, next: _ } => b" ",
                    Node::See { next: _ } => b", then ",
                }
            }
        }
    }

    // Puts the lines of a look, which is a node with these branches.
    #[cycle(row)]
    fn put_lines<P: Page>(&self, page: &mut P, level: u16, look: u16, branches: &[Next; 14])
        requires deep { (level ≤ look + 1) × (look < length self.now.plan.now) }
        requires later { IsNode look (length self.now.plan.now) (node_kinds.See branches.now) }
        ensures { Prints (lines_text level (width_at branches.now 0) (lines_at self.now.outline.now self.now.plan.now
            branches.now 0)) (P.stand page.old) (P.stand page.new) }
    {
        let width = width_of(branches);
        for index in 0..14 {
            if let Some(node) = new_node(&branches[..index], branches[index]) {
                put_front(page, level, width, &letters_to(node, branches));
                self.put_row(page, level, Next::To(node));
            }
        }
    }
}

// Puts what is before the row of a line: the blanks of its level, its label in columns of this width, and a colon.
fn put_front<P: Page>(page: &mut P, level: u16, width: usize, set: &[bool; 14])
    requires { width ≤ WIDEST }
    ensures { Prints (line_front level width set.now) (P.stand page.old) (P.stand page.new) }
{
    for _step in 0..level {
        page.put(b"    ");
    }
    let label = label_of(set);
    page.put(label.as_slice());
    page.put(&[b' '; WIDEST][..width.saturating_sub(label.len())]);
    page.put(b" : ");
}
