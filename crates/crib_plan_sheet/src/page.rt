//! The page of a plan.
ghost use Rattle.std.specs.Prelude.{◌≡◌};
ghost use Rattle.crib_run.specs.Prints.{Prints};
ghost use Rattle.crib_plan_sheet.specs.PlanOutline.{apart_in};
ghost use Rattle.crib_plan_sheet.specs.PlanPage.{begins_long, long_text, plan_page};
ghost use Rattle.crib_plan_sheet.specs.Private.Pages.{first_text, paragraphs_text};

use crate::index::is_long;
use crate::outline::Outline;
use crate::rows::Walk;
use crib_plan::{Next, Plan, start};
use crib_run::{Page, put_number};
use std::alloc::Allocator;

// What is before the sheet of a long plan.
const LONG: &[u8] =
    b"This plan is long. Its sheet begins with the lines for what they show first.\n\n";

// How to read a sheet, up to what the end of a row means.
const LEGEND: &[u8] = b"
Play a row in order, one card at each of your turns. If none of your cards
fits, say go and stay there. At \"look\", go on in the line of what they show
next: a rank (8-T is 8, 9 or ten), or a go, even after yours: their first in a
count, with a card left. At \"see [n]\", go on in paragraph [n].
";

// What the end of a row means, if the plan is sure, and if it is not. Only then a card may be stated that can't be
// played.
const END_IF_SURE: &[u8] =
    b"At the end of a row, or if there is no line, nothing is left to decide, or
your goal is reached: then play as you like.
";

const END_OTHERWISE: &[u8] =
    b"At the end of a row, if there is no line, or if the next card isn't in your
hand or doesn't fit while another does, the plan states nothing more, nor at a
\"look\" if a card of yours fits. Then play what you think best: you may still
reach your goal.
";

/// Puts the sheet of a plan, by the nodes that have paragraphs of their own, and how to read it. Before a long sheet is
/// how it begins. What the end of a row means depends on whether the plan is sure. It needs no memory.
pub fn put_plan<A: Allocator, B: Allocator, P: Page>(
    page: &mut P,
    plan: &Plan<A>,
    outline: &Outline<B>,
    sure: bool,
)
    ensures { Prints (plan_page sure (apart_in outline.now) plan.now) (P.stand page.old) (P.stand page.new) }
{
    let walk = Walk { plan, outline };
    put_long(page, begins_long(&walk));
    put_first(page, &walk, sure);
    put_paragraphs(page, &walk);
    page.put(LEGEND);
    page.put(if sure { END_IF_SURE } else { END_OTHERWISE });
}

// Puts how the sheet of a long plan begins.
fn put_long<P: Page>(page: &mut P, long: bool)
    ensures { Prints (long_text long) (P.stand page.old) (P.stand page.new) }
{
    if long {
        page.put(LONG);
    }
}

// Whether the sheet of a long plan begins with lines.
fn begins_long<A: Allocator, B: Allocator>(walk: &Walk<'_, A, B>) -> bool
    ensures { result ≡ begins_long (apart_in walk.now.outline.now) walk.now.plan.now }
{
    is_long(walk.plan) && walk.has_lines(start(walk.plan))
}

// Puts the row at which the plan starts.
fn put_first<A: Allocator, B: Allocator, P: Page>(page: &mut P, walk: &Walk<'_, A, B>, sure: bool)
    ensures { Prints (first_text sure walk.now.outline.now walk.now.plan.now) (P.stand page.old) (P.stand page.new) }
{
    if walk.plan.nodes().len() != 0 {
        walk.put_row(page, 0, Next::To(0));
    } else if sure {
        page.put(b"No card is needed.\n");
    } else {
        page.put(b"The plan states no card.\n");
    }
}

// Puts the paragraphs of the nodes that have one, each after an empty line and its number.
fn put_paragraphs<A: Allocator, B: Allocator, P: Page>(page: &mut P, walk: &Walk<'_, A, B>)
    ensures { Prints (paragraphs_text walk.now.outline.now walk.now.plan.now 0) (P.stand page.old)
        (P.stand page.new) }
{
    for number in 0..walk.plan.nodes().len() {
        let node = number as u16;
        if walk.outline.is_apart(node) {
            page.put(b"\n[");
            put_number(page, node as u32);
            page.put(b"] ");
            walk.put_node(page, 0, node);
        }
    }
}
