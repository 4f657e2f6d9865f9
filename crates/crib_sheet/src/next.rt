//! What comes next when a plan is played, as text.
ghost use Rattle.std.specs.Prelude.{◌≡◌, ◌++◌, codes};
ghost use Rattle.crib_run.specs.Prints.{Prints};
ghost use Rattle.crib_plan_sheet.specs.PlanStuck.{stuck_text};
ghost use Rattle.crib_sheet.specs.Next.{next_parts_reply, next_status};

use crate::answer::NextSheet;
use arrayvec::ArrayVec;
use crib_cards::Act;
use crib_next::{NextQuestion, NextTurn};
use crib_plan_sheet::put_stuck;
use crib_run::{Page, Status, put_card};
use std::alloc::Allocator;

/// Puts what comes next.
#[tactic(auto, unfolding(crate::specs::Next::next_text))]
pub(crate) fn put_next<A: Allocator, P: Page>(page: &mut P, sheet: &NextSheet<A>)
    ensures { Prints (next_parts_reply sheet.now).output (P.stand page.old) (P.stand page.new) }
{
    match sheet.next {
        NextTurn::Play(card) => {
            page.put(b"play");
            put_card(page, card);
            page.put(b"\n");
        }
        NextTurn::Go => page.put(b"say go\n"),
        NextTurn::Wait => page.put(b"wait\n"),
        NextTurn::Over => page.put(b"over\n"),
        NextTurn::Stuck => put_why_stuck(page, &sheet.question),
    }
}

// Puts that the owner is stuck, and why.
fn put_why_stuck<A: Allocator, P: Page>(page: &mut P, question: &NextQuestion<A>)
    ensures { Prints (codes "stuck\n" ++ stuck_text question.now.problem question.now.plan
        (question.now.problem.played ++ question.now.turns.items)) (P.stand page.old) (P.stand page.new) }
{
    let mut acts: ArrayVec<Act, 64> = ArrayVec::new();
    acts.try_extend_from_slice(question.problem.played())
        .unwrap();
    acts.try_extend_from_slice(question.turns.as_slice())
        .unwrap();
    page.put(b"stuck\n");
    put_stuck(page, &question.problem, &question.plan, acts.as_slice());
}

/// Returns `No` if the owner is stuck, otherwise `Yes`.
pub(crate) fn next_status(next: NextTurn) -> Status
    ensures { result ≡ next_status next }
{
    match next {
        NextTurn::Stuck => Status::No,
        NextTurn::Play(_) | NextTurn::Go | NextTurn::Wait | NextTurn::Over => Status::Yes,
    }
}
