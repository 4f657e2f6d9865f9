//! What comes next after the turns that an input spells.
ghost use Rattle.std.specs.Prelude.{◌≤◌, IfErr, length};
ghost use Rattle.crib_run.specs.Reply.{IsOutcome};
ghost use Rattle.crib_sheet.specs.Next.{next_parts_reply};
ghost use Rattle.crib_sheet.specs.Sheet.{SheetMakes};
ghost use Rattle.crib_sheet.specs.Told.{SheetTells};

use crate::answer::job::SheetJob;
use crib_input::Reason;
use crib_next::{NextQuestion, NextTurn, next_of, next_question_of};
use crib_text::MAX_INPUT;
use std::alloc::Allocator;

/// What comes next, and what was asked. Nothing is allocated to send it.
#[derive(Drop)]
pub struct NextSheet<A: Allocator> {
    pub question: NextQuestion<A>,
    pub next: NextTurn,
}

/// Returns what comes next after the turns of an input, or the reason why there is no answer: the refusal of the input
/// or of a turn, or an allocation that failed.
pub(crate) fn next_sheet<A: Allocator + Copy>(
    alloc: A,
    input: &[u8],
) -> Result<NextSheet<A>, Reason>
    requires { length input.now ≤ MAX_INPUT }
    ensures outcome { IsOutcome next_parts_reply (SheetMakes SheetJob.Next input.now) result }
    ensures told { IfErr result (SheetTells SheetJob.Next input.now) }
{
    let question = next_question_of(alloc, input)?;
    match next_of(&question) {
        Ok(next) => Ok(NextSheet { question, next }),
        Err(refusal) => Err(Reason::Refused(refusal)),
    }
}
