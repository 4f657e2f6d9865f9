//! Makes answers: a line, a section, or the line of the reason why there is no answer.
ghost use Rattle.std.specs.Prelude.{◌≡◌, ◌≤◌, length};
ghost use Rattle.crib_input.specs.Refusals.{fault_number, refusal_of};
ghost use Rattle.crib_run.specs.Reply.{fault_reply, reason_reply, refusal_reply, reply_of};

use crate::answer::Answer;
use crate::status::Status;
use crate::text::{ShortText, Text, add, add_number};
use crib_input::{FaultCause, Reason, Refusal};
use crib_text::MAX_INPUT;
use std::alloc::Allocator;

/// Returns the answer with this line as its text, at most 282 bytes, and this status.
#[tactic(auto, unfolding(crate::specs::Reply::reply_of, crate::specs::Text::text_bytes))]
pub fn line_answer<A: Allocator>(line: &[u8], status: Status) -> Answer<A>
    requires { length line.now ≤ 282 }
    ensures { reply_of result ≡ record { output = line.now; status = status } }
{
    let mut text = ShortText::new();
    add(&mut text, line);
    Answer {
        text: Text::Short(text),
        status,
    }
}

/// Returns the answer with this section as its text, at most 8,388,608 bytes. The status is `Yes`.
#[tactic(auto, unfolding(crate::specs::Reply::reply_of, crate::specs::Text::text_bytes))]
pub fn section_answer<A: Allocator>(section: Vec<u8, A>) -> Answer<A>
    requires { length section.items ≤ MAX_INPUT }
    ensures { reply_of result ≡ record { output = section.items; status = Status.Yes } }
{
    Answer {
        text: Text::Section(section),
        status: Status::Yes,
    }
}

/// Returns the answer with a reason: `refused line L: N` with the status `Refused`, or `fault N` with the status
/// `Fault` (docs/FORMATS.md, "Refusals", "Faults"). It allocates no memory.
pub fn reason_answer<A: Allocator>(reason: Reason) -> Answer<A>
    ensures { reply_of result ≡ reason_reply reason }
{
    match reason {
        Reason::Refused(refusal) => refusal_answer(refusal),
        Reason::Fault(cause) => fault_answer(cause),
    }
}

fn refusal_answer<A: Allocator>(refusal: Refusal) -> Answer<A>
    ensures { reply_of result ≡ refusal_reply (refusal_of refusal) }
{
    let mut text = ShortText::new();
    add(&mut text, b"refused line ");
    add_number(&mut text, refusal.line);
    add(&mut text, b": ");
    add_number(&mut text, u32::from(refusal.cause.number()));
    add(&mut text, b"\n");
    Answer {
        text: Text::Short(text),
        status: Status::Refused,
    }
}

fn fault_answer<A: Allocator>(cause: FaultCause) -> Answer<A>
    ensures { reply_of result ≡ fault_reply (fault_number cause) }
{
    let mut text = ShortText::new();
    add(&mut text, b"fault ");
    add_number(&mut text, u32::from(cause.number()));
    add(&mut text, b"\n");
    Answer {
        text: Text::Short(text),
        status: Status::Fault,
    }
}
