//! Does a job: reads the input, sends the answer or the line of the reason why there is none, and explains the reason.
ghost use Rattle.std.specs.Prelude.{◌≡◌, ◌⊎◌, ◌≤◌, ℕ, List, None, IfErr, IfSome, [], length};
ghost use Rattle.std.specs.Io.KnownBytes.{Appends};
ghost use Rattle.crib_text.specs.Device.{HasFailed};
ghost use Rattle.crib_text.specs.Transfer.{IsReadingFault};
ghost use Rattle.crib_input.specs.declared.reason.Reason.{Reason};
ghost use Rattle.crib_input.specs.Refusals.{FitsFault};
ghost use Rattle.crib_input.specs.declared.sections.Sections.{Sections};
ghost use Rattle.crib_run.specs.Beside.{Explains, TellsRead, Writes, input_of};
ghost use Rattle.crib_run.specs.Reply.{IsOutcome, Reply, reason_reply};
ghost use Rattle.crib_run.specs.Run.{Delivers, HaveMeaning, RunMeans, Sends, unread_reply};

use crate::making::reason_answer;
use crate::sending::Sendable;
use crate::status::Status;
use crib_input::{FaultCause, Reason, Refusal, Sections};
use crib_text::{MAX_INPUT, Sink, Source, TextCause, TextFault, read_all};
use std::alloc::{Allocator, Global};

/// A job of a program: its answer to an input, or the reason why there is none.
pub trait Asks<A: Allocator>: Copy {
    // The replies that a job makes for an input, and what a reply guarantees about the input.
    ghost makes: { Self → List ℕ → Reply → Type 0 };

    ghost means: { Self → List ℕ → Reply → Type 0 };

    // The reasons that may be given for an input.
    ghost tells: { Self → List ℕ → Reason → Type 0 };

    // The sections that the input of a job has to have.
    ghost reads: { Self → Sections };

    /// What is sent as an answer.
    type Made: Sendable + Drop;

    /// Returns the sections that the input of the job has to have.
    fn sections(self) -> Sections
        ensures { result ≡ reads self };

    /// Returns the answer to an input, or the reason why there is none.
    fn answer(self, alloc: A, input: &[u8]) -> Result<Self::Made, Reason>
        requires { length input.now ≤ MAX_INPUT }
        ensures outcome { IsOutcome Self.Made.reply (makes self input.now) result }
        ensures told { IfErr result (tells self input.now) };
}

/// What explains why there is no answer.
pub trait Explain {
    // The texts that explain a reason, beside the reply to an input with these sections.
    ghost says: { Sections → List ℕ → Reason → List ℕ → Type 0 };

    /// Writes a text that explains a reason. The input is empty if it was not read. If the device fails, a proper
    /// beginning of the text is written.
    fn explain<E: Sink>(sections: Sections, input: &[u8], reason: &Reason, words: &mut E)
        requires { length input.now ≤ MAX_INPUT }
        ensures { Writes (says sections input.now reason.now) (E.contents words.old) (E.contents words.new)
            (HasFailed (E.faults words.old) (E.faults words.new)) };
}

/// Does a job: reads the input to its end, sends the answer or the line of the reason why there is none, and returns
/// the status. After that it explains the reason on a third device, or that the reply could not be written.
///
/// - `answers`: what is written is a reply that the job makes for what was read. It is the whole reply, or a proper
///   beginning of it if the writer failed. If the bytes of the reader are known, these are what was read.
/// - `means`: what the output and the status mean for the input.
/// - `words`: a refusal or a fault is explained on the third device, by a whole text unless that device fails. The
///   reason that is explained is one that the job gives for what was read.
/// - `silent`: nothing is written there if the status is `Yes` or `No`.
pub fn run_with_words<A: Allocator + Copy, J: Asks<A>, X: Explain, S: Source, W: Sink, E: Sink>(
    alloc: A,
    job: J,
    source: &mut S,
    sink: &mut W,
    words: &mut E,
) -> Status
    requires { HaveMeaning (J.makes job) (J.means job) }
    ensures answers { Delivers (J.makes job) (S.remaining source.old)
        (HasFailed (S.faults source.old) (S.faults source.new)) (W.contents sink.old) (W.contents sink.new)
        (HasFailed (W.faults sink.old) (W.faults sink.new)) result }
    ensures means { (input : List ℕ) × IfSome (S.remaining source.old) (λ bytes. input ≡ bytes)
        × RunMeans (J.means job) input (W.contents sink.old) (W.contents sink.new)
        (HasFailed (S.faults source.old) (S.faults source.new) ⊎ HasFailed (W.faults sink.old) (W.faults sink.new))
        result }
    ensures words { (run : Delivers (J.makes job) (S.remaining source.old)
        (HasFailed (S.faults source.old) (S.faults source.new)) (W.contents sink.old) (W.contents sink.new)
        (HasFailed (W.faults sink.old) (W.faults sink.new)) result)
        × Explains (TellsRead (J.tells job) run.read) (X.says (J.reads job) (input_of run.read)) run.reply result
        (E.contents words.old) (E.contents words.new) (HasFailed (E.faults words.old) (E.faults words.new)) }
    ensures silent { (result ≡ Status.Yes) ⊎ (result ≡ Status.No)
        → Appends (E.contents words.old) (E.contents words.new) [] }
{
    match read_all(alloc, source) {
        Ok(input) => answer::<A, J, X, W, E>(alloc, job, input.as_slice(), sink, words),
        Err(fault) => {
            let reason = unread_reason(fault);
            deliver_reason::<X, W, E>(job.sections(), b"", reason, sink, words)
        }
    }
}

// Answers an input that was read, and explains why there is no answer, or that it could not be written.
fn answer<A: Allocator + Copy, J: Asks<A>, X: Explain, W: Sink, E: Sink>(
    alloc: A,
    job: J,
    input: &[u8],
    sink: &mut W,
    words: &mut E,
) -> Status
    requires { length input.now ≤ MAX_INPUT }
    ensures { (reply : Reply) × J.makes job input.now reply
        × Sends reply (W.contents sink.old) (W.contents sink.new)
        (HasFailed (W.faults sink.old) (W.faults sink.new)) result
        × Explains (J.tells job input.now) (X.says (J.reads job) input.now) reply result (E.contents words.old)
        (E.contents words.new) (HasFailed (E.faults words.old) (E.faults words.new)) }
{
    match job.answer(alloc, input) {
        Ok(made) => {
            let status = made.send(sink);
            if status == Status::Fault {
                let reason = Reason::Fault(FaultCause::WriteFailed);
                X::explain(job.sections(), input, &reason, words);
            }
            status
        }
        Err(reason) => deliver_reason::<X, W, E>(job.sections(), input, reason, sink, words),
    }
}

// Returns the reason why no whole input was read.
fn unread_reason(fault: TextFault) -> Reason
    requires { IsReadingFault fault }
    ensures reply { reason_reply result ≡ unread_reply fault.cause }
    ensures told { FitsFault None result }
{
    match fault.cause {
        TextCause::ReadFault => Reason::Fault(FaultCause::ReadFailed),
        TextCause::NoMemory => Reason::Fault(FaultCause::NoMemory),
        _ => Reason::Refused(Refusal::from(TextFault::of_input(TextCause::TooLong))),
    }
}

/// Sends the line of a reason, and then explains it, or that the line could not be written. Returns the status of the
/// run. It needs no memory.
///
/// - `sent`: `sink` has the whole line, or a proper beginning of it if this device failed.
/// - `words`: this reason and no other is explained on `words`, by a whole text unless this device failed.
pub fn deliver_reason<X: Explain, W: Sink, E: Sink>(
    sections: Sections,
    input: &[u8],
    reason: Reason,
    sink: &mut W,
    words: &mut E,
) -> Status
    requires { length input.now ≤ MAX_INPUT }
    ensures sent { Sends (reason_reply reason) (W.contents sink.old) (W.contents sink.new)
        (HasFailed (W.faults sink.old) (W.faults sink.new)) result }
    ensures words { Explains (λ told. told ≡ reason) (X.says sections input.now) (reason_reply reason) result
        (E.contents words.old) (E.contents words.new) (HasFailed (E.faults words.old) (E.faults words.new)) }
{
    let line = reason_answer::<Global>(reason);
    let status = line.send(sink);
    if status == line.status() {
        X::explain(sections, input, &reason, words);
    } else {
        X::explain(
            sections,
            input,
            &Reason::Fault(FaultCause::WriteFailed),
            words,
        );
    }
    status
}
