//! `cribsheet plan|game|beaten|try|refute|why|leads|next|scores|holes` reads standard input to its end, and writes a
//! sheet to standard output.
#![tactic(auto)]

ghost use Rattle.std.specs.Prelude.{◌≡◌, ◌⊎◌, ℕ, List, IfSome, []};
ghost use Rattle.std.specs.Io.KnownBytes.{Appends};
ghost use Rattle.crib_text.specs.Device.{HasFailed};
ghost use Rattle.crib_run.specs.Beside.{Explains, TellsRead, input_of};
ghost use Rattle.crib_run.specs.Run.{Delivers, RunMeans};
ghost use Rattle.crib_sheet.specs.Job.{sections_of};
ghost use Rattle.crib_sheet.specs.Meaning.{SheetMeans};
ghost use Rattle.crib_sheet.specs.Sheet.{SheetMakes};
ghost use Rattle.crib_sheet.specs.Told.{SheetTells};
ghost use Rattle.cribsheet.specs.Beside.{IsSaid};

mod beside;
mod command;

use beside::Messages;
use clap::Error;
use clap::error::ErrorKind;
use command::program;
use crib_command::{command_of, command_without_words, show, words_of_args};
use crib_input::{FaultCause, Reason, Sections};
pub use crib_run::Status;
use crib_run::deliver_reason;
pub use crib_sheet::SheetJob;
use crib_text::{Counted, Sink, Source};
use std::alloc::Allocator;
use std::process::ExitCode;
use std::rt::Env;

fn main(rt: HostRuntime) -> ExitCode {
    let mut sink = Counted::new(rt.stdout());
    let mut words = Counted::new(rt.stderr());
    let status = match job_of_args(&rt) {
        Ok(job) => {
            let mut source = Counted::new(rt.stdin());
            run_with_words(rt.alloc(), job, &mut source, &mut sink, &mut words)
        }
        Err(error) if error.kind() == ErrorKind::OutOfMemory => {
            let reason = Reason::Fault(FaultCause::NoMemory);
            deliver_reason::<Messages, _, _>(Sections::Problem, b"", reason, &mut sink, &mut words)
        }
        Err(error) => show(&rt, &program(), &error),
    };
    ExitCode::from(status.code())
}

// Returns the job that the words of the command line name. It has no contract, as `words_of_args` has none.
fn job_of_args(rt: &(impl Env + AllocGlobal)) -> Result<SheetJob, Error> {
    match words_of_args(rt) {
        Ok(words) => command_of(rt.alloc(), &program(), words.as_slice()),
        Err(error) => command_without_words(rt.alloc(), &program(), &error),
    }
}

/// Does a job: reads the input to its end, writes the sheet and nothing else, and returns the exit status. After that
/// it writes to a third device why there is no sheet, or that it could not be written (docs/FORMATS.md, "Words on
/// standard error"). If an act of a game is refused, the acts before it follow. Nothing there changes the sheet or the
/// status. An input of more than 8,388,608 bytes is refused.
///
/// - `answers`: what is written is a right reply of the job to what was read. It is the whole reply, or a proper
///   beginning of it if the writer failed. If the bytes of the reader are known, these are what was read. `plan` writes
///   the position and the verdict in words, the sheet of the plan and how to read it, with the status `Yes` if the plan
///   is sure and `No` if it is not. If the input has no plan, it is that of `try`. `game` writes the sheet of the game,
///   with the status `Yes`. `beaten` writes how many deals beat the plan, of the open deals, and of each choice of four
///   ranks of which some deal does, with the status `Yes` if none does and `No` otherwise. `try` writes a plan: a sure
///   one with the status `Yes`, or, if no plan is sure, another one with the status `No`. `refute` writes that some
///   plan is sure, with the status `Yes`, or with the status `No` games that refute every player, or that suits decide.
///   `why` writes the same in words. `leads` writes what is after each turn that may come next, with the status `Yes`
///   if a card is sure, or on the opponent's turn if a plan is sure after each, and `No` otherwise. `next` writes what
///   comes next after the turns since the problem, with the status `Yes`, or with the status `No` that the owner is
///   stuck. `scores` writes at which scores turns are sure, or a plan is, and `holes` how many holes are sure, with the
///   status `Yes`. All write the refusal of the input if it has one, or `fault 11` if an allocation failed. If a sure
///   plan that is found has more than 65,535 nodes, `try`, `plan` and `leads` write `fault 50`.
/// - `means`: what the status means for the input. If the bytes of the reader are known, these are the input. The
///   status `Yes` of `plan` and of `beaten` means that the plan of the input is sure, and `No` that it is not. With
///   both the figures are exact. The status `Yes` of `try`, and of `plan` if the input has no plan, means that the plan
///   that is written is sure, and `No` that no plan is. The status `Yes` of `refute` and of `why` means that some plan
///   is sure, and `No` that none is. With either status the figures of `leads` are exact, and so are the marks of
///   `scores` and the figures of `holes`. The status `No` of `next` means that the plan of the input is not sure. The
///   status `Fault` means that an allocation or a device failed, or that a plan has too many nodes.
/// - `words`: a refusal or a fault has its message on the third device, whole unless that device fails. After the
///   refusal of an act are the acts before it, and after no other message. If a game or a turn is refused, the reason
///   is its fault.
/// - `silent`: nothing is written there if the status is `Yes` or `No`.
pub fn run_with_words<A: Allocator + Copy, S: Source, W: Sink, E: Sink>(
    alloc: A,
    job: SheetJob,
    source: &mut S,
    sink: &mut W,
    words: &mut E,
) -> Status
    ensures answers { Delivers (SheetMakes job) (S.remaining source.old)
        (HasFailed (S.faults source.old) (S.faults source.new)) (W.contents sink.old) (W.contents sink.new)
        (HasFailed (W.faults sink.old) (W.faults sink.new)) result }
    ensures means { (input : List ℕ) × IfSome (S.remaining source.old) (λ bytes. input ≡ bytes)
        × RunMeans (SheetMeans job) input (W.contents sink.old) (W.contents sink.new)
        (HasFailed (S.faults source.old) (S.faults source.new) ⊎ HasFailed (W.faults sink.old) (W.faults sink.new))
        result }
    ensures words { (run : Delivers (SheetMakes job) (S.remaining source.old)
        (HasFailed (S.faults source.old) (S.faults source.new)) (W.contents sink.old) (W.contents sink.new)
        (HasFailed (W.faults sink.old) (W.faults sink.new)) result)
        × Explains (TellsRead (SheetTells job) run.read) (IsSaid (sections_of job) (input_of run.read)) run.reply
        result (E.contents words.old) (E.contents words.new)
        (HasFailed (E.faults words.old) (E.faults words.new)) }
    ensures silent { (result ≡ Status.Yes) ⊎ (result ≡ Status.No)
        → Appends (E.contents words.old) (E.contents words.new) [] }
{
    crib_run::run_with_words::<A, SheetJob, Messages, S, W, E>(alloc, job, source, sink, words)
}

#[cfg(test)]
mod tests;
