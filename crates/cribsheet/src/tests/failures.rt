//! Devices that fail or are interrupted.
use crate::tests::runs::{Written, outcome, written_of};
use crate::tests::same;
use crib_run::Status;
use crib_sheet::SheetJob;
use example_texts::games::LAST_CARD;
use example_texts::joined;
use example_texts::plans::{LOOK, REST};
use example_texts::problems::{BEGUN, BEGUN_SHORT, TENS, TWELVE};
use failing_devices::Trouble;
use std::io::ErrorKind;
use std::process::Abort;

// The input of a job.
fn sections(job: SheetJob) -> [&'static str; 3] {
    match job {
        SheetJob::Plan => [TWELVE, LOOK, ""],
        SheetJob::Beaten => [BEGUN, REST, ""],
        SheetJob::Try => [TWELVE, "", ""],
        SheetJob::Refute | SheetJob::Why | SheetJob::Scores | SheetJob::Holes => [
            BEGUN_SHORT,
            "",
            "",
        ],
        SheetJob::Game => [TENS, LAST_CARD, ""],
        SheetJob::Leads => [BEGUN, "", ""],
        SheetJob::Next => [BEGUN, REST, "turns 1\nown 2D\n"],
    }
}

// Asserts that a run writes this, with this status. Its devices move one byte at each call. The reader fails as `given`
// says, and the writer as `taken` says.
fn comes_to(
    rt: &(impl Abort + AllocGlobal),
    job: SheetJob,
    (given, taken): (Trouble, Trouble),
    wanted: &[u8],
    status: Status,
) {
    let input = joined(rt.alloc(), &sections(job)).expect(rt, "memory");
    let alloc = rt.alloc();
    let written = outcome(alloc, alloc, job, input.as_bytes(), 1, given, taken);
    same(rt, written.text.as_slice(), wanted);
    same(rt, written.status, status);
}

// The reader fails or is interrupted at a call.
fn fails_to_read(rt: &(impl Abort + AllocGlobal), job: SheetJob) {
    let whole = written_of(rt, job, &sections(job));
    for call in [1, 2, 70] {
        let broken = Trouble::At(call, ErrorKind::Other);
        comes_to(
            rt,
            job,
            (broken, Trouble::Never),
            b"fault 9\n",
            Status::Fault,
        );
        let interrupted = Trouble::At(call, ErrorKind::Interrupted);
        let text = whole.text.as_slice();
        comes_to(rt, job, (interrupted, Trouble::Never), text, whole.status);
    }
}

#[test]
fn a_failed_read_is_fault_9(rt: HostRuntime) {
    fails_to_read(&rt, SheetJob::Plan);
    fails_to_read(&rt, SheetJob::Game);
    fails_to_read(&rt, SheetJob::Beaten);
    fails_to_read(&rt, SheetJob::Try);
    fails_to_read(&rt, SheetJob::Refute);
    fails_to_read(&rt, SheetJob::Why);
    fails_to_read(&rt, SheetJob::Leads);
    fails_to_read(&rt, SheetJob::Next);
}

// The writer fails or is interrupted after so many bytes of the whole text.
fn fails_after(rt: &(impl Abort + AllocGlobal), job: SheetJob, sent: usize, whole: &Written) {
    let call = (sent as u64).saturating_add(1);
    let text = whole.text.as_slice();
    let front = text.get(..sent).expect(rt, "a front");
    let broken = Trouble::At(call, ErrorKind::Other);
    comes_to(rt, job, (Trouble::Never, broken), front, Status::Fault);
    let interrupted = Trouble::At(call, ErrorKind::Interrupted);
    comes_to(rt, job, (Trouble::Never, interrupted), text, whole.status);
}

// One of the calls of the writer fails or is interrupted: each 67th is tried.
fn fails_to_write(rt: &(impl Abort + AllocGlobal), job: SheetJob) {
    let whole = written_of(rt, job, &sections(job));
    for sent in (0..whole.text.len()).step_by(67) {
        fails_after(rt, job, sent, &whole);
    }
}

#[test]
fn a_failed_write_leaves_a_front(rt: HostRuntime) {
    fails_to_write(&rt, SheetJob::Plan);
    fails_to_write(&rt, SheetJob::Game);
    fails_to_write(&rt, SheetJob::Beaten);
    fails_to_write(&rt, SheetJob::Try);
    fails_to_write(&rt, SheetJob::Refute);
    fails_to_write(&rt, SheetJob::Why);
    fails_to_write(&rt, SheetJob::Leads);
    fails_to_write(&rt, SheetJob::Next);
}
