//! Runs over inputs in memory, and what they write.
use crate::run_with_words;
use crate::tests::same;
use crib_run::Status;
use crib_sheet::SheetJob;
use crib_text::Counted;
use example_texts::changes::{CHANGED_PLANS, Change};
use example_texts::plans::TWOS;
use example_texts::problems::TWELVE;
use example_texts::{joined, joined_with};
use failing_devices::{Feed, Tray, Trouble};
use std::alloc::{Allocator, Global};
use std::process::Abort;
use std::str;

/// What a run wrote, the words beside it, and its status.
#[derive(Drop)]
pub struct Written {
    pub text: Vec<u8>,
    pub words: Vec<u8>,
    pub status: Status,
}

/// Runs a job over these bytes. The reader and the writers move at most `piece` bytes at each call. The reader fails as
/// `given` says, and the writer as `taken` says. The memory of the run is that of `heap`. The function has no contract:
/// a test judges the outcome when it runs.
pub(crate) fn outcome<A: Allocator + Copy>(
    alloc: Global,
    heap: A,
    job: SheetJob,
    input: &[u8],
    piece: usize,
    given: Trouble,
    taken: Trouble,
) -> Written {
    let mut source = Counted::new(Feed::new(input, piece, given));
    let mut sink = Counted::new(Tray::new(alloc, piece, taken));
    let mut words = Counted::new(Tray::new(alloc, piece, Trouble::Never));
    let status = run_with_words(heap, job, &mut source, &mut sink, &mut words);
    Written {
        text: sink.into_inner().into_bytes(),
        words: words.into_inner().into_bytes(),
        status,
    }
}

/// Runs a job over these bytes with devices that never fail.
pub(crate) fn outcome_of<A: Allocator + Copy>(
    alloc: Global,
    heap: A,
    job: SheetJob,
    input: &[u8],
) -> Written {
    outcome(
        alloc,
        heap,
        job,
        input,
        4096,
        Trouble::Never,
        Trouble::Never,
    )
}

/// Runs a job over some sections.
pub(crate) fn written_of(
    rt: &(impl Abort + AllocGlobal),
    job: SheetJob,
    sections: &[&str],
) -> Written {
    let input = joined(rt.alloc(), sections).expect(rt, "memory");
    outcome_of(rt.alloc(), rt.alloc(), job, input.as_bytes())
}

impl Written {
    /// The text of the sheet.
    pub(crate) fn text<'a>(&'a self, rt: &impl Abort) -> &'a str {
        str::from_utf8(self.text.as_slice()).expect(rt, "a text")
    }

    /// The words beside it.
    pub(crate) fn words<'a>(&'a self, rt: &impl Abort) -> &'a str {
        str::from_utf8(self.words.as_slice()).expect(rt, "a text")
    }

    /// Asserts that this text was written, with this status.
    pub(crate) fn is(&self, rt: &impl Abort, wanted: &str, status: Status) {
        same(rt, self.text(rt), wanted);
        same(rt, self.status, status);
    }
}

/// Asserts that a text has these parts, in this order.
pub(crate) fn has_parts(rt: &impl Abort, text: &str, parts: &[&str]) {
    let mut rest = text;
    for part in parts {
        rest = after(rt, rest, *part);
    }
}

// The text after a part of it.
fn after<'a>(rt: &impl Abort, text: &'a str, part: &str) -> &'a str {
    match text.split_once(part) {
        Some((_, rest)) => rest,
        None => panic!(rt; "no {part} in {text}"),
    }
}

/// Asserts that a job over some sections writes this text, with this status.
pub(crate) fn writes(
    rt: &(impl Abort + AllocGlobal),
    job: SheetJob,
    sections: &[&str],
    wanted: &str,
    status: Status,
) {
    written_of(rt, job, sections).is(rt, wanted, status);
}

/// Asserts that a job over some sections writes a sheet with these parts, in this order, with this status and no words.
pub(crate) fn prints(
    rt: &(impl Abort + AllocGlobal),
    job: SheetJob,
    sections: &[&str],
    parts: &[&str],
    status: Status,
) {
    let written = written_of(rt, job, sections);
    has_parts(rt, written.text(rt), parts);
    same(rt, written.status, status);
    same(rt, written.words.len(), 0);
}

/// Asserts that a run refuses some sections, with one line changed.
pub(crate) fn refuses(
    rt: &(impl Abort + AllocGlobal),
    job: SheetJob,
    sections: &[&str],
    (number, changed, wanted): Change,
) {
    let input = joined_with(rt.alloc(), sections, number, changed).expect(rt, "memory");
    writes(rt, job, &[input.as_str()], wanted, Status::Refused);
}

/// Asserts that a run refuses the changes of `TWELVE` and `TWOS`, and an empty input. The numbers and the lines are
/// those of `cribplan check`.
pub(crate) fn refuses_plans(rt: &(impl Abort + AllocGlobal), job: SheetJob) {
    for change in CHANGED_PLANS {
        refuses(rt, job, &[TWELVE, TWOS], change);
    }
    writes(rt, job, &[], "refused line 1: 3\n", Status::Refused);
}
