//! Runs over inputs in memory, and what they write.
use crate::tests::same_for;
use crate::{run, run_with_words};
use crib_answer::Job;
use crib_run::Status;
use crib_text::Counted;
use example_texts::games::OWNER_LEADS;
use example_texts::plans::TWOS;
use example_texts::problems::THIRTEEN;
use example_texts::{joined, joined_with};
use failing_devices::{Feed, Tray, Trouble};
use std::alloc::{Allocator, Global};
use std::io::Read;
use std::process::Abort;
use std::str;

/// The owner plays four twos, and the opponent four aces. The owner wants thirteen holes, and their hand counts twelve
/// points.
pub const ONE_GAME: [&str; 3] = [THIRTEEN, TWOS, OWNER_LEADS];

/// The text of some sections.
pub(crate) fn text_of(rt: &(impl Abort + AllocGlobal), sections: &[&str]) -> String {
    joined(rt.alloc(), sections).expect(rt, "memory")
}

/// The text of some sections, with `changed` in the place of line `number`.
pub(crate) fn text_with(
    rt: &(impl Abort + AllocGlobal),
    sections: &[&str],
    number: usize,
    changed: &str,
) -> String {
    joined_with(rt.alloc(), sections, number, changed).expect(rt, "memory")
}

/// The message of a failed assertion in the pass with this number.
pub(crate) fn numbered(rt: &(impl Abort + AllocGlobal), word: &str, number: u64) -> String {
    format!(in rt.alloc(); "{word} {number}").expect(rt, "memory")
}

/// What a run wrote, the words beside it, and its status.
#[derive(Drop)]
pub struct Written {
    pub text: Vec<u8>,
    pub words: Vec<u8>,
    pub status: Status,
}

/// A reader of these bytes that never fails.
pub(crate) fn feed<'a>(input: &'a [u8]) -> Counted<Feed<'a>> {
    Counted::new(Feed::new(input, 4096, Trouble::Never))
}

/// A writer that accepts all bytes.
pub(crate) fn tray(alloc: Global) -> Counted<Tray<Global>> {
    Counted::new(Tray::new(alloc, 4096, Trouble::Never))
}

/// Runs a job with a reader and a writer that accepts all bytes. The memory of the run is that of `heap`. The function
/// has no contract: a test judges the outcome when it runs.
pub(crate) fn outcome<A: Allocator + Copy, R: Read + Drop>(
    alloc: Global,
    heap: A,
    job: Job,
    mut source: Counted<R>,
) -> Written {
    let mut sink = tray(alloc);
    let status = run(heap, job, &mut source, &mut sink);
    Written::of(sink, tray(alloc), status)
}

/// Runs a job over these bytes.
pub(crate) fn outcome_of<A: Allocator + Copy>(
    alloc: Global,
    heap: A,
    job: Job,
    input: &[u8],
) -> Written {
    outcome(alloc, heap, job, feed(input))
}

/// Runs a job with a third device, for words.
pub(crate) fn outcome_on<A: Allocator + Copy>(
    heap: A,
    job: Job,
    mut source: Counted<Feed>,
    mut sink: Counted<Tray<Global>>,
    mut words: Counted<Tray<Global>>,
) -> Written {
    let status = run_with_words(heap, job, &mut source, &mut sink, &mut words);
    Written::of(sink, words, status)
}

/// Runs a job over these bytes, with a third device for words.
pub(crate) fn outcome_with_words<A: Allocator + Copy>(
    alloc: Global,
    heap: A,
    job: Job,
    input: &[u8],
) -> Written {
    outcome_on(heap, job, feed(input), tray(alloc), tray(alloc))
}

impl Written {
    // What these devices got.
    fn of(sink: Counted<Tray<Global>>, words: Counted<Tray<Global>>, status: Status) -> Written {
        Written {
            text: sink.into_inner().into_bytes(),
            words: words.into_inner().into_bytes(),
            status,
        }
    }

    /// Asserts that these words were written.
    pub(crate) fn says(&self, rt: &impl Abort, words: &str, what: &str) {
        let said = str::from_utf8(self.words.as_slice()).expect(rt, "a text");
        same_for(rt, said, words, what);
    }

    /// Asserts that this text was written, with this status, and that there are no words beside an accepted input. A
    /// failed assertion names `what` the run was given.
    pub(crate) fn is(&self, rt: &impl Abort, wanted: &str, status: Status, what: &str) {
        let text = str::from_utf8(self.text.as_slice()).expect(rt, "a text");
        same_for(rt, text, wanted, what);
        same_for(rt, self.status, status, what);
        if status == Status::Yes || status == Status::No {
            same_for(rt, self.words.len(), 0, what);
        }
    }
}

/// Asserts that a run over some sections writes this text, with this status, without a device for words and with one.
pub(crate) fn writes(
    rt: &(impl Abort + AllocGlobal),
    job: Job,
    sections: &[&str],
    wanted: &str,
    status: Status,
) {
    let input = text_of(rt, sections);
    let alone = outcome_of(rt.alloc(), rt.alloc(), job, input.as_bytes());
    alone.is(rt, wanted, status, input.as_str());
    let with_words = outcome_with_words(rt.alloc(), rt.alloc(), job, input.as_bytes());
    with_words.is(rt, wanted, status, input.as_str());
}
