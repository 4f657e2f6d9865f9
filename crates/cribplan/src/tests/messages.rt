//! The words beside an answer.
use crate::tests::runs::{Written, feed, outcome_on, outcome_with_words, text_of, text_with, tray};
use crate::tests::{same, same_for};
use crib_answer::Job;
use crib_run::Status;
use crib_text::Counted;
use example_texts::games::{LAST_CARD, OWNER_LEADS};
use example_texts::plans::TWOS;
use example_texts::problems::{TENS, THIRTEEN};
use failing_devices::{Feed, Tray, Trouble};
use refusing_alloc::Refusing;
use std::io::ErrorKind;
use std::process::Abort;
use std::str;

// A mistyped card, and what is said of it.
const TYPED_TEN: &str = "hold 10S 2D 2H 2S";

const NOT_A_CARD: &str = "\
cribplan: line 5: \"10S\" is not a card. Write ten as T: TS.
  5 | hold 10S 2D 2H 2S
    |      ^^^
";

// Asserts that a run over an input writes this answer and these words.
fn says(rt: &(impl Abort + AllocGlobal), job: Job, input: &str, wanted: &str, words: &str) {
    let written = outcome_with_words(rt.alloc(), rt.alloc(), job, input.as_bytes());
    written.is(rt, wanted, Status::Refused, input);
    written.says(rt, words, input);
}

// Each command, and the sections of its input.
const COMMANDS: &[(Job, &[&str])] = &[
    (Job::Solve, &[THIRTEEN]),
    (Job::Check, &[THIRTEEN, TWOS]),
    (Job::Replay, &[THIRTEEN, OWNER_LEADS]),
    (Job::Board, &[THIRTEEN, OWNER_LEADS]),
    (Job::Follow, &[THIRTEEN, TWOS, OWNER_LEADS]),
];

#[test]
fn each_command_says_why(rt: HostRuntime) {
    for (job, sections) in COMMANDS {
        let input = text_with(&rt, sections, 5, TYPED_TEN);
        says(&rt, *job, input.as_str(), "refused line 5: 5\n", NOT_A_CARD);
    }
}

// Lines of a plan and of a game are named in their sections too. `board` refuses what `replay` refuses.
#[test]
fn a_line_of_a_section_is_named(rt: HostRuntime) {
    let input = text_with(&rt, &[TENS, LAST_CARD], 11, "own QC");
    for job in [Job::Replay, Job::Board] {
        let written = outcome_with_words(rt.alloc(), rt.alloc(), job, input.as_bytes());
        let said = str::from_utf8(written.words.as_slice()).expect(&rt, "a text");
        let is_named = said.starts_with("cribplan: line 11, line 4 of the game: ");
        let is_quoted = said.contains("\n  11 | own QC\n");
        assert!(rt; is_named && is_quoted, "not {said}");
    }
}

// One byte goes out at each call, and one call fails.
#[test]
fn words_that_are_cut_short_change_nothing(rt: HostRuntime) {
    let input = text_with(&rt, &[THIRTEEN, TWOS], 5, TYPED_TEN);
    for sent in 0..NOT_A_CARD.len() {
        let trouble = Trouble::At(sent as u64 + 1, ErrorKind::Other);
        let words = Counted::new(Tray::new(rt.alloc(), 1, trouble));
        let source = feed(input.as_bytes());
        let written = outcome_on(rt.alloc(), Job::Check, source, tray(rt.alloc()), words);
        written.is(&rt, "refused line 5: 5\n", Status::Refused, "cut short");
        same(
            &rt,
            written.words.as_slice(),
            &NOT_A_CARD.as_bytes()[..sent],
        );
    }
}

const UNREAD: &str = "cribplan: the input can't be read\n";

const UNWRITTEN: &str = "cribplan: the answer can't be written\n";

// Asserts that a run with these devices ends with a fault, and writes these words.
fn faults(rt: &(impl Abort + AllocGlobal), given: Trouble, taken: Trouble, wanted: &str) {
    let input = text_of(rt, &[THIRTEEN, TWOS]);
    let source = Counted::new(Feed::new(input.as_bytes(), 4096, given));
    let sink = Counted::new(Tray::new(rt.alloc(), 4096, taken));
    let written = outcome_on(rt.alloc(), Job::Check, source, sink, tray(rt.alloc()));
    same_for(rt, written.status, Status::Fault, wanted);
    written.says(rt, wanted, "a device that fails");
}

// Asserts that a run ended for want of memory, and said so.
fn has_no_memory(rt: &impl Abort, written: &Written) {
    written.is(rt, "fault 11\n", Status::Fault, "no memory");
    written.says(rt, "cribplan: out of memory\n", "no memory");
}

#[test]
fn a_fault_has_words(rt: HostRuntime) {
    let input = text_of(&rt, &[THIRTEEN, TWOS]);
    let heap = Refusing::after(rt.alloc(), 0);
    let written = outcome_with_words(rt.alloc(), &heap, Job::Check, input.as_bytes());
    has_no_memory(&rt, &written);
    let broken = Trouble::At(1, ErrorKind::Other);
    faults(&rt, broken, Trouble::Never, UNREAD);
    faults(&rt, Trouble::Never, broken, UNWRITTEN);
}

// Where the input is refused, its words are whole, whichever allocation fails.
#[test]
fn words_need_no_memory(rt: HostRuntime) {
    let input = text_with(&rt, &[THIRTEEN, TWOS], 10, "0 play 2X 1");
    let plenty = outcome_with_words(rt.alloc(), rt.alloc(), Job::Check, input.as_bytes());
    assert!(rt; plenty.words.len() > 0);
    for served in 1..1000 {
        let heap = Refusing::after(rt.alloc(), served);
        let written = outcome_with_words(rt.alloc(), &heap, Job::Check, input.as_bytes());
        if written.status == Status::Refused {
            same(&rt, written.text.as_slice(), plenty.text.as_slice());
            same(&rt, written.words.as_slice(), plenty.words.as_slice());
        } else {
            has_no_memory(&rt, &written);
        }
        if !heap.has_refused() {
            return;
        }
    }
    panic!(rt; "a run that never ends to grow")
}
