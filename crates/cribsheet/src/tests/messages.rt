//! The words beside a sheet.
use crate::tests::runs::{Written, outcome, outcome_of};
use crate::tests::same;
use crib_run::Status;
use crib_sheet::SheetJob;
use example_texts::games::{LAST_CARD, OWNER_LEADS};
use example_texts::plans::TWOS;
use example_texts::problems::{TENS, THIRTEEN};
use example_texts::{joined, joined_with};
use failing_devices::Trouble;
use refusing_alloc::Refusing;
use std::alloc::Allocator;
use std::io::ErrorKind;
use std::process::Abort;

// What is said of a mistyped card.
const NOT_A_CARD: &str = "\
cribsheet: line 5: \"10S\" is not a card. Write ten as T: TS.
  5 | hold 10S 2D 2H 2S
    |      ^^^
";

// Asserts that a job over some sections with a mistyped card says so.
fn says_why(rt: &(impl Abort + AllocGlobal), job: SheetJob, sections: &[&str]) {
    let changed = "hold 10S 2D 2H 2S";
    let input = joined_with(rt.alloc(), sections, 5, changed).expect(rt, "memory");
    let written = outcome_of(rt.alloc(), rt.alloc(), job, input.as_bytes());
    written.is(rt, "refused line 5: 5\n", Status::Refused);
    same(rt, written.words(rt), NOT_A_CARD);
}

#[test]
fn each_command_says_why(rt: HostRuntime) {
    says_why(&rt, SheetJob::Plan, &[THIRTEEN, TWOS]);
    says_why(&rt, SheetJob::Game, &[THIRTEEN, OWNER_LEADS]);
    says_why(&rt, SheetJob::Beaten, &[THIRTEEN, TWOS]);
    says_why(&rt, SheetJob::Try, &[THIRTEEN]);
    says_why(&rt, SheetJob::Refute, &[THIRTEEN]);
    says_why(&rt, SheetJob::Why, &[THIRTEEN]);
    says_why(&rt, SheetJob::Next, &[THIRTEEN, TWOS, "turns 0\n"]);
    says_why(&rt, SheetJob::Scores, &[THIRTEEN]);
    says_why(&rt, SheetJob::Holes, &[THIRTEEN]);
}

#[test]
fn a_refused_turn_has_its_line(rt: HostRuntime) {
    let sections = [THIRTEEN, TWOS, "turns 1\nown 9C\n"];
    let input = joined(rt.alloc(), &sections).expect(&rt, "memory");
    let written = outcome_of(rt.alloc(), rt.alloc(), SheetJob::Next, input.as_bytes());
    written.is(&rt, "refused line 15: 41\n", Status::Refused);
    let words = written.words(&rt);
    let names_line = words.starts_with("cribsheet: line 15, line 2 of the turns: 9C is not held: ");
    assert!(rt; names_line, "{words}");
}

// A run over a game whose seventh act is refused, with the memory of `heap`.
fn refused_act<A: Allocator + Copy>(rt: &(impl Abort + AllocGlobal), heap: A) -> Written {
    let sections = [TENS, LAST_CARD];
    let input = joined_with(rt.alloc(), &sections, 18, "own 9C").expect(rt, "memory");
    outcome_of(rt.alloc(), heap, SheetJob::Game, input.as_bytes())
}

// The number of acts among these words, and the number of lines that quote the input.
fn acts_in(words: &str) -> (u8, u8) {
    let mut acts = 0u8;
    let mut excerpt = 0u8;
    for line in words.lines() {
        if line.contains(" | ") {
            excerpt = excerpt.saturating_add(1);
        } else if line.contains(" pone ") || line.contains(" dealer ") {
            acts = acts.saturating_add(1);
        }
    }
    (acts, excerpt)
}

// The seventh act is refused: the six before it are shown after the message, each with its number.
#[test]
fn a_refused_act_has_the_acts_before_it(rt: HostRuntime) {
    let written = refused_act(&rt, rt.alloc());
    written.is(&rt, "refused line 18: 41\n", Status::Refused);
    let words = written.words(&rt);
    let names_line = words.starts_with("cribsheet: line 18, line 11 of the game: ");
    let (acts, excerpt) = acts_in(words);
    assert!(rt; names_line && acts >= 6 && excerpt >= 1, "{words}");
}

// Asserts that without an allocation acts are left out of the words, and nothing else. Returns whether there was one to
// fail.
fn leaves_acts_out(rt: &(impl Abort + AllocGlobal), served: u64, plenty: &Written) -> bool {
    let heap = Refusing::after(rt.alloc(), served);
    let written = refused_act(rt, &heap);
    same(rt, written.text(rt), plenty.text(rt));
    if heap.has_refused() {
        same(rt, written.words.len() < plenty.words.len(), true);
        same(rt, plenty.words(rt).starts_with(written.words(rt)), true);
    } else {
        same(rt, written.words(rt), plenty.words(rt));
    }
    heap.has_refused()
}

// Without memory for the acts the message is alone.
#[test]
fn acts_without_memory_are_left_out(rt: HostRuntime) {
    let plenty = refused_act(&rt, rt.alloc());
    for served in 1..100 {
        if !leaves_acts_out(&rt, served, &plenty) {
            return;
        }
    }
    panic!(rt; "a run that never ends to grow")
}

const UNREAD: &str = "cribsheet: the input can't be read\n";

const UNWRITTEN: &str = "cribsheet: the answer can't be written\n";

// Asserts that a run with these devices ends with a fault, and writes these words.
fn faults(
    rt: &(impl Abort + AllocGlobal),
    job: SheetJob,
    sections: &[&str],
    (given, taken): (Trouble, Trouble),
    wanted: &str,
) {
    let input = joined(rt.alloc(), sections).expect(rt, "memory");
    let alloc = rt.alloc();
    let written = outcome(alloc, alloc, job, input.as_bytes(), 4096, given, taken);
    same(rt, written.status, Status::Fault);
    same(rt, written.words(rt), wanted);
}

// Asserts so of each command.
fn each_faults(rt: &(impl Abort + AllocGlobal), devices: (Trouble, Trouble), wanted: &str) {
    faults(rt, SheetJob::Plan, &[THIRTEEN, TWOS], devices, wanted);
    faults(rt, SheetJob::Game, &[TENS, LAST_CARD], devices, wanted);
    faults(rt, SheetJob::Beaten, &[THIRTEEN, TWOS], devices, wanted);
}

#[test]
fn a_fault_has_words(rt: HostRuntime) {
    let input = joined(rt.alloc(), &[THIRTEEN, TWOS]).expect(&rt, "memory");
    let heap = Refusing::after(rt.alloc(), 0);
    let written = outcome_of(rt.alloc(), &heap, SheetJob::Plan, input.as_bytes());
    written.is(&rt, "fault 11\n", Status::Fault);
    same(&rt, written.words(&rt), "cribsheet: out of memory\n");
    let broken = Trouble::At(1, ErrorKind::Other);
    each_faults(&rt, (broken, Trouble::Never), UNREAD);
    each_faults(&rt, (Trouble::Never, broken), UNWRITTEN);
}
