//! What is read and written, with pieces of any size, failures and interruptions.

use crate::same;
use crate::text::memory::{feeding, making, tray_of};
use crate::text::texts::is_refused;
use crib_text::{
    Counted, Lines, MAX_INPUT, MAX_TURNS, Sink, Source, Stopped, TextCause, put, read_all,
};
use failing_devices::{Feed, Tray, Trouble};
use refusing_alloc::Refusing;
use std::alloc::{Allocator, Global};
use std::io::ErrorKind;
use std::process::Abort;

const INPUT: &[u8] = b"problem 1\ndealer owner\n";

// Reads so many bytes in such pieces. Returns how many were read, or the cause of the refusal.
fn amount<A: Allocator + Copy + Drop>(
    alloc: A,
    left: usize,
    piece: usize,
) -> Result<usize, TextCause> {
    match read_all(alloc, &mut making(left, piece)) {
        Ok(text) => Ok(text.len()),
        Err(fault) => Err(fault.cause),
    }
}

// Asserts what is read of a device, or why nothing is, and how many of its calls failed. A failure shows the row.
// Returns how many bytes are left.
fn reads(
    rt: &(impl Abort + AllocGlobal),
    row: u64,
    mut source: Counted<Feed<'_>>,
    wanted: Result<&[u8], TextCause>,
    faults: u64,
) -> usize {
    let outcome = read_all(rt.alloc(), &mut source);
    let found = match &outcome {
        Ok(text) => Ok(text.as_slice()),
        Err(fault) => Err(fault.cause),
    };
    same(rt, (row, found, source.faults()), (row, wanted, faults));
    source.into_inner().left()
}

// Writes `INPUT`. Asserts how that ends, how many calls failed, and what was written. A failure shows the row.
fn puts(
    rt: &impl Abort,
    row: u64,
    mut sink: Counted<Tray<Global>>,
    outcome: Result<(), Stopped>,
    faults: u64,
    written: &[u8],
) {
    let found = put(&mut sink, INPUT);
    same(rt, (row, found, sink.faults()), (row, outcome, faults));
    same(rt, sink.into_inner().into_bytes().as_slice(), written);
}

#[test]
fn reads_all_in_any_pieces(rt: HostRuntime) {
    for piece in 1..30u8 {
        let source = feeding(INPUT, usize::from(piece), Trouble::Never);
        let left = reads(&rt, u64::from(piece), source, Ok(INPUT), 0);
        same(&rt, left, 0);
    }
    let nothing = feeding(b"", 1, Trouble::Never);
    let _left = reads(&rt, 1, nothing, Ok(b""), 0);
}

// With one byte a call, 23 calls read the bytes, and one more call finds the end.
#[test]
fn a_failed_read_ends_it_and_an_interrupted_one_is_made_again(rt: HostRuntime) {
    for call in 1..25 {
        let failing = feeding(INPUT, 1, Trouble::At(call, ErrorKind::Other));
        let _left = reads(&rt, call, failing, Err(TextCause::ReadFault), 1);
        let interrupted = feeding(INPUT, 1, Trouble::At(call, ErrorKind::Interrupted));
        let _left = reads(&rt, call, interrupted, Ok(INPUT), 1);
    }
}

#[test]
fn an_interruption_for_ever_ends_with_the_turns(rt: HostRuntime) {
    let always = Trouble::From(1, ErrorKind::Interrupted);
    let turns = u64::from(MAX_TURNS);
    let source = feeding(INPUT, 1, always);
    let _left = reads(&rt, 1, source, Err(TextCause::ReadFault), turns);
    let sink = tray_of(rt.alloc(), 1, always);
    puts(&rt, 1, sink, Err(Stopped { sent: 0 }), turns, b"");
}

#[test]
fn the_longest_input_is_read_and_one_byte_more_is_not(rt: HostRuntime) {
    for piece in [1, 8191, 8192] {
        same(&rt, amount(rt.alloc(), 8_388_608, piece), Ok(8_388_608));
        same(
            &rt,
            amount(rt.alloc(), 8_388_609, piece),
            Err(TextCause::TooLong),
        );
    }
    let text = read_all(rt.alloc(), &mut making(MAX_INPUT, MAX_INPUT)).expect(&rt, "a text");
    let cut_short = TextCause::CutShort.number();
    is_refused(&rt, Lines::new(&text), 1, cut_short);
}

#[test]
fn writes_all_or_exactly_what_is_told(rt: HostRuntime) {
    for piece in 1..30u8 {
        let sink = tray_of(rt.alloc(), usize::from(piece), Trouble::Never);
        puts(&rt, u64::from(piece), sink, Ok(()), 0, INPUT);
    }
    for sent in 0..23usize {
        let call = sent as u64 + 1;
        let failing = tray_of(rt.alloc(), 1, Trouble::At(call, ErrorKind::Other));
        puts(&rt, call, failing, Err(Stopped { sent }), 1, &INPUT[..sent]);
        let interrupted = tray_of(rt.alloc(), 1, Trouble::At(call, ErrorKind::Interrupted));
        puts(&rt, call, interrupted, Ok(()), 1, INPUT);
    }
}

#[test]
fn a_writer_that_takes_no_byte_has_failed(rt: HostRuntime) {
    let sink = tray_of(rt.alloc(), 0, Trouble::Never);
    puts(&rt, 1, sink, Err(Stopped { sent: 0 }), 1, b"");
    let mut sink = tray_of(rt.alloc(), 0, Trouble::Never);
    same(&rt, (put(&mut sink, b""), sink.faults()), (Ok(()), 0));
}

// The input is two whole pieces and a part of one. Each allocation fails in turn, and at last none does.
#[test]
fn each_refused_growth_is_want_of_memory(rt: HostRuntime) {
    for served in 0..50 {
        let heap = Refusing::after(rt.alloc(), served);
        let outcome = amount(&heap, 20_000, 8192);
        if !heap.has_refused() {
            same(&rt, outcome, Ok(20_000));
            assert!(rt; served > 0, "no growth was refused");
            return;
        }
        same(&rt, (served, outcome), (served, Err(TextCause::NoMemory)));
    }
    panic!(rt; "reading never ends to grow");
}
