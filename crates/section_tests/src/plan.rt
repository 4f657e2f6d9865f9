use crate::inputs::{grows_once, plan, same, same_for, writes};
use crib_cards::{Rank, read_card};
use crib_plan::*;
use crib_text::Lines;
use example_texts::joined;
use refusing_alloc::Refusing;
use std::alloc::Allocator;
use std::process::Abort;

// A plan with four twos, one after another: the number of nodes, and the end of the last line.
macro_rules! twos {
    ($nodes:literal, $end:literal) => {
        concat!("plan 1\nnodes ", $nodes, "\n0 play 2C 1\n1 play 2D 2\n2 play 2H 3\n3 play 2S ", $end)
    };
}

const TWOS: &str = twos!("4", "end\n");

// After the first two it looks at the opponent's card.
const LOOK: &str =
    "plan 1\nnodes 5\n0 play 2C 1\n1 see A3456789TJQK:2\n2 play 2D 3\n3 play 2H 4\n4 play 2S end\n";

// The line and the number of the refusal, or 0 and 0 if there is none.
fn refusal<A: Allocator + Copy>(rt: &impl Abort, alloc: A, text: &str) -> (u32, u8) {
    let bytes = text.as_bytes();
    assert!(rt; bytes.len() <= 1000);
    match Lines::new(bytes) {
        Err(fault) => (fault.line, fault.cause.number()),
        Ok(mut lines) => match read_plan(alloc, &mut lines) {
            Err(fault) => (fault.line, fault.cause.number()),
            Ok(_) => (0, 0),
        },
    }
}

// Asserts that a plan is refused at this line with this number. They are 0 and 0 for a plan that is read.
fn refuses(rt: &(impl Abort + AllocGlobal), text: &str, line: u32, number: u8) {
    let refused = refusal(rt, rt.alloc(), text);
    same_for(rt, refused, (line, number), text);
}

#[test]
fn writes_what_it_reads(rt: HostRuntime) {
    writes(&rt, write_plan(rt.alloc(), &plan(&rt, TWOS)), TWOS);
}

#[test]
fn looks_at_the_opponents_card(rt: HostRuntime) {
    let plan = plan(&rt, LOOK);
    let ace = Letter::Seen(Rank::default());
    same(&rt, start(&plan), Next::To(0));
    same(&rt, card_at(&plan, Next::To(0)), read_card(b"2C"));
    same(&rt, after_card(&plan, Next::To(0)), Next::To(1));
    same(&rt, place_after(&plan, Next::To(1), ace), Next::To(2));
    same(&rt, place_after(&plan, Next::To(1), Letter::Go), Next::End);
    same(
        &rt,
        place_after(&plan, Next::To(0), Letter::Go),
        Next::To(0),
    );
    same(&rt, card_at(&plan, Next::To(1)), None);
}

#[test]
fn is_made_of_nodes(rt: HostRuntime) {
    let card = read_card(b"AC").expect(&rt, "a card");
    let next = Next::End;
    let nodes = vec![in rt.alloc(); Node::Play { card, next }].expect(&rt, "memory");
    let written = write_plan(rt.alloc(), &plan_of(nodes));
    writes(&rt, written, "plan 1\nnodes 1\n0 play AC end\n");
}

// The line of the first of four nodes, and the number of its refusal, or 0.
const FIRST_NODES: &[(&str, u8)] = &[
    ("0 play 2C 1", 0),
    ("1 play 2C 1", 4),
    ("0 play 2C x", 6),
    ("0 see A:end", 30),
    ("0 see 5A:1", 31),
    ("0 see A:1 A:2", 31),
    ("0 see A:1 2:1", 31),
    ("0 see 2:1 A:2", 31),
    ("0 see 5A:1 x", 31),
    ("0 see A", 4),
    ("0 see A:1:2", 4),
    ("0 see A:", 6),
    ("0 see :1", 31),
    ("0 see A:0", 30),
    ("0 see A:4", 30),
    ("0 play 1C x", 5),
    ("0 play 2C", 4),
    ("0 look", 4),
    ("0", 4),
    ("0 see", 0),
    ("0 see A3g:1 2K:3", 0),
];

#[test]
fn refuses_by_line_and_number(rt: HostRuntime) {
    let front = "plan 1\nnodes 4\n";
    let back = "\n1 play 2D 2\n2 play 2H 3\n3 play 2S end\n";
    for (node, number) in FIRST_NODES {
        let text = joined(rt.alloc(), &[front, node, back]).expect(&rt, "memory");
        let line = if *number == 0 { 0 } else { 3 };
        refuses(&rt, text.as_str(), line, *number);
    }
}

// Texts, and the lines and the numbers of their refusals.
const OTHER_LINES: &[(&str, u32, u8)] = &[
    ("", 1, 3),
    ("plan 2\n", 1, 7),
    ("plan 1\nnodes 0\n", 0, 0),
    (twos!("65536", "end\n"), 2, 32),
    (twos!("4", "3\n"), 6, 30),
    (twos!("4", "end"), 6, 3),
    ("plan 1\nnodes 2\n0 play 2S 1\n", 4, 3),
];

#[test]
fn refuses_in_other_lines(rt: HostRuntime) {
    for (text, line, number) in OTHER_LINES {
        refuses(&rt, text, *line, *number);
    }
}

#[test]
fn a_refused_growth_is_11(rt: HostRuntime) {
    for served in 0..2 {
        let heap = Refusing::after(rt.alloc(), served);
        let number = if served == 0 { 11 } else { 0 };
        same(&rt, refusal(&rt, &heap, TWOS), (0, number));
        same(&rt, heap.has_refused(), served == 0);
    }
    let heap = Refusing::after(rt.alloc(), 0);
    same(&rt, refusal(&rt, &heap, "plan 1\nnodes 65536\n"), (2, 32));
    assert!(rt; !heap.has_refused());
    let plan = plan(&rt, TWOS);
    for served in 0..2 {
        let heap = Refusing::after(rt.alloc(), served);
        let written = write_plan(&heap, &plan);
        grows_once(&rt, &heap, served, written, TWOS);
    }
}

// A plan of 65,535 nodes. All but the last fourteen are see nodes with a branch for each letter.
fn large(rt: &(impl Abort + AllocGlobal)) -> String {
    let mut text = joined(rt.alloc(), &["plan 1\nnodes 65535\n"]).expect(rt, "memory");
    for place in 0..65_535u32 {
        write!(text, "{place} see").expect(rt, "memory");
        if place < 65_521 {
            for (next, letter) in (place + 1..place + 15).zip("A23456789TJQKg".chars()) {
                write!(text, " {letter}:{next}").expect(rt, "memory");
            }
        }
        text.push('\n').expect(rt, "memory");
    }
    text
}

#[test]
fn reads_and_writes_the_largest_plan(rt: HostRuntime) {
    let text = large(&rt);
    let plan = plan(&rt, text.as_str());
    let last = place_after(&plan, Next::To(65_520), Letter::Go);
    same(&rt, last, Next::To(65_534));
    let written = write_plan(rt.alloc(), &plan).expect(&rt, "a text");
    assert!(rt; written.as_slice() == text.as_bytes());
}
