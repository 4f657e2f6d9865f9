//! The section of a game.
use crate::inputs::*;
use crib_cards::{Move, Side};
use crib_game::*;
use crib_problem::{read_problem, write_problem};
use crib_text::{Lines, TextCause, TextFault};
use example_texts::games::LAST_CARD;
use example_texts::joined;
use example_texts::problems::TENS;
use refusing_alloc::Refusing;
use std::process::Abort;

const NO_ACTS: &str = "game 1\nhold KS AC 2D TH\nthrow 9S 9C\nacts 0\n";

const MOST_ACTS: &str =
    "game 1\nhold TD KD KH QS\nthrow 5H 7D\nacts 32\nown TC\nopp TD\nown 9C\nopp go\nown 2C\nopp KD\nown 8C\n\
      opp KH\nown TC\nopp TD\nown 9C\nopp go\nown 2C\nopp KD\nown 8C\nopp KH\nown TC\nopp TD\nown 9C\nopp go\n\
      own 2C\nopp KD\nown 8C\nopp KH\nown TC\nopp TD\nown 9C\nopp go\nown 2C\nopp KD\nown 8C\nopp KH\n";

// Asserts that a game is refused at this line with this number. They are 0 and 0 for a game that is read.
fn refuses(rt: &impl Abort, text: &str, line: u32, number: u8) {
    let bytes = text.as_bytes();
    assert!(rt; bytes.len() <= 1000);
    let refused = match Lines::new(bytes).and_then(|mut lines| read_game(&mut lines)) {
        Err(fault) => (fault.line, fault.cause.number()),
        Ok(_) => (0, 0),
    };
    same(rt, refused, (line, number));
}

#[test]
fn reads_a_game(rt: HostRuntime) {
    let game = game(&rt, LAST_CARD);
    let acts = game.acts.as_slice();
    assert!(rt; acts.len() == 10);
    same(&rt, acts[0].side, Side::Owner);
    assert!(rt; matches!(acts[0].what, Move::Card(_)));
    same(&rt, acts[3].side, Side::Opponent);
    same(&rt, acts[3].what, Move::Go);
}

// Each reader leaves the lines after its section to the next one.
#[test]
fn reads_a_problem_and_its_game(rt: HostRuntime) {
    let text = joined(rt.alloc(), &[TENS, LAST_CARD]).expect(&rt, "memory");
    let mut lines = lines(&rt, text.as_str());
    let problem = read_problem(&mut lines).expect(&rt, "a problem");
    let game = read_game(&mut lines).expect(&rt, "a game");
    lines.finish().expect(&rt, "no line after the game");
    writes(&rt, write_problem(rt.alloc(), &problem), TENS);
    writes(&rt, write_game(rt.alloc(), &game), LAST_CARD);
}

#[test]
fn writes_what_it_reads(rt: HostRuntime) {
    for text in [LAST_CARD, NO_ACTS, MOST_ACTS] {
        writes(&rt, write_game(rt.alloc(), &game(&rt, text)), text);
    }
}

// Asserts that `LAST_CARD` with one line changed is refused at this line with this number.
fn refuses_with(
    rt: &(impl Abort + AllocGlobal),
    place: usize,
    changed: &str,
    line: u32,
    number: u8,
) {
    refuses(
        rt,
        with_line(rt, LAST_CARD, place, changed).as_str(),
        line,
        number,
    );
}

// Each text is that of the game with one change, or a beginning of it.
#[test]
fn refuses_by_line_and_number(rt: HostRuntime) {
    refuses(&rt, LAST_CARD, 0, 0);
    refuses(&rt, "", 1, 3);
    refuses(&rt, "problem 1\n", 1, 4);
    refuses(&rt, "game 2\n", 1, 7);
    refuses(&rt, "game 1\nhold TD KD KH 1S\n", 2, 5);
    refuses(&rt, "game 1\nhold TD KD KH QS\nthrow 5H\n", 3, 4);
    refuses_with(&rt, 4, "acts 33", 4, 6);
    refuses_with(&rt, 4, "acts 11", 15, 3);
    refuses_with(&rt, 5, "own 1C", 5, 5);
    refuses_with(&rt, 5, "owner TC", 5, 4);
    refuses_with(&rt, 5, "own TC TD", 5, 4);
}

#[test]
fn leaves_the_lines_after_the_game(rt: HostRuntime) {
    let text = with_line(&rt, LAST_CARD, 4, "acts 9");
    let mut lines = lines(&rt, text.as_str());
    let game = read_game(&mut lines).expect(&rt, "a game");
    same(&rt, game.acts.len(), 9);
    let trailing = TextFault {
        line: 14,
        cause: TextCause::Trailing,
    };
    same(&rt, lines.finish(), Err(trailing));
}

#[test]
fn reads_on_after_a_refusal(rt: HostRuntime) {
    let mut lines = lines(&rt, "game 1\nhold TD KD KH QS\nthrow 5H 7D\nacts 1\n");
    assert!(rt; read_game(&mut lines).is_err());
    same(&rt, next_number(&rt, &mut lines), 1);
}

#[test]
fn writes_nothing_without_memory(rt: HostRuntime) {
    let game = game(&rt, LAST_CARD);
    for served in 0..3 {
        let heap = Refusing::after(rt.alloc(), served);
        let written = write_game(&heap, &game);
        grows_once(&rt, &heap, served, written, LAST_CARD);
    }
}
