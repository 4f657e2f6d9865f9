use crate::inputs::{game, problem, same, writes};
use crib_board::*;
use crib_game::GameFault;
use example_texts::boards::*;
use example_texts::games::*;
use example_texts::problems::*;
use refusing_alloc::Refusing;
use std::process::Abort;

// The board of the game has this text.
fn has_board(rt: &(impl Abort + AllocGlobal), problem_text: &str, game_text: &str, board: &str) {
    let written = write_board(rt.alloc(), &problem(rt, problem_text), &game(rt, game_text));
    writes(rt, written, board);
}

#[test]
fn writes_the_board_of_a_game(rt: HostRuntime) {
    has_board(&rt, TENS, LAST_CARD, LAST_CARD_BOARD);
}

// A game has all turns from the first lead. So its board does not depend on where its problem begins.
#[test]
fn writes_the_board_of_a_problem_from_a_later_turn(rt: HostRuntime) {
    has_board(&rt, TENS_BEGUN, LAST_CARD, LAST_CARD_BOARD);
}

// The opponent pegs out with their second card, so there is no show.
#[test]
fn writes_a_board_with_a_peg_in_the_last_hole(rt: HostRuntime) {
    has_board(&rt, CLOSE, PAIRED, PEGGED_OUT_BOARD);
}

#[test]
fn writes_a_board_without_acts_or_pegs(rt: HostRuntime) {
    has_board(&rt, TENS, NO_TEN_PLAYED, OPEN_BOARD);
}

#[test]
fn has_no_board_for_a_refused_game(rt: HostRuntime) {
    let written = write_board(rt.alloc(), &problem(&rt, TENS), &game(&rt, TAKES_THE_LEAD));
    same(
        &rt,
        written.err(),
        Some(BoardFault::Game(GameFault::NotTurn(1))),
    );
}

// The first allocation is the only one.
#[test]
fn grows_once(rt: HostRuntime) {
    let problem = problem(&rt, TENS);
    let game = game(&rt, LAST_CARD);
    let first = Refusing::after(rt.alloc(), 0);
    let written = write_board(&first, &problem, &game);
    same(&rt, written.err(), Some(BoardFault::NoMemory));
    let second = Refusing::after(rt.alloc(), 1);
    assert!(rt; write_board(&second, &problem, &game).is_ok());
    assert!(rt; !second.has_refused());
}
