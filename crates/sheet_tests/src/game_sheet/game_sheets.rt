//! Whole sheets of games.
use crate::game_sheet::{input, played, sheet_of};
use crate::{is_front, same};
use crib_game::{GameFault, replay};
use crib_game_sheet::put_acts_beside;
use crib_input::{Reason, Refusal, Sections};
use crib_run::Printer;
use crib_text::Counted;
use example_texts::games::*;
use example_texts::problems::*;
use failing_devices::{Tray, Trouble};
use std::io::ErrorKind;
use std::process::Abort;

// The owner's goal is reached.
const REACHED_SHEET: &str = "\
You are the dealer at 120, and the pone is at 0. The starter is KD.
You hold 2C 2D 2H 2S and threw 4C 6D.
You want to win.
The pone holds AC AD AH AS and threw 3C 7C.

 # side   card count you they  points
 1 pone   AC       1 120    0
 2 dealer 2C       3 120    0
 3 pone   AD       4 120    0
 4 dealer 2D       6 120    0
 5 pone   AH       7 120    0
 6 dealer 2H       9 120    0
 7 pone   AS      10 120    0
 8 dealer 2S      12 121    0  1: last card 1

The deal is over: the dealer wins.
In the play you pegged 1, they 0.
";

const ACTS_BEFORE_A_KING: &str = " 1 pone   TC      10   0    0
 2 dealer TD      20   0    2  2: pair 2
 3 pone   9C      29   0    2
";

#[test]
fn writes_the_sheet_of_a_game(rt: HostRuntime) {
    let (text, is_cut) = sheet_of(&rt, NEAR, OPPONENT_LEADS_TO_NOTHING, Trouble::Never);
    same(&rt, text.as_str(), REACHED_SHEET);
    same(&rt, is_cut, false);
}

// A game is refused for this fault, and these acts are put beside the refusal.
fn has_acts(
    rt: &(impl Abort + AllocGlobal),
    problem: &str,
    game: &str,
    fault: GameFault,
    acts: &str,
) {
    let input = input(rt, problem, game);
    let played = played(rt, input.as_str());
    same(rt, replay(&played.problem, &played.game).err(), Some(fault));
    let refusal = Refusal::of_game(fault, played.first, &played.game);
    let mut sink = Counted::new(Tray::new(rt.alloc(), 7, Trouble::Never));
    let mut page = Printer {
        sink: &mut sink,
        is_cut: false,
    };
    assert!(rt; input.len() <= 1000);
    put_acts_beside(
        &mut page,
        Sections::Played,
        input.as_bytes(),
        &Reason::Refused(refusal),
    );
    same(
        rt,
        sink.into_inner().into_bytes().as_slice(),
        acts.as_bytes(),
    );
}

// The acts before the refused one, also if it is part of the opening.
#[test]
fn writes_the_acts_before_a_refusal(rt: HostRuntime) {
    let past_31 = GameFault::DoesNotFit(4);
    has_acts(&rt, TENS, PAST_31, past_31, ACTS_BEFORE_A_KING);
    has_acts(&rt, TENS, TAKES_THE_LEAD, GameFault::NotTurn(1), "");
    let lead = " 1 pone   2C       2   0    0\n";
    has_acts(&rt, BEGUN, DIAMOND_FIRST, GameFault::NotAsPlayed(2), lead);
}

// Nothing is written after a call that failed.
#[test]
fn a_failed_write_leaves_a_front(rt: HostRuntime) {
    for call in 1..40 {
        let trouble = Trouble::At(call, ErrorKind::Other);
        let (text, is_cut) = sheet_of(&rt, NEAR, OPPONENT_LEADS_TO_NOTHING, trouble);
        let found = (call, is_cut, is_front(text.as_str(), REACHED_SHEET));
        same(&rt, found, (call, true, true));
    }
}
