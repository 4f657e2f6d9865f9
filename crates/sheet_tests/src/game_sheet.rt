//! Tests of sheets of games.
use crib_game::replay;
use crib_game_sheet::put_game_sheet;
use crib_input::{Played, played_of};
use crib_run::Printer;
use crib_text::Counted;
use example_texts::joined;
use failing_devices::{Tray, Trouble};
use std::process::Abort;

mod game_sheets;
mod reasons;
mod shows;
mod widths;

/// An input of a problem and a game.
fn input(rt: &(impl Abort + AllocGlobal), problem: &str, game: &str) -> String {
    joined(rt.alloc(), &[problem, game]).expect(rt, "memory")
}

/// The problem and the game that this input spells.
fn played(rt: &impl Abort, input: &str) -> Played {
    let bytes = input.as_bytes();
    assert!(rt; bytes.len() <= 1000);
    played_of(bytes).expect(rt, "a problem and a game")
}

/// The sheet of a game that is accepted, and whether it is cut. No line has more than 78 columns.
fn sheet(rt: &(impl Abort + AllocGlobal), played: &Played, trouble: Trouble) -> (String, bool) {
    let report = replay(&played.problem, &played.game).expect(rt, "a report");
    let mut sink = Counted::new(Tray::new(rt.alloc(), 7, trouble));
    let mut page = Printer {
        sink: &mut sink,
        is_cut: false,
    };
    put_game_sheet(&mut page, &played.problem, &played.game, &report);
    let is_cut = page.is_cut;
    let text = String::from_utf8(sink.into_inner().into_bytes()).expect(rt, "text");
    for line in text.as_str().lines() {
        assert!(rt; line.len() <= 78);
    }
    (text, is_cut)
}

/// The sheet of the game that these texts spell.
fn sheet_of(
    rt: &(impl Abort + AllocGlobal),
    problem: &str,
    game: &str,
    trouble: Trouble,
) -> (String, bool) {
    let played = played(rt, input(rt, problem, game).as_str());
    sheet(rt, &played, trouble)
}
