//! The reasons of the points in the play of whole games.
use crate::game_sheet::{input, played};
use crate::same;
use crib_game::replay;
use crib_game_sheet::reasons_of;
use example_texts::games::*;
use example_texts::problems::*;
use std::process::Abort;

// Asserts the reasons of each row of a game.
fn has_reasons(rt: &(impl Abort + AllocGlobal), problem: &str, game: &str, wanted: &str) {
    let played = played(rt, input(rt, problem, game).as_str());
    let report = replay(&played.problem, &played.game).expect(rt, "a report");
    let found = reasons_of(&report);
    let text = format!(in rt.alloc(); "{found:?}").expect(rt, "memory");
    same(rt, text.as_str(), wanted);
}

// The go and the last card, the pair that ends the game, no last card at 31, and a run in a new count.
#[test]
fn names_the_reasons_of_points(rt: HostRuntime) {
    let wanted = "[[], [Alike(2)], [], [], [ThirtyOne], [], [], [], [Go], [LastCard]]";
    has_reasons(&rt, TENS, LAST_CARD, wanted);
    has_reasons(&rt, CLOSE, PAIRED, "[[], [Alike(2)]]");
    let wanted = "[[], [], [], [], [Go], [], [], [], [], [ThirtyOne]]";
    has_reasons(&rt, LAST_MAKES_31, MAKES_31, wanted);
    let wanted = "[[], [], [], [], [], [Go], [], [], [Run(3)], [Go]]";
    has_reasons(&rt, LAST_TWO, RUN_LOST, wanted);
}
