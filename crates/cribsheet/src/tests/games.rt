//! The sheets of games.
use crate::tests::runs::{prints, refuses, writes};
use crib_run::Status;
use crib_sheet::SheetJob;
use example_texts::changes::CHANGED_GAMES;
use example_texts::games::{LAST_CARD, NO_TEN_PLAYED, PAIRED};
use example_texts::plans::TWOS;
use example_texts::problems::{CLOSE, TENS, TWELVE};

#[test]
fn prints_games(rt: HostRuntime) {
    prints(
        &rt,
        SheetJob::Game,
        &[TENS, LAST_CARD],
        &["last card 1"],
        Status::Yes,
    );
    prints(
        &rt,
        SheetJob::Game,
        &[CLOSE, PAIRED],
        &["pair 2"],
        Status::Yes,
    );
    prints(
        &rt,
        SheetJob::Game,
        &[TENS, NO_TEN_PLAYED],
        &["isn't over"],
        Status::Yes,
    );
}

// The numbers and the lines are those of `cribplan replay`.
#[test]
fn refuses_what_replay_refuses(rt: HostRuntime) {
    for change in CHANGED_GAMES {
        refuses(&rt, SheetJob::Game, &[TENS, LAST_CARD], change);
    }
    let no_card = (5, "hold 10S 9C 2C 8C", "refused line 5: 5\n");
    refuses(&rt, SheetJob::Game, &[TENS, LAST_CARD], no_card);
    let wanted = "refused line 8: 4\n";
    writes(
        &rt,
        SheetJob::Game,
        &[TWELVE, TWOS],
        wanted,
        Status::Refused,
    );
}
