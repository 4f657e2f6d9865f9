//! The sheet of a game as an answer.
ghost use Rattle.std.specs.Prelude.{◌≡◌, Ok};
ghost use Rattle.crib_game.specs.Replay.{replay_result};

use crib_game::{Game, Report};
use crib_problem::Problem;

/// The parts of the sheet of a game. Nothing is allocated to send it.
#[derive(Drop)]
pub struct GameSheet {
    pub problem: Problem,
    pub game: Game,
    /// What a replay of the game reports.
    pub report: Report,
    ghost replayed: { replay_result problem game ≡ Ok report },
}
