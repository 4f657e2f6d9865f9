//! The sheet of the game that an input spells.
ghost use Rattle.std.specs.Prelude.{◌≤◌, IfErr, length};
ghost use Rattle.crib_run.specs.Reply.{IsOutcome};
ghost use Rattle.crib_sheet.specs.Sheet.{SheetMakes, game_parts_reply};
ghost use Rattle.crib_sheet.specs.Told.{SheetTells};

use crate::answer::game::GameSheet;
use crate::answer::job::SheetJob;
use crib_game::replay;
use crib_input::{Reason, Refusal, played_of};
use crib_text::MAX_INPUT;

/// Returns the sheet of the game of an input, or its refusal. It needs no memory.
pub(crate) fn game_sheet(input: &[u8]) -> Result<GameSheet, Reason>
    requires { length input.now ≤ MAX_INPUT }
    ensures outcome { IsOutcome game_parts_reply (SheetMakes SheetJob.Game input.now) result }
    ensures told { IfErr result (SheetTells SheetJob.Game input.now) }
{
    let played = played_of(input)?;
    match replay(&played.problem, &played.game) {
        Ok(report) => Ok(GameSheet {
            problem: played.problem,
            game: played.game,
            report,
        }),
        Err(fault) => Err(Reason::Refused(Refusal::of_game(fault, played.first, &played.game))),
    }
}
