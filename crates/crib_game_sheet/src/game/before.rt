//! The acts of a game before the refused one.
ghost use Rattle.std.specs.Prelude.{◌≡◌, ◌≤◌, length};
ghost use Rattle.crib_run.specs.Prints.{Prints};
ghost use Rattle.crib_game_sheet.specs.ActsBefore.{acts_before, acts_beside, beginning, text_before};

use super::text::put_rows;
use arrayvec::ArrayVec;
use crib_game::{Game, GameFault, replay};
use crib_input::{Reason, Sections, played_of};
use crib_problem::Problem;
use crib_run::Page;
use crib_text::MAX_INPUT;

/// Puts the acts of an input's game before the refused one, if the input is refused and is to be a problem and a game.
/// If they aren't read, or no act is refused, it puts nothing. It needs no memory.
pub fn put_acts_beside<P: Page>(page: &mut P, sections: Sections, input: &[u8], reason: &Reason)
    requires { length input.now ≤ MAX_INPUT }
    ensures { Prints (acts_beside sections input.now reason.now) (P.stand page.old) (P.stand page.new) }
{
    if let (Sections::Played, Reason::Refused(_)) = (sections, reason)
        && let Ok(played) = played_of(input)
        && let Err(fault) = replay(&played.problem, &played.game)
    {
        put_before(page, &played.problem, &played.game, fault);
    }
}

// Puts the lines of the acts before the one that `fault` refuses, by its number, also if that act is part of the
// opening.
fn put_before<P: Page>(page: &mut P, problem: &Problem, game: &Game, fault: GameFault)
    ensures { Prints (text_before problem.now game.now fault) (P.stand page.old) (P.stand page.new) }
{
    let lead = problem.at_lead();
    let front = beginning(game, acts_before(fault));
    if let Ok(report) = replay(&lead, &front) {
        put_rows(page, &lead, &front, &report);
    }
}

// The number of acts before the refused one, and 0 if a card of the opponent is refused.
fn acts_before(fault: GameFault) -> usize
    ensures { result ≡ acts_before fault }
{
    // In a section that begins at line 0, act 1 is on line 4.
    fault.line(0, 255).saturating_sub(4) as usize
}

// The game with its first acts alone.
fn beginning(game: &Game, acts: usize) -> Game
    ensures { result ≡ beginning game.now acts }
{
    let all = game.acts.as_slice();
    let mut kept = ArrayVec::new();
    // As many acts as a game has fit.
    let _ = kept.try_extend_from_slice(&all[..acts.min(all.len())]);
    Game {
        opp: game.opp,
        acts: kept,
    }
}
