//! Games in which the goal is missed with one turn more.
ghost use Rattle.std.specs.Prelude.{◌≡◌, ◌∷◌, MatchOption};
ghost use Rattle.crib_play.specs.declared.turns.Turn.TheVariants as turns;
ghost use Rattle.crib_play.specs.History.{event_of};
ghost use Rattle.crib_know.specs.Knowledge.{played_events};
ghost use Rattle.crib_know.specs.Hidden.{KnowsAfter};
ghost use Rattle.crib_sure.specs.Shows.{IsReachedBehind};
ghost use Rattle.crib_check.specs.Missed.{IsMissedWith};

use crate::deals::first_shortfall;
use crate::games::game_with;
use crib_cards::Act;
use crib_game::Game;
use crib_know::Know;
use crib_problem::Problem;
use crib_sure::Shows;

/// Returns a game in which the goal is missed with one turn after the opening, or `None` if each deal that agrees with
/// this turn reaches the goal. The deal must be done after the turn, and `know` is what the owner knows then.
///
/// Of a card of the opponent only the rank counts: in the game they may play another card of it.
pub fn missed_game(problem: &Problem, know: &Know, act: &Act) -> Option<Game>
    requires over { know.now.round.asked ≡ turns.Over }
    requires knows { KnowsAfter know.now problem.now (event_of act.now ∷ played_events problem.now) }
    ensures { MatchOption result (IsReachedBehind problem.now (event_of act.now ∷ played_events problem.now))
        (IsMissedWith problem.now act.now) }
{
    let mut shows = Shows::new(problem);
    let Some(dealt) = first_shortfall(problem, &mut shows, know) else {
        return None;
    };
    Some(game_with(problem, &dealt, act))
}
