//! Runs of consecutive games that go on alike.
ghost use Rattle.std.specs.Prelude.{◌≡◌, ◌≤◌, length};
ghost use Rattle.crib_why_sheet.specs.Private.Runs.{run_len};

use crate::groups::go_on_alike;
use crib_game::Game;
use crib_problem::Problem;

/// Returns how many games the first run of some games has.
pub(crate) fn run_len(problem: &Problem, games: &[Game], turn: usize) -> usize
    ensures value { result ≡ run_len problem.now turn games.now }
    ensures range { result ≤ length games.now }
{
    let [first, others @ ..] = games else {
        return 0;
    };
    match others {
        [second, ..] if go_on_alike(problem, first, second, turn) => 1
            + run_len(problem, others, turn),
        _ => 1,
    }
}
