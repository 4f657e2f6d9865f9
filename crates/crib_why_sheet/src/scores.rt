//! The scores at the end of games.
ghost use Rattle.std.specs.Prelude.{◌≡◌};
ghost use Rattle.crib_why_sheet.specs.WhyPlay.{final_scores, spread_of, spread_with};

use crate::line::Spread;
use crib_cards::Scores;
use crib_game::{Game, Report, replay};
use crib_problem::Problem;

/// Returns the least and the most scores at the end of some games. A game that is refused has none.
pub(crate) fn spread_of(problem: &Problem, games: &[Game]) -> Option<Spread>
    ensures { result ≡ spread_of problem.now games.now }
{
    match games {
        [] => None,
        [game, others @ ..] => {
            let spread = spread_of(problem, others);
            match replay(problem, game) {
                Ok(report) => Some(spread_with(final_scores(&report), spread)),
                Err(_) => spread,
            }
        }
    }
}

// Returns the scores after the last counted hand.
fn final_scores(report: &Report) -> Scores
    ensures { result ≡ final_scores report.now }
{
    match report.show.as_slice().last() {
        Some(row) => row.scores,
        None => report.scores,
    }
}

fn spread_with(scores: Scores, spread: Option<Spread>) -> Spread
    ensures { result ≡ spread_with scores spread }
{
    match spread {
        None => Spread {
            least: scores,
            most: scores,
        },
        Some(spread) => Spread {
            least: Scores {
                owner: scores.owner.min(spread.least.owner),
                opponent: scores.opponent.min(spread.least.opponent),
            },
            most: Scores {
                owner: scores.owner.max(spread.most.owner),
                opponent: scores.opponent.max(spread.most.opponent),
            },
        },
    }
}
