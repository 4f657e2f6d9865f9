//! The replay of a game against its problem.
ghost use Rattle.std.specs.Prelude.{◌≡◌, List, reverse, OnOk, OnErr};
ghost use Rattle.crib_cards.specs.declared.moves.Move.{Move};
ghost use Rattle.crib_problem.specs.Setup.{IsSetup, start_of};
ghost use Rattle.crib_game.specs.Replay.{IsRecordOf, act_rows, by_rules, full_with, replay_result};

use super::judge::{Follower, judge};
use super::remark::Remark;
use super::report::{Report, Row};
use crate::fault::GameFault;
use crate::section::Game;
use arrayvec::ArrayVec;
use crib_cards::{Act, Dealt, Scores};
use crib_problem::Problem;
use crib_show::Full;

/// Replays a game against its problem. Returns the report, or the first refusal (docs/FORMATS.md, "Which one is
/// printed").
///
/// It returns a report exactly when the opponent's six cards are a deal of the problem, the acts are the visible turns
/// of a legal record, and they begin with the opening. The opening is the visible turns that the problem lists as
/// played. The report has a row for each act, the hands that the show counts, the scores after the last act, and the
/// outcome of a deal that is done.
///
/// The first refusal is that of the first card of the opponent that is known or the same as an earlier one (40). If
/// there is none, it is that of the first act that is wrong. If there is none either, it is that of the first missing
/// act of the opening (47). If an act is wrong in several ways, the first of these is returned: it is not the turn of
/// the opening (47), it comes after the end (45), it is the other side's turn (44), the card is not held (41), the card
/// does not fit (42), it is a go while a card fits (43).
pub fn replay(problem: &Problem, game: &Game) -> Result<Report, GameFault>
    ensures legal { OnOk result ((played : List Move) × IsRecordOf problem.now game.now played) }
    ensures refused { OnErr result ((played : List Move) → IsRecordOf problem.now game.now played → ⊥) }
    ensures exact { result ≡ replay_result problem.now game.now }
    ensures setup { IsSetup problem.now }
{
    let mut follower = RowsSoFar {
        rows: ArrayVec::new(),
    };
    let walk = judge(problem, game, &mut follower)?;
    let (show, over) = walk.end(problem, &game.opp);
    Ok(Report {
        rows: follower.rows,
        show,
        scores: walk.round.scores(),
        over,
    })
}

// The rows of the acts so far. This follower has no plan, so no act strays.
#[derive(Drop)]
struct RowsSoFar {
    rows: ArrayVec<Row, 32>,
}

impl Follower for RowsSoFar {
    ghost judge_of = { λ first problem. by_rules problem };

    ghost has_followed = { λ first self problem before.
        self.rows.items ≡ reverse (act_rows (start_of problem) before) };

    fn remark(&self, played: Option<Act>, act: &Act) -> Remark {
        Remark::of(played, false, act)
    }

    fn take(&mut self, act: &Act, _is_played: bool, row: &Row) {
        self.rows.push(Row { act: *act, ..*row });
    }
}

/// Everything that the show of a deal depends on. `scores` are those after the play.
pub fn full_with(problem: &Problem, dealt: &Dealt, scores: Scores) -> Full
    ensures { result ≡ full_with problem.now dealt.now scores }
{
    Full {
        dealer: problem.dealer(),
        scores,
        target: problem.target(),
        starter: problem.starter(),
        own_hold: problem.hold(),
        own_throw: problem.thrown(),
        opp: *dealt,
        stop: problem.is_to_stop(),
    }
}
