//! The order of the show, and the outcome of a deal.
ghost use Rattle.std.specs.Prelude.{◌≡◌, ◌++◌};
ghost use Rattle.crib_cards.specs.Sides.{are_decided};
ghost use Rattle.crib_cards.specs.Start.{hand_of};
ghost use Rattle.crib_show.specs.Outcome.{holds_of, no_row, order_of, outcome_at};
ghost use Rattle.crib_show.specs.Outcome.{outcome_of, show_of};
ghost use Rattle.crib_show.specs.Show.{crib_points, hand_points};

use crate::deals::Full;
use crate::show::points::{crib_points, hand_points};
use arrayvec::ArrayVec;
use crib_cards::{GAME_HOLE, Scores, Side};

/// How a deal that is done ends for the owner (docs/RULES.md, "The end").
#[derive(Clone, Copy, PartialEq, Eq, Debug)]
pub enum Outcome {
    /// The owner is at the target, or the goal is `stop` and nobody is at 121 after the show.
    Reached,
    /// The opponent is at 121.
    Lost,
    /// The show is over, the owner is not at the target, the opponent is not at 121, and the goal is not `stop`.
    Short,
}

/// A hand or crib that the show counts.
#[derive(Clone, Copy, PartialEq, Eq, Debug)]
pub struct ShowRow {
    /// Whether it is the crib and not a hand.
    pub crib: bool,
    /// The side that gets the points.
    pub side: Side,
    /// Its points, uncapped even if they lead past hole 121.
    pub points: u8,
    /// The scores after it in holes, capped at 121.
    pub scores: Scores,
}

impl Default for ShowRow {
    ghost is_default = { λ row. row ≡ no_row };

    /// The owner's hand with no points. It fills the unused entries of a list.
    fn default() -> Self {
        ShowRow {
            crib: false,
            side: Side::Owner,
            points: 0,
            scores: Scores {
                owner: 0,
                opponent: 0,
            },
        }
    }
}

/// The outcome of a deal whose play is over.
///
/// The pone's hand, the dealer's hand and the crib of both throws are counted in this order, until the owner is at the
/// target or the opponent at 121.
pub fn settle(full: &Full) -> Outcome
    ensures { result ≡ outcome_of full.now }
{
    outcome_with(full, show_rows(full).as_slice())
}

/// The outcome of a deal whose play is over, from the rows of its show.
pub fn outcome_with(full: &Full, rows: &[ShowRow]) -> Outcome
    requires { rows.now ≡ show_of full.now }
    ensures { result ≡ outcome_of full.now }
{
    let scores = match rows.last() {
        Some(row) => row.scores,
        None => full.scores,
    };
    outcome_at(full, scores)
}

/// The hands that the show counts, in order: the pone's, the dealer's, and the crib of both throws. The one that
/// decides is the last. The list is empty if the scores after the play decide.
pub fn show_rows(full: &Full) -> ArrayVec<ShowRow, 3>
    ensures { result.items ≡ show_of full.now }
{
    let mut rows = ArrayVec::new();
    let mut scores = full.scores;
    for counted in show_order(full) {
        let (crib, side, points) = counted;
        if scores.are_decided(full.target) {
            break;
        }
        scores = scores.with(side, points);
        rows.push(ShowRow {
            crib,
            side,
            points,
            scores,
        });
    }
    rows
}

// The order of the show: the pone's hand, the dealer's hand, the dealer's crib. Each has whether it is the crib, whose
// it is, and its points.
fn show_order(full: &Full) -> [(bool, Side, u8); 3]
    ensures { result ≡ order_of full.now }
{
    let pone = full.dealer.other();
    [
        (false, pone, points_of_hand(full, pone)),
        (false, full.dealer, points_of_hand(full, full.dealer)),
        (true, full.dealer, points_of_crib(full)),
    ]
}

// The points of the hand of a side.
fn points_of_hand(full: &Full, side: Side) -> u8
    ensures { result ≡ hand_points (hand_of (holds_of full.now) side) full.now.starter }
{
    let hold = match side {
        Side::Owner => &full.own_hold,
        Side::Opponent => &full.opp.hold,
    };
    hand_points(hold, full.starter)
}

// The points of the crib of both throws.
fn points_of_crib(full: &Full) -> u8
    ensures { result ≡ crib_points (full.now.own_throw ++ full.now.opp.throw) full.now.starter }
{
    let [first, second] = full.own_throw;
    let [third, fourth] = full.opp.throw;
    crib_points(&[first, second, third, fourth], full.starter)
}

// The outcome at these scores, when nothing more is counted.
fn outcome_at(full: &Full, scores: Scores) -> Outcome
    ensures { result ≡ outcome_at full.now.target full.now.stop scores }
{
    if scores.owner >= full.target {
        Outcome::Reached
    } else if scores.opponent >= GAME_HOLE {
        Outcome::Lost
    } else if full.stop {
        Outcome::Reached
    } else {
        Outcome::Short
    }
}
