//! The reasons of the points in the play of a game.
ghost use Rattle.std.specs.Prelude.{◌≡◌, ◌+◌, ◌<◌, ◌≤◌, ◌++◌, length, map, Ok};
ghost use Rattle.crib_problem.specs.Setup.{Setup};
ghost use Rattle.crib_game.specs.declared.section.game.Game.{Game};
ghost use Rattle.crib_game.specs.declared.replaying.report.Row.{Row};
ghost use Rattle.crib_game.specs.Replay.{replay_result};
ghost use Rattle.crib_game_sheet.specs.GamePlay.{card_reasons_at, game_reasons, reason_if, reasons_points};
ghost use Rattle.crib_game_sheet.specs.Private.PlayWalk.{cards_with, row_pile, row_reasons};

use super::reason::PlayReason;
use arrayvec::ArrayVec;
use crib_cards::{Move, Rank};
use crib_game::{Report, Row};
use crib_play::{longest_alike, longest_run};

/// Why an act counts points: none of the six reasons twice. It is empty if the act counts none.
pub type PlayReasons = ArrayVec<PlayReason, 6>;

/// Returns why each act of a replayed game counts points, in the order of the rows of its report.
///
/// These are all its reasons by the rules. Their points add up to those of the row.
pub fn reasons_of(report: &Report) -> ArrayVec<PlayReasons, 32>
    ensures reasons { (problem : Setup) (game : Game) → replay_result problem game ≡ Ok report.now →
        map (λ reasons. reasons.items) result.items ≡ game_reasons problem game }
    ensures points { (problem : Setup) (game : Game) → replay_result problem game ≡ Ok report.now →
        map (λ reasons. reasons_points reasons.items) result.items
        ≡ map (λ (row : Row). row.points) report.now.rows.items }
{
    let mut play = PlaySoFar {
        pile: ArrayVec::new(),
        cards: 0,
    };
    let mut reasons = ArrayVec::new();
    for row in report.rows.as_slice() {
        reasons.push(play.take(row));
    }
    reasons
}

// The play so far.
#[derive(Drop)]
struct PlaySoFar {
    // The ranks of the cards since the last close, in the order of play.
    pile: ArrayVec<Rank, 32>,
    // The number of cards played, also before the last close.
    cards: u8,
}

impl PlaySoFar {
    // Makes the act of a row, and returns why it counts points.
    fn take(&mut self, row: &Row) -> PlayReasons
        requires pile { length self.old.pile.items < 32 }
        requires cards { self.old.cards < 32 }
        ensures reasons { result.items ≡ row_reasons self.old row.now }
        ensures pile { self.new.pile.items ≡ row_pile self.old row.now }
        ensures cards { self.new.cards ≡ cards_with self.old.cards row.now.act.what }
    {
        let mut reasons = PlayReasons::new();
        if let Move::Card(card) = row.act.what {
            self.pile.push(card.rank());
            reasons = card_reasons(self.cards, row.count, self.pile.as_slice());
            self.cards += 1;
            if row.count == 31 {
                self.pile.clear();
            }
        }
        if u16::from(row.points) > points_of(&reasons) {
            reasons.push(PlayReason::Go);
            self.pile.clear();
        }
        reasons
    }
}

// Why a card counts points, as the last card of a pile with this count. `before` is the number of cards played before
// it.
fn card_reasons(before: u8, count: u8, pile: &[Rank]) -> PlayReasons
    requires { length pile.now ≤ 32 }
    ensures reasons { result.items ≡ card_reasons_at before count pile.now }
    ensures few { length result.items ≤ 5 }
{
    let alike = longest_alike(pile) as u8;
    let run = longest_run(pile) as u8;
    let is_last = before == 7 && count != 31;
    let mut reasons = PlayReasons::new();
    push_if(&mut reasons, count == 15, PlayReason::Fifteen);
    push_if(&mut reasons, count == 31, PlayReason::ThirtyOne);
    push_if(&mut reasons, alike >= 2, PlayReason::Alike(alike));
    push_if(&mut reasons, run >= 3, PlayReason::Run(run));
    push_if(&mut reasons, is_last, PlayReason::LastCard);
    reasons
}

fn push_if(reasons: &mut PlayReasons, holds: bool, reason: PlayReason)
    requires { length reasons.old.items < 6 }
    ensures items { reasons.new.items ≡ reasons.old.items ++ reason_if holds reason }
    ensures len { length reasons.new.items ≤ length reasons.old.items + 1 }
{
    if holds {
        reasons.push(reason);
    }
}

// Returns the sum of the points of some reasons.
fn points_of(reasons: &PlayReasons) -> u16
    requires { length reasons.now.items ≤ 6 }
    ensures { result ≡ reasons_points reasons.now.items }
{
    reasons
        .iter()
        .map(|reason| u16::from(reason.points()))
        .sum()
}
