//! The walk through the acts of a game: the first refusal, or the game after its last act.
ghost use Rattle.std.specs.Prelude.{◌≡◌, ◌<◌, ◌≤◌, slice_get, List, [], ◌∷◌, length, reverse, Some};
ghost use Rattle.std.specs.Prelude.{IfOk, IfErr, IfNone, OnOk};
ghost use Rattle.crib_cards.specs.Deals.{six_cards};
ghost use Rattle.crib_cards.specs.Start.{pone_of};
ghost use Rattle.crib_cards.specs.declared.moves.Act.{Act};
ghost use Rattle.crib_problem.specs.Setup.{Setup, IsSetup, known_cards, start_of, hands_of};
ghost use Rattle.crib_game.specs.Replay.{Judge, acts_back, acts_fault, deal_fault, few_fault, first_seen};
ghost use Rattle.crib_game.specs.Replay.{game_fault_by, next_played};
ghost use Rattle.crib_game.specs.Private.Walking.{CanBeJudged, IsJudged, IsJudgedGame, IsNext, record_after};

use super::judging::JudgedGame;
use super::remark::Remark;
use super::report::Row;
use crate::fault::GameFault;
use crate::section::Game;
use crib_cards::{Act, Card, Dealt};
use crib_problem::Problem;

/// A follower of the acts of a game, which keeps something of them. `first` is the follower before the first act.
pub(crate) trait Follower {
    // The judge of acts, for a follower that began as this one.
    ghost judge_of: { Self → Setup → Judge };

    // A follower that began as the first one has followed these acts. The list has the last act first.
    ghost has_followed: { Self → Self → Setup → List Act → Type 0 };

    // The remark on the next act. `played` is the turn of the opening with its number, if there is one.
    fn remark(&self, played: Option<Act>, act: &Act) -> Remark
        ensures { (first : Self) (problem : Setup) (before : List Act) → has_followed first self.now problem before
            → played ≡ next_played problem.played (pone_of (start_of problem)) (record_after problem before)
            → result ≡ judge_of first problem act.now (record_after problem before) };

    // Follows the next act, which has this row. A played act is one of the opening.
    fn take(&mut self, act: &Act, is_played: bool, row: &Row)
        requires { (first : Self) × (problem : Setup) × (before : List Act) × has_followed first self.old problem before
            × (length before < 32) }
        ensures { (first : Self) (problem : Setup) (before : List Act) → has_followed first self.old problem before
            → IsNext problem before act.now is_played row.now
            → has_followed first self.new problem (act.now ∷ before) };
}

// Judges a game. Returns it after its last act, or the first refusal: that of a card of the opponent, that of an act,
// or that of the first missing act of the opening. The follower returns the remark on each act.
pub(crate) fn judge<F: Follower>(
    problem: &Problem,
    game: &Game,
    follower: &mut F,
) -> Result<JudgedGame, GameFault>
    requires { F.has_followed follower.old follower.old problem.now [] }
    ensures setup { IsSetup problem.now }
    ensures refused { IfErr result (λ fault.
        game_fault_by (F.judge_of follower.old problem.now) problem.now game.now ≡ Some fault) }
    ensures judged { IfOk result (IsJudgedGame (F.judge_of follower.old problem.now) problem.now game.now) }
    ensures followed { OnOk result (F.has_followed follower.old follower.new problem.now (acts_back game.now)) }
{
    if let Some(fault) = deal_fault(problem, &game.opp) {
        return Err(fault);
    }
    let acts = game.acts.as_slice();
    let walk = judge_acts(problem, &game.opp, acts, follower)?;
    match few_fault(problem.played(), acts) {
        Some(fault) => Err(fault),
        None => Ok(walk),
    }
}

// Judges the acts of a game whose six cards are not refused. Returns it after its last act, or the first refusal.
fn judge_acts<F: Follower>(
    problem: &Problem,
    dealt: &Dealt,
    acts: &[Act],
    follower: &mut F,
) -> Result<JudgedGame, GameFault>
    requires cards { CanBeJudged problem.now dealt.now }
    requires few { length acts.now ≤ 32 }
    requires follower { F.has_followed follower.old follower.old problem.now [] }
    ensures refused { IfErr result (λ fault.
        acts_fault (F.judge_of follower.old problem.now) (start_of problem.now) (hands_of problem.now dealt.now)
        (reverse acts.now) ≡ Some fault) }
    ensures judged { IfOk result (λ walk.
        IsJudged (F.judge_of follower.old problem.now) (start_of problem.now) (hands_of problem.now dealt.now) walk
        (reverse acts.now)) }
    ensures followed { OnOk result (F.has_followed follower.old follower.new problem.now (reverse acts.now)) }
{
    let mut walk = JudgedGame::new(problem, dealt);
    let mut number = 0;
    for act in acts {
        let played = played_at(problem, number);
        let is_played = played.is_some();
        let remark = follower.remark(played, act);
        number += 1;
        if let Some(fault) = walk.fault(act, number, remark) {
            return Err(fault);
        }
        follower.take(act, is_played, &walk.take(act));
    }
    Ok(walk)
}

// The turn of the opening after `acts` acts, if there is one.
fn played_at(problem: &Problem, acts: u8) -> Option<Act>
    ensures { result ≡ slice_get problem.now.played acts }
{
    problem.played().get(usize::from(acts)).copied()
}

// The refusal of a game that has fewer acts than the opening: that of the first missing act.
fn few_fault(played: &[Act], acts: &[Act]) -> Option<GameFault>
    requires { length acts.now ≤ 32 }
    ensures { result ≡ few_fault played.now acts.now }
{
    if acts.len() < played.len() {
        Some(GameFault::NotAsPlayed(acts.len() as u8 + 1))
    } else {
        None
    }
}

// The refusal of the first of the opponent's six cards that the owner knows or that is the same as an earlier one.
fn deal_fault(problem: &Problem, dealt: &Dealt) -> Option<GameFault>
    ensures fault { result ≡ deal_fault (first_seen (known_cards problem.now) 1 (six_cards dealt.now)) }
    ensures setup { IsSetup problem.now }
    ensures cards { IfNone result (CanBeJudged problem.now dealt.now) }
{
    let mut seen = problem.known();
    let mut number = 0;
    for card in six_cards(dealt) {
        number += 1;
        if !seen.insert(card) {
            return Some(GameFault::NotUnseen(number));
        }
    }
    None
}

// The opponent's hold, and then their throw.
fn six_cards(dealt: &Dealt) -> [Card; 6]
    ensures cards { result ≡ six_cards dealt.now }
    ensures held { length dealt.now.hold ≡ 4 }
    ensures thrown { length dealt.now.throw ≡ 2 }
{
    let [first, second, third, fourth] = dealt.hold;
    let [fifth, sixth] = dealt.throw;
    [first, second, third, fourth, fifth, sixth]
}
