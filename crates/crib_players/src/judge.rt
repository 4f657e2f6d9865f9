//! Whether games refute every player.
ghost use Rattle.std.specs.Prelude.{◌≡◌, ◌↔◌, ◌≤◌, ◌<◌, ℕ, length, IsTrue};
ghost use Rattle.crib_game.specs.Replay.{report_of};
ghost use Rattle.crib_players.specs.Private.Judging.{IsAnswered, goes_on, has_each, is_begun, is_miss};
ghost use Rattle.crib_players.specs.Private.Judging.{is_played, may_follow, owners_card};
ghost use Rattle.crib_players.specs.Refutations.{HasEachCard, Refutes};

use crib_cards::{Act, Card, Move, Side};
use crib_game::{Game, Report, replay};
use crib_play::fits;
use crib_problem::Problem;
use crib_show::Outcome;

/// Returns whether these games refute every player: no player is sure of the goal, whatever they look at.
///
/// There must be a game. Each must be one that `replay` accepts, must be done, and must miss the goal. Wherever the
/// owner plays a card after the opening, some game must go on with each other card that they may play there.
pub fn refutes(problem: &Problem, games: &[Game]) -> bool
    ensures exact { IsTrue result ↔ Refutes problem.now games.now }
{
    for game in games {
        if !is_answered(problem, games, game) {
            return false;
        }
    }
    !games.is_empty()
}

// Whether the goal is missed in a game, and some game goes on with each other card of the owner.
fn is_answered(problem: &Problem, games: &[Game], game: &Game) -> bool
    ensures { IsTrue result ↔ IsAnswered problem.now games.now game.now }
{
    match replay(problem, game) {
        Ok(report) => is_miss(&report.over) && has_each_card(problem, games, game, &report),
        Err(_) => false,
    }
}

// Whether there is an outcome, and it is another than that the goal is reached.
fn is_miss(over: &Option<Outcome>) -> bool
    ensures { result ≡ is_miss over.now }
{
    match over {
        Some(Outcome::Lost | Outcome::Short) => true,
        Some(Outcome::Reached) | None => false,
    }
}

// Whether some game goes on with each card that the owner may play after the opening of a game with this report.
fn has_each_card(problem: &Problem, games: &[Game], game: &Game, report: &Report) -> bool
    requires { report.now ≡ report_of problem.now game.now }
    ensures { IsTrue result
        ↔ ((turn : ℕ) → length problem.now.played ≤ turn → HasEachCard problem.now games.now game.now turn) }
{
    for turn in problem.played().len()..report.rows.len() {
        if !has_each_card_at(problem, games, game, report, turn) {
            return false;
        }
    }
    true
}

// Whether some game goes on with each card that the owner may play at this turn of a game with this report.
fn has_each_card_at(
    problem: &Problem,
    games: &[Game],
    game: &Game,
    report: &Report,
    turn: usize,
) -> bool
    requires report { report.now ≡ report_of problem.now game.now }
    requires inside { turn < length report.now.rows.items }
    ensures { IsTrue result ↔ HasEachCard problem.now games.now game.now turn }
{
    let row = &report.rows[turn];
    match owners_card(&row.act) {
        Some(card) => {
            let count = row.count - card.rank().value();
            has_each(games, &problem.hold(), &game.acts[..turn], count)
        }
        None => true,
    }
}

// The card of an act of the owner.
fn owners_card(act: &Act) -> Option<Card>
    ensures { result ≡ owners_card act.now.side act.now.what }
{
    match act {
        Act {
            side: Side::Owner,
            what: Move::Card(card),
        } => Some(*card),
        _ => None,
    }
}

// Whether some game goes on with each card of a hold that may follow these acts at this count.
fn has_each(games: &[Game], hold: &[Card], before: &[Act], count: u8) -> bool
    ensures { result ≡ has_each games.now hold.now before.now count }
{
    hold.iter().all(|card| !may_follow(before, count, *card) || is_begun(games, before, *card))
}

// Whether a card is not played in these acts and fits at the count.
fn may_follow(acts: &[Act], count: u8, card: Card) -> bool
    ensures { result ≡ may_follow acts.now count card }
{
    !is_played(acts, card) && fits(card, count)
}

// Whether some act plays this card.
fn is_played(acts: &[Act], card: Card) -> bool
    ensures { result ≡ is_played acts.now card }
{
    acts.iter().any(|act| act.what == Move::Card(card))
}

// Whether one of the games begins with these acts and this card of the owner.
fn is_begun(games: &[Game], before: &[Act], card: Card) -> bool
    ensures { result ≡ is_begun games.now before.now card }
{
    games
        .iter()
        .any(|game| goes_on(game.acts.as_slice(), before, card))
}

// Whether acts begin with some others and go on with a card of the owner.
fn goes_on(acts: &[Act], before: &[Act], card: Card) -> bool
    ensures { result ≡ goes_on acts.now before.now card }
{
    let Some((act, acts)) = acts.split_first() else {
        return false;
    };
    match before.split_first() {
        None => act.side == Side::Owner && act.what == Move::Card(card),
        Some((first, before)) => first == act && goes_on(acts, before, card),
    }
}
