//! Groups of games that read alike.
ghost use Rattle.std.specs.Prelude.{◌≡◌, ◌&&◌, ◌-◌, ◌≤◌, bytes_eq, length, slice_get};
ghost use Rattle.std.specs.Cmp.Lexicographic.{pointwise};
ghost use Rattle.std.specs.List.{list_all, list_any};
ghost use Rattle.crib_why_sheet.specs.WhyPlay.{are_alike, held_text, shown_names};
ghost use Rattle.crib_why_sheet.specs.WhyRows.{all_with_first, go_on_alike, held_alike, play_alike, show_alike};
ghost use Rattle.crib_why_sheet.specs.WhyRows.{reads_like, turns_from};

use crate::held::held_text;
use crate::names::{shown_names, turn_name};
use crib_cards::Act;
use crib_game::Game;
use crib_problem::Problem;

/// Whether some games are one row from an index on: all turns are alike, and what the opponent held reads the same.
pub(crate) fn are_one_row(problem: &Problem, games: &[Game], turn: usize) -> bool
    ensures { result ≡ (all_with_first (play_alike problem.now turn) games.now
        && all_with_first (held_alike problem.now) games.now) }
{
    all_play_alike(problem, games, turn) && all_held_alike(problem, games)
}

/// Whether some games are one row from an index on whatever the owner plays: the opponent shows the same ranks, and
/// what they held reads the same.
pub(crate) fn are_one_row_whatever(problem: &Problem, games: &[Game], turn: usize) -> bool
    ensures { result
        ≡ (all_with_first (show_alike turn) games.now && all_with_first (held_alike problem.now) games.now) }
{
    all_show_alike(games, turn) && all_held_alike(problem, games)
}

// Whether all turns of some games from an index on are alike.
fn all_play_alike(problem: &Problem, games: &[Game], turn: usize) -> bool
    ensures { result ≡ all_with_first (play_alike problem.now turn) games.now }
{
    match games {
        [] => true,
        [first, others @ ..] => have_turns(problem, turns_from(first, turn), others, turn),
    }
}

// Whether the turns of each game from an index on are like some turns.
fn have_turns(problem: &Problem, acts: &[Act], games: &[Game], turn: usize) -> bool
    ensures { result ≡ list_all (λ game. pointwise (are_alike problem.now) acts.now (turns_from turn game)) games.now }
{
    match games {
        [] => true,
        [game, others @ ..] => are_all_alike(problem, acts, turns_from(game, turn))
            && have_turns(problem, acts, others, turn),
    }
}

/// Whether a game reads like one of others: all turns after the opening are alike, and so is what the opponent held.
pub(crate) fn reads_like_any(problem: &Problem, game: &Game, others: &[Game]) -> bool
    ensures { result ≡ list_any (reads_like problem.now game.now) others.now }
{
    match others {
        [] => false,
        [other, others @ ..] => {
            reads_like(problem, game, other) || reads_like_any(problem, game, others)
        }
    }
}

// Whether a game reads like another one.
fn reads_like(problem: &Problem, game: &Game, other: &Game) -> bool
    ensures { result ≡ reads_like problem.now game.now other.now }
{
    let opening = problem.played().len();
    are_all_alike(
        problem,
        turns_from(game, opening),
        turns_from(other, opening),
    ) && held_text(problem, game).as_slice() == held_text(problem, other).as_slice()
}

/// Whether some games go on alike at an index, or all have no turn there.
pub(crate) fn all_go_on_alike(problem: &Problem, games: &[Game], turn: usize) -> bool
    ensures { result ≡ all_with_first (go_on_alike problem.now turn) games.now }
{
    match games {
        [] => true,
        [first, others @ ..] => go_on_as(problem, first, others, turn),
    }
}

// Whether each game goes on like the first one at an index.
fn go_on_as(problem: &Problem, first: &Game, games: &[Game], turn: usize) -> bool
    ensures { result ≡ list_all (go_on_alike problem.now turn first.now) games.now }
{
    match games {
        [] => true,
        [game, others @ ..] => {
            go_on_alike(problem, first, game, turn) && go_on_as(problem, first, others, turn)
        }
    }
}

// Whether the opponent shows the same ranks in some games from an index on.
fn all_show_alike(games: &[Game], turn: usize) -> bool
    ensures { result ≡ all_with_first (show_alike turn) games.now }
{
    match games {
        [] => true,
        [first, others @ ..] => show_each(
            shown_names(turns_from(first, turn)).as_slice(),
            others,
            turn,
        ),
    }
}

// Whether the opponent shows these ranks in each game from an index on.
fn show_each(shown: &[u8], games: &[Game], turn: usize) -> bool
    ensures { result ≡ list_all (λ game. bytes_eq shown.now (shown_names (turns_from turn game))) games.now }
{
    match games {
        [] => true,
        [game, others @ ..] => {
            shown == shown_names(turns_from(game, turn)).as_slice()
                && show_each(shown, others, turn)
        }
    }
}

// Whether what the opponent held reads the same in some games.
fn all_held_alike(problem: &Problem, games: &[Game]) -> bool
    ensures { result ≡ all_with_first (held_alike problem.now) games.now }
{
    match games {
        [] => true,
        [first, others @ ..] => hold_each(problem, held_text(problem, first).as_slice(), others),
    }
}

// Whether what the opponent held reads so in each game.
fn hold_each(problem: &Problem, held: &[u8], games: &[Game]) -> bool
    ensures { result ≡ list_all (λ game. bytes_eq held.now (held_text problem.now game)) games.now }
{
    match games {
        [] => true,
        [game, others @ ..] => {
            held == held_text(problem, game).as_slice() && hold_each(problem, held, others)
        }
    }
}

/// Whether two games go on alike at an index, or both have no turn there.
pub(crate) fn go_on_alike(problem: &Problem, game: &Game, other: &Game, turn: usize) -> bool
    ensures { result ≡ go_on_alike problem.now turn game.now other.now }
{
    match (turn_at(game, turn), turn_at(other, turn)) {
        (None, None) => true,
        (Some(act), Some(other)) => are_alike(problem, &act, &other),
        _ => false,
    }
}

/// Returns the turn at an index of a game, if there is one.
pub(crate) fn turn_at(game: &Game, turn: usize) -> Option<Act>
    ensures value { result ≡ slice_get game.now.acts.items turn }
{
    game.acts.as_slice().get(turn).copied()
}

/// Returns the turns of a game from an index on.
pub(crate) fn turns_from(game: &Game, turn: usize) -> &[Act]
    ensures value { result.now ≡ turns_from turn game.now }
    ensures few { length result.now ≤ 32 - turn }
{
    let acts = game.acts.as_slice();
    &acts[turn.min(acts.len())..]
}

// Whether the turns of two lists are alike, one after another.
fn are_all_alike(problem: &Problem, acts: &[Act], others: &[Act]) -> bool
    ensures { result ≡ pointwise (are_alike problem.now) acts.now others.now }
{
    match (acts, others) {
        ([], []) => true,
        ([act, acts @ ..], [other, others @ ..]) => {
            are_alike(problem, act, other) && are_all_alike(problem, acts, others)
        }
        _ => false,
    }
}

// Whether two turns have the same name.
fn are_alike(problem: &Problem, act: &Act, other: &Act) -> bool
    ensures { result ≡ are_alike problem.now act.now other.now }
{
    let hold = problem.hold();
    turn_name(&hold, act).as_slice() == turn_name(&hold, other).as_slice()
}
