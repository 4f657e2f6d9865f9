//! The rows of games, and the lines above them.
ghost use Rattle.std.specs.Prelude.{◌≡◌, ◌+◌, ◌-◌, ◌*◌, ◌<◌, ◌≤◌, [], ◌∷◌, ◌++◌, flat_map, length, map, IfOk};
ghost use Rattle.crib_why_sheet.specs.WhyRows.{first_turn, lines_from, lines_of, next_lines, play_text, row_line};
ghost use Rattle.crib_why_sheet.specs.WhyRows.{runs_of, then_line, whatever_name, whatever_names, why_lines};
ghost use Rattle.crib_why_sheet.specs.WhyRows.{with_different};

use crate::groups::{
    all_go_on_alike, are_one_row, are_one_row_whatever, reads_like_any, turn_at, turns_from,
};
use crate::held::held_text;
use crate::line::{Columns, Text, WhyLine, append, text_of};
use crate::names::{joined, shown_names, with_turn, with_turns};
use crate::runs::run_len;
use crate::scores::spread_of;
use crib_game::Game;
use crib_problem::Problem;
use std::alloc::{AllocError, Allocator};

/// Returns the lines of games that refute every player of a problem: rows, and lines above those that begin alike.
/// Games that read like an earlier one are left out. Fails if an allocation fails.
pub fn why_lines<A: Allocator + Copy>(
    alloc: A,
    problem: &Problem,
    games: Vec<Game, A>,
) -> Result<Vec<WhyLine, A>, AllocError>
    ensures { IfOk result (λ lines. lines.items ≡ why_lines problem.now games.items) }
{
    let different = different_games(alloc, problem, games)?;
    lines_of(alloc, problem, different.as_slice())
}

// Returns the games that read like none before them.
fn different_games<A: Allocator>(
    alloc: A,
    problem: &Problem,
    games: Vec<Game, A>,
) -> Result<Vec<Game, A>, AllocError>
    ensures { IfOk result (λ kept. kept.items ≡ with_different problem.now [] games.items) }
{
    let mut kept = Vec::new(alloc);
    for game in games {
        if !reads_like_any(problem, &game, kept.as_slice()) {
            kept.push(game)?;
        }
    }
    Ok(kept)
}

// Returns the lines of games from the turns after the opening on.
fn lines_of<A: Allocator>(
    alloc: A,
    problem: &Problem,
    games: &[Game],
) -> Result<Vec<WhyLine, A>, AllocError>
    ensures { IfOk result (λ lines. lines.items ≡ lines_of problem.now games.now) }
{
    let mut lines = Vec::new(alloc);
    if !games.is_empty() {
        let opening = problem.played().len();
        add_lines(&mut lines, problem, games, opening, 0, &Text::new())?;
    }
    Ok(lines)
}

// Appends the lines of consecutive games from a turn on. Their turns before it are alike. `names` come before on the
// line, which is at this level.
#[cycle(lines)]
fn add_lines<A: Allocator>(
    lines: &mut Vec<WhyLine, A>,
    problem: &Problem,
    games: &[Game],
    turn: usize,
    level: u8,
    names: &Text,
) -> Result<(), AllocError>
    requires room { (turn ≤ 32) × (level ≤ turn) × (length names.now.items ≤ 9 * turn) }
    requires some { 0 < length games.now }
    ensures { IfOk result (λ _. lines.new.items
        ≡ lines.old.items ++ lines_from (32 - turn) problem.now turn level names.now.items games.now) }
{
    let first = turns_from(&games[0], turn);
    if turn == 32 {
        return add_each(lines, problem, games, level, names);
    }
    if are_one_row(problem, games, turn) {
        let names = with_turns(names, &problem.hold(), first);
        return add_row(lines, problem, games, level, &names);
    }
    if all_go_on_alike(problem, games, turn) {
        return add_next(lines, problem, games, turn, level, names);
    }
    if are_one_row_whatever(problem, games, turn) {
        let names = whatever_names(names, &shown_names(first));
        return add_row(lines, problem, games, level, &names);
    }
    if names.is_empty() {
        return add_runs(lines, problem, games, turn, level);
    }
    lines.push(then_line(level, names))?;
    add_runs(lines, problem, games, turn, level + 1)
}

// Appends the lines of each run of consecutive games that go on alike.
#[cycle(lines)]
fn add_runs<A: Allocator>(
    lines: &mut Vec<WhyLine, A>,
    problem: &Problem,
    games: &[Game],
    turn: usize,
    level: u8,
) -> Result<(), AllocError>
    requires { (turn < 32) × (level ≤ turn + 1) }
    ensures { IfOk result (λ _. lines.new.items ≡ lines.old.items
        ++ flat_map (λ run. next_lines (lines_from (31 - turn) problem.now (turn + 1) level) problem.now level [] run
        (first_turn turn run)) (runs_of problem.now turn games.now)) }
{
    let mut rest = games;
    while !rest.is_empty() {
        let (run, others) = rest.split_at(run_len(problem, rest, turn));
        add_next(lines, problem, run, turn, level, &Text::new())?;
        rest = others;
    }
    Ok(())
}

// Appends the lines of games that go on alike at a turn.
#[cycle(lines)]
fn add_next<A: Allocator>(
    lines: &mut Vec<WhyLine, A>,
    problem: &Problem,
    games: &[Game],
    turn: usize,
    level: u8,
    names: &Text,
) -> Result<(), AllocError>
    requires room { (turn < 32) × (level ≤ turn + 1) × (length names.now.items ≤ 9 * turn) }
    requires some { 0 < length games.now }
    ensures { IfOk result (λ _. lines.new.items ≡ lines.old.items
        ++ next_lines (lines_from (31 - turn) problem.now (turn + 1) level) problem.now level names.now.items games.now
        (first_turn turn games.now)) }
{
    let Some(act) = turn_at(&games[0], turn) else {
        return add_each(lines, problem, games, level, names);
    };
    let longer = with_turn(names, &problem.hold(), &act);
    add_lines(lines, problem, games, turn + 1, level, &longer)
}

// Appends a row for each game.
fn add_each<A: Allocator>(
    lines: &mut Vec<WhyLine, A>,
    problem: &Problem,
    games: &[Game],
    level: u8,
    names: &Text,
) -> Result<(), AllocError>
    requires { 4 * level + length names.now.items ≤ 512 }
    ensures { IfOk result (λ _. lines.new.items ≡ lines.old.items
        ++ map (λ game. row_line problem.now (game ∷ []) level names.now.items) games.now) }
{
    for index in 0..games.len() {
        add_row(lines, problem, &games[index..index + 1], level, names)?;
    }
    Ok(())
}

// Appends the row of some games.
fn add_row<A: Allocator>(
    lines: &mut Vec<WhyLine, A>,
    problem: &Problem,
    games: &[Game],
    level: u8,
    names: &Text,
) -> Result<(), AllocError>
    requires room { 4 * level + length names.now.items ≤ 512 }
    requires some { 0 < length games.now }
    ensures { IfOk result (λ _. lines.new.items
        ≡ lines.old.items ++ row_line problem.now games.now level names.now.items ∷ []) }
{
    lines.push(row_line(problem, games, level, names))?;
    Ok(())
}

// Returns the row of some games.
fn row_line(problem: &Problem, games: &[Game], level: u8, names: &Text) -> WhyLine
    requires room { 4 * level + length names.now.items ≤ 512 }
    requires some { 0 < length games.now }
    ensures { result ≡ row_line problem.now games.now level names.now.items }
{
    let play = play_text(level, names, b"");
    let Some(spread) = spread_of(problem, games) else {
        return WhyLine {
            play,
            columns: None,
        };
    };
    let held = held_text(problem, &games[0]);
    WhyLine {
        play,
        columns: Some(Columns { held, spread }),
    }
}

// Returns the line above some runs.
fn then_line(level: u8, names: &Text) -> WhyLine
    requires some { 0 < length names.now.items }
    requires room { 4 * level + length names.now.items ≤ 506 }
    ensures { result ∷ [] ≡ then_line level names.now.items }
{
    WhyLine {
        play: play_text(level, names, b", then"),
        columns: None,
    }
}

// Returns the play in a line at a level of the tree.
fn play_text(level: u8, names: &Text, end: &[u8]) -> Text
    requires { 4 * level + length names.now.items + length end.now ≤ 512 }
    ensures { result.items ≡ play_text level names.now.items end.now }
{
    let mut play = Text::new();
    for _step in 0..level {
        append(&mut play, b"    ");
    }
    append(&mut play, names.as_slice());
    append(&mut play, end);
    play
}

// Returns the names of a row that is the same whatever the owner plays.
fn whatever_names(names: &Text, shown: &Text) -> Text
    requires { length names.now.items + length shown.now.items ≤ 400 }
    ensures names { result.items ≡ whatever_names names.now.items shown.now.items }
    ensures len { length result.items ≤ length names.now.items + length shown.now.items + 30 }
{
    let mut longer = joined(names, whatever_name(names));
    if !shown.is_empty() {
        append(&mut longer, b", they");
        append(&mut longer, shown.as_slice());
    }
    longer
}

// Returns what a row says that is the same whatever the owner plays.
fn whatever_name(names: &Text) -> &'static [u8]
    ensures name { result.now ≡ whatever_name names.now.items }
    ensures short { length result.now ≤ 22 }
{
    if names.is_empty() {
        b"whatever you play"
    } else {
        b"then whatever you play"
    }
}
