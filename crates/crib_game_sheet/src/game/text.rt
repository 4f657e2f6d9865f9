//! The text of the sheet of a game.
ghost use Rattle.std.specs.Prelude.{◌≡◌, ◌≤◌, Ok, length};
ghost use Rattle.crib_game.specs.Replay.{replay_result};
ghost use Rattle.crib_run.specs.Prints.{Prints};
ghost use Rattle.crib_game_sheet.specs.GamePlay.{game_reasons};
ghost use Rattle.crib_game_sheet.specs.GameText.{outcome_text, over_text, played_text, reached_line};
ghost use Rattle.crib_game_sheet.specs.GameText.{rows_text, sheet_of, short_line, wins_line};

use super::acts::put_acts;
use super::counted::put_show;
use super::pegged::put_pegged;
use super::reasons::reasons_of;
use crate::heading::put_heading;
use crate::puts::puts;
use crib_cards::Side;
use crib_game::{Game, Report};
use crib_problem::{Goal, Problem};
use crib_run::{Page, put_cards, put_role};
use crib_show::Outcome;

/// Puts the sheet of a game with this report: the problem, a line for each act with the reasons of its points, each
/// counted hand with what counts in it, the outcome, and what both sides pegged. docs/GUIDE.md shows one. It needs no
/// memory.
pub fn put_game_sheet<P: Page>(page: &mut P, problem: &Problem, game: &Game, report: &Report)
    requires { replay_result problem.now game.now ≡ Ok report.now }
    ensures { Prints (sheet_of problem.now game.now.opp report.now (game_reasons problem.now game.now))
        (P.stand page.old) (P.stand page.new) }
{
    puts!(page: put_heading(problem) put_played(problem, game, report));
}

/// Puts what the sheet of a game with this report has below the position.
pub fn put_played<P: Page>(page: &mut P, problem: &Problem, game: &Game, report: &Report)
    requires { replay_result problem.now game.now ≡ Ok report.now }
    ensures { Prints (played_text problem.now game.now.opp report.now (game_reasons problem.now game.now))
        (P.stand page.old) (P.stand page.new) }
{
    let dealer = problem.dealer();
    puts!(page: b"The " put_role(dealer, Side::Opponent) b" holds" put_cards(&game.opp.hold)
        b" and threw" put_cards(&game.opp.throw) b".\n" b"\n # side   card count you they  points\n");
    put_rows(page, problem, game, report);
    put_show(page, problem, &game.opp, report.show.as_slice());
    put_outcome(page, dealer, problem.goal(), report.over);
    put_pegged(page, dealer.other(), report.rows.as_slice());
}

/// Puts the lines of the acts of a report with their reasons.
pub(super) fn put_rows<P: Page>(page: &mut P, problem: &Problem, game: &Game, report: &Report)
    requires { replay_result problem.now game.now ≡ Ok report.now }
    ensures { Prints (rows_text problem.now report.now (game_reasons problem.now game.now))
        (P.stand page.old) (P.stand page.new) }
{
    let reasons = reasons_of(report);
    let dealer = problem.dealer();
    puts!(page: put_acts(dealer, 1, dealer.other(), report.rows.as_slice(), reasons.as_slice()));
}

// Puts the line of the outcome, after an empty line.
fn put_outcome<P: Page>(page: &mut P, dealer: Side, goal: Goal, over: Option<Outcome>)
    ensures { Prints (outcome_text dealer goal over) (P.stand page.old) (P.stand page.new) }
{
    match over {
        None => page.put(b"\nThe deal isn't over yet.\n"),
        Some(outcome) => put_over(page, dealer, goal, outcome),
    }
}

// Puts how the deal ended, after an empty line.
fn put_over<P: Page>(page: &mut P, dealer: Side, goal: Goal, outcome: Outcome)
    ensures { Prints (over_text dealer goal outcome) (P.stand page.old) (P.stand page.new) }
{
    match outcome {
        Outcome::Reached => put_reached(page, dealer, goal),
        Outcome::Lost => put_wins(page, dealer, Side::Opponent),
        Outcome::Short => page.put(short_words(goal)),
    }
}

// Puts who wins, after an empty line.
fn put_wins<P: Page>(page: &mut P, dealer: Side, side: Side)
    ensures { Prints (wins_line dealer side) (P.stand page.old) (P.stand page.new) }
{
    puts!(page: b"\nThe deal is over: the " put_role(dealer, side) b" wins.\n");
}

// Returns that all is counted and a goal isn't reached, after an empty line.
fn short_words(goal: Goal) -> &'static [u8]
    ensures value { result.now ≡ short_line goal }
    ensures short { length result.now ≤ 48 }
{
    match goal {
        Goal::Win => b"\nThe deal is over: nobody has won yet.\n",
        Goal::Holes(_) | Goal::Stop => b"\nThe deal is over: you fall short of your goal.\n",
    }
}

// Puts that a goal is reached, after an empty line.
fn put_reached<P: Page>(page: &mut P, dealer: Side, goal: Goal)
    ensures { Prints (reached_line dealer goal) (P.stand page.old) (P.stand page.new) }
{
    match goal {
        Goal::Win => put_wins(page, dealer, Side::Owner),
        Goal::Holes(_) =>
            puts!(page: b"\nYou have reached your goal; the deal isn't counted further.\n"),
        Goal::Stop =>
            puts!(page: b"\nThe deal is over: you keep the " put_role(dealer, Side::Opponent)
            b" from winning.\n"),
    }
}
