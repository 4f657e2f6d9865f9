//! The head of a plan's sheet: the position, and whether the plan is sure.
ghost use Rattle.std.specs.Prelude.{◌≡◌, ◌≤◌, length};
ghost use Rattle.crib_run.specs.Prints.{Prints};
ghost use Rattle.crib_game.specs.Replay.{replay_result};
ghost use Rattle.crib_sheet.specs.PlanHead.{failing_line, game_lines, head_text, position_text, turn_lines};
ghost use Rattle.crib_sheet.specs.PlanHead.{why_text};

use crate::answer::PlanSheet;
use crate::verdict::figures::{put_beating, put_best};
use crib_cards::{Act, Side};
use crib_check::Verdict;
use crib_game::{Ending, Game, replay};
use crib_game_sheet::{put_heading, put_played};
use crib_plan::Plan;
use crib_plan_sheet::{put_now, put_stuck};
use crib_problem::Problem;
use crib_run::{Page, put_move, put_role};
use std::alloc::Allocator;

/// Puts the head of the sheet of a plan, by the verdict on it: the position, the turns that were played already and
/// what they led to, and that the plan is sure; or how many deals beat it, and the first game in which it fails.
pub(crate) fn put_head<A: Allocator, P: Page>(page: &mut P, sheet: &PlanSheet<A>)
    ensures { Prints (head_text sheet.now.problem sheet.now.plan sheet.now.verdict sheet.now.tally.open_deals
        sheet.now.tally.beaten sheet.now.hands sheet.now.best) (P.stand page.old) (P.stand page.new) }
{
    let problem = &sheet.problem;
    put_position(page, problem);
    match &sheet.verdict {
        Verdict::Holds => page.put(
            b"This plan is sure: it reaches your goal against every hand and every play.\n\n",
        ),
        Verdict::Fails(ending, game) => {
            put_beating(page, &sheet.tally, &sheet.hands);
            put_best(page, sheet.tally.beaten, sheet.best);
            page.put(failing_words(*ending));
            put_game(page, problem, game);
            put_why(page, problem, &sheet.plan, *ending, game);
            page.put(b"\nThe plan:\n\n");
        },
    }
}

// Puts the position at the first lead and now.
fn put_position<P: Page>(page: &mut P, problem: &Problem)
    ensures { Prints (position_text problem.now) (P.stand page.old) (P.stand page.new) }
{
    put_heading(page, problem);
    put_turns(page, problem.dealer(), problem.played());
    put_now(page, problem);
}

// Puts the sheet of a game but for the position, after an empty line. A refused game has none.
fn put_game<P: Page>(page: &mut P, problem: &Problem, game: &Game)
    ensures { Prints (game_lines problem.now game.now (replay_result problem.now game.now)) (P.stand page.old)
        (P.stand page.new) }
{
    if let Ok(report) = replay(problem, game) {
        page.put(b"\n");
        put_played(page, problem, game, &report);
    }
}

// Puts why the plan is stuck after a game, after an empty line, if that is the ending of the game.
fn put_why<A: Allocator, P: Page>(
    page: &mut P,
    problem: &Problem,
    plan: &Plan<A>,
    ending: Ending,
    game: &Game,
)
    ensures { Prints (why_text problem.now plan.now ending game.now) (P.stand page.old) (P.stand page.new) }
{
    if let Ending::Stuck = ending {
        page.put(b"\n");
        put_stuck(page, problem, plan, game.acts.as_slice());
    }
}

// Puts the lines of the opening.
fn put_turns<P: Page>(page: &mut P, dealer: Side, acts: &[Act])
    ensures { Prints (turn_lines dealer acts.now) (P.stand page.old) (P.stand page.new) }
{
    for act in acts {
        page.put(b"  ");
        put_role(page, dealer, act.side);
        page.put(b" ");
        put_move(page, act.what);
        page.put(b"\n");
    }
}

// Returns how the first failing game ends.
fn failing_words(ending: Ending) -> &'static [u8]
    ensures value { result.now ≡ failing_line ending }
    ensures short { length result.now ≤ 73 }
{
    match ending {
        Ending::Stuck => { b"In this game it states no card that you can play:\n" }
        Ending::Lost => b"In this game you lose:\n",
        Ending::Short => b"In this game you fall short of your goal:\n",
        Ending::Open | Ending::Reached => b"",
    }
}
