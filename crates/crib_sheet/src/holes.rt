//! How many holes are sure, for the problem that an input spells.
ghost use Rattle.std.specs.Prelude.{◌≤◌, IfErr, IfOk, length};
ghost use Rattle.crib_run.specs.Prints.{Prints};
ghost use Rattle.crib_run.specs.Reply.{IsOutcome};
ghost use Rattle.crib_sheet.specs.Holes.{AreAtZero, figure_line, hand_line, holes_sheet_reply, holes_text, parts_text};
ghost use Rattle.crib_sheet.specs.Holes.{not_exact_text, pegs_line, sure_text, turn_line, turn_lines, zero_text};
ghost use Rattle.crib_sheet.specs.Sheet.{SheetMakes};
ghost use Rattle.crib_sheet.specs.Told.{SheetTells};
ghost use Rattle.crib_tables.specs.Holes.{AreHoles};

use crate::answer::SheetJob;
use crib_cards::{Scores, Side};
use crib_game_sheet::put_how_many;
use crib_input::{FaultCause, Reason, problem_of};
use crib_problem::Problem;
use crib_run::{Page, put_move, put_small};
use crib_show::hand_points;
use crib_tables::{Holes, TurnHoles, holes_of};
use crib_text::MAX_INPUT;
use std::alloc::{AllocError, Allocator};

/// How many holes are sure. Nothing is allocated to send it.
#[derive(Drop)]
pub struct HolesSheet {
    pub problem: Problem,
    /// How many are sure at the scores of the problem.
    pub holes: Holes,
    /// The same with both scores 0 at the first lead, where nobody is at hole 121 in this deal.
    pub at_zero: Option<Holes>,
}

/// Returns how many holes are sure for the problem of an input. Otherwise it returns the reason why there is no answer:
/// the refusal of the input, or an allocation that failed.
pub(crate) fn holes_sheet<A: Allocator + Copy>(alloc: A, input: &[u8]) -> Result<HolesSheet, Reason>
    requires { length input.now ≤ MAX_INPUT }
    ensures outcome { IsOutcome holes_sheet_reply (SheetMakes SheetJob.Holes input.now) result }
    ensures told { IfErr result (SheetTells SheetJob.Holes input.now) }
{
    let problem = problem_of(input)?;
    match figures_of(alloc, &problem) {
        Ok((holes, at_zero)) => Ok(HolesSheet {
            problem,
            holes,
            at_zero,
        }),
        Err(_) => Err(Reason::Fault(FaultCause::NoMemory)),
    }
}

// Returns how many holes are sure at the scores of a problem, and at 0 to 0.
fn figures_of<A: Allocator + Copy>(
    alloc: A,
    problem: &Problem,
) -> Result<(Holes, Option<Holes>), AllocError>
    ensures { IfOk result (λ found. AreHoles problem.now found.0 × AreAtZero problem.now found.1) }
{
    let holes = holes_of(alloc, problem)?;
    let zero = Scores {
        owner: 0,
        opponent: 0,
    };
    match problem.with_scores(zero) {
        None => Ok((holes, None)),
        Some(other) => {
            let others = holes_of(alloc, &other)?;
            Ok((holes, Some(others)))
        }
    }
}

/// Puts how many holes are sure.
pub(crate) fn put_holes<P: Page>(page: &mut P, sheet: &HolesSheet)
    ensures { Prints (holes_sheet_reply sheet.now).output (P.stand page.old) (P.stand page.new) }
{
    match &sheet.at_zero {
        None => put_figures(page, &sheet.problem, &sheet.holes, &sheet.holes),
        Some(others) => put_figures(page, &sheet.problem, &sheet.holes, others),
    }
}

// Puts how many holes are sure, and at 0 to 0.
fn put_figures<P: Page>(page: &mut P, problem: &Problem, holes: &Holes, others: &Holes)
    ensures { Prints (holes_text problem.now holes.now others.now) (P.stand page.old) (P.stand page.new) }
{
    let hand = hand_points(&problem.hold(), problem.starter());
    put_pegs(page, problem, holes.pegs);
    put_sure(page, problem, hand, holes.holes, others.holes);
    put_hand(page, problem.dealer(), hand, others.holes);
    put_turns(page, holes.turns.as_slice(), others.turns.as_slice());
}

// Puts where the pegs are, if cards were played.
fn put_pegs<P: Page>(page: &mut P, problem: &Problem, pegs: Scores)
    ensures { Prints (pegs_line problem.now pegs) (P.stand page.old) (P.stand page.new) }
{
    if !problem.played().is_empty() {
        page.put(b"pegs now: owner ");
        put_small(page, pegs.owner);
        page.put(b", opponent ");
        put_small(page, pegs.opponent);
        page.put(b"\n");
    }
}

// Puts how many holes are sure, and how many others at 0 to 0.
fn put_sure<P: Page>(page: &mut P, problem: &Problem, hand: u8, holes: u8, others: u8)
    ensures { Prints (sure_text problem.now hand holes others) (P.stand page.old) (P.stand page.new) }
{
    if holes == others {
        page.put(b"sure: ");
        put_figure(page, problem.dealer(), hand, holes);
    } else {
        put_not_exact(page, problem, holes);
        put_figure(page, problem.dealer(), hand, others);
    }
}

// Puts how many holes are sure, and that others are at 0 to 0.
fn put_not_exact<P: Page>(page: &mut P, problem: &Problem, holes: u8)
    ensures { Prints (not_exact_text problem.now holes) (P.stand page.old) (P.stand page.new) }
{
    page.put(b"sure: ");
    put_how_many(page, holes, b"hole");
    page.put(b"\nnot exact: from ");
    put_small(page, problem.scores().owner);
    page.put(b" ");
    put_small(page, problem.scores().opponent);
    page.put(b" somebody may be at hole 121 before all is counted\nsure at 0 to 0: ");
}

// Puts so many holes, and how many of them the play and the show have.
fn put_figure<P: Page>(page: &mut P, dealer: Side, hand: u8, holes: u8)
    ensures { Prints (figure_line dealer hand holes) (P.stand page.old) (P.stand page.new) }
{
    put_how_many(page, holes, b"hole");
    put_parts(page, dealer, hand, holes);
    page.put(b"\n");
}

fn put_parts<P: Page>(page: &mut P, dealer: Side, hand: u8, holes: u8)
    ensures { Prints (parts_text dealer hand holes) (P.stand page.old) (P.stand page.new) }
{
    match dealer {
        Side::Opponent if hand <= holes => {
            page.put(b", ");
            put_small(page, holes - hand);
            page.put(b" in the play and ");
            put_small(page, hand);
            page.put(b" in the show");
        }
        _ => (),
    }
}

// Puts what the hand counts, if the line above doesn't say it.
fn put_hand<P: Page>(page: &mut P, dealer: Side, hand: u8, holes: u8)
    ensures { Prints (hand_line dealer hand holes) (P.stand page.old) (P.stand page.new) }
{
    match dealer {
        Side::Owner => {
            page.put(b"the hand counts ");
            put_small(page, hand);
            page.put(b"; the crib counts too and isn't known, so no figure for the play alone\n");
        }
        Side::Opponent => {
            if holes < hand {
                page.put(b"the hand counts ");
                put_small(page, hand);
                page.put(b"\n");
            }
        }
    }
}

// Puts a line for each turn. The others are the same turns at 0 to 0.
fn put_turns<P: Page>(page: &mut P, turns: &[TurnHoles], others: &[TurnHoles])
    ensures { Prints (turn_lines turns.now others.now) (P.stand page.old) (P.stand page.new) }
{
    match turns {
        [] => (),
        [turn, later @ ..] => match others {
            [] => (),
            [other, rest @ ..] => {
                put_turn(page, turn, other.holes);
                put_turns(page, later, rest);
            }
        },
    }
}

fn put_turn<P: Page>(page: &mut P, turn: &TurnHoles, others: u8)
    ensures { Prints (turn_line turn.now others) (P.stand page.old) (P.stand page.new) }
{
    page.put(b"with ");
    put_move(page, turn.act.what);
    page.put(b": ");
    put_how_many(page, turn.holes, b"hole");
    put_zero(page, turn.holes, others);
    page.put(b"\n");
}

// Puts how many holes are sure at 0 to 0, if they are others.
fn put_zero<P: Page>(page: &mut P, holes: u8, others: u8)
    ensures { Prints (zero_text holes others) (P.stand page.old) (P.stand page.new) }
{
    if holes != others {
        page.put(b", and ");
        put_small(page, others);
        page.put(b" at 0 to 0");
    }
}
