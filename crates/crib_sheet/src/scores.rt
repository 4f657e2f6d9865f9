//! At which scores turns are sure, or a plan is, for the problem that an input spells.
ghost use Rattle.std.specs.Prelude.{◌≡◌, ◌<◌, ◌≤◌, ◌++◌, IfErr, codes, flat_map, length, nat_lt};
ghost use Rattle.std.specs.List.{list_all, list_any};
ghost use Rattle.crib_cards.specs.Words.{side_word};
ghost use Rattle.crib_text.specs.Spelling.{line_bytes};
ghost use Rattle.crib_problem.specs.Spelling.{goal_words};
ghost use Rattle.crib_run.specs.Prints.{Prints};
ghost use Rattle.crib_run.specs.Reply.{IsOutcome};
ghost use Rattle.crib_sheet.specs.Scores as spec;
ghost use Rattle.crib_sheet.specs.Scores.{above_text, blank_line, blanks_before, cards_line, columns_text, count_line};
ghost use Rattle.crib_sheet.specs.Scores.{digit_text, digits_line, mark_text, marks_text, row_text, scores_reply};
ghost use Rattle.crib_sheet.specs.Scores.{scores_text, sides_line, turn_text, turns_line};
ghost use Rattle.crib_sheet.specs.Sheet.{SheetMakes};
ghost use Rattle.crib_sheet.specs.Told.{SheetTells};

use crate::answer::SheetJob;
use crate::refutation::put_actor;
use crib_cards::{Act, Side};
use crib_input::{FaultCause, Reason, problem_of};
use crib_play::Turn;
use crib_problem::{Goal, Problem};
use crib_run::{Page, put_card, put_cards, put_move, put_small};
use crib_tables::{Mark, Row, ScoreTable, scores_of};
use crib_text::MAX_INPUT;
use std::alloc::Allocator;

/// At which scores turns are sure, or a plan is. Nothing is allocated to send it.
#[derive(Drop)]
pub struct ScoreSheet {
    pub problem: Problem,
    pub table: ScoreTable,
}

/// Returns what is sure at the scores around those of the problem of an input. Otherwise it returns the reason why
/// there is no answer: the refusal of the input, or an allocation that failed.
pub(crate) fn score_sheet<A: Allocator + Copy>(alloc: A, input: &[u8]) -> Result<ScoreSheet, Reason>
    requires { length input.now ≤ MAX_INPUT }
    ensures outcome { IsOutcome scores_reply (SheetMakes SheetJob.Scores input.now) result }
    ensures told { IfErr result (SheetTells SheetJob.Scores input.now) }
{
    let problem = problem_of(input)?;
    match scores_of(alloc, &problem) {
        Ok(table) => Ok(ScoreSheet { problem, table }),
        Err(_) => Err(Reason::Fault(FaultCause::NoMemory)),
    }
}

/// Puts the table and what is above it.
pub(crate) fn put_scores<P: Page>(page: &mut P, sheet: &ScoreSheet)
    ensures { Prints (scores_text sheet.now.problem sheet.now.table) (P.stand page.old) (P.stand page.new) }
{
    put_above(page, &sheet.problem, &sheet.table);
    put_columns(page, sheet.table.columns.as_slice());
    put_rows(page, sheet.table.rows.as_slice());
}

// Puts the lines above the table.
fn put_above<P: Page>(page: &mut P, problem: &Problem, table: &ScoreTable)
    ensures { Prints (above_text problem.now table.now) (P.stand page.old) (P.stand page.new) }
{
    let acts = problem.played();
    page.put(count_words(table.turn, acts.is_empty()));
    put_cards_line(page, problem);
    put_turns_line(page, acts);
    page.put(sides_words(acts.is_empty()));
    put_blank_line(page, table.rows.as_slice());
    page.put(b"\n");
}

// Returns what the marks count.
fn count_words(turn: Turn, is_lead: bool) -> &'static [u8]
    ensures value { result.now ≡ count_line turn is_lead }
    ensures short { length result.now ≤ 80 }
{
    match turn {
        Turn::Owner => if is_lead {
            b"Cards that are sure to lead: a digit is how many, and . is none.\n"
        } else {
            b"Turns that are sure now: a digit is how many, and . is none.\n"
        },
        Turn::Opponent | Turn::Over => if is_lead {
            b"Scores at which a plan is sure before the lead: + is yes, and . is no.\n"
        } else {
            b"Scores at which a plan is sure now: + is yes, and . is no.\n"
        },
    }
}

// Puts the cards, the dealer and the goal.
fn put_cards_line<P: Page>(page: &mut P, problem: &Problem)
    ensures { Prints (cards_line problem.now) (P.stand page.old) (P.stand page.new) }
{
    page.put(b"hold");
    put_cards(page, &problem.hold());
    page.put(b", throw");
    put_cards(page, &problem.thrown());
    page.put(b", starter");
    put_card(page, problem.starter());
    page.put(b", dealer ");
    put_side(page, problem.dealer());
    page.put(b", goal ");
    put_goal(page, problem.goal());
    page.put(b"\n");
}

fn put_side<P: Page>(page: &mut P, side: Side)
    ensures { Prints (side_word side) (P.stand page.old) (P.stand page.new) }
{
    match side {
        Side::Owner => page.put(b"owner"),
        Side::Opponent => page.put(b"opponent"),
    }
}

// Puts a goal as in the line `goal`.
fn put_goal<P: Page>(page: &mut P, goal: Goal)
    ensures { Prints (line_bytes (goal_words goal)) (P.stand page.old) (P.stand page.new) }
{
    match goal {
        Goal::Win => page.put(b"win"),
        Goal::Holes(holes) => {
            page.put(b"holes ");
            put_small(page, holes);
        }
        Goal::Stop => page.put(b"stop"),
    }
}

// Puts the turns that were played, if there are any.
fn put_turns_line<P: Page>(page: &mut P, acts: &[Act])
    ensures { Prints (turns_line acts.now) (P.stand page.old) (P.stand page.new) }
{
    match acts {
        [] => (),
        [act, others @ ..] => {
            page.put(b"played ");
            put_turn(page, act);
            put_more_turns(page, others);
            page.put(b"\n");
        }
    }
}

// Puts turns, each after a comma.
fn put_more_turns<P: Page>(page: &mut P, acts: &[Act])
    ensures { Prints (flat_map (λ act. codes ", " ++ turn_text act) acts.now) (P.stand page.old) (P.stand page.new) }
{
    for act in acts {
        page.put(b", ");
        put_turn(page, act);
    }
}

fn put_turn<P: Page>(page: &mut P, act: &Act)
    ensures { Prints (turn_text act.now) (P.stand page.old) (P.stand page.new) }
{
    put_actor(page, act.side);
    put_move(page, act.what);
}

// Returns where the scores are, and of which moment.
fn sides_words(is_lead: bool) -> &'static [u8]
    ensures value { result.now ≡ sides_line is_lead }
    ensures short { length result.now ≤ 80 }
{
    if is_lead {
        b"The owner's score is at the side, the opponent's at the top.\n"
    } else {
        b"The owner's score at the first lead is at the side, the opponent's at the top.\n"
    }
}

// Puts what a blank is, if there is one.
fn put_blank_line<P: Page>(page: &mut P, rows: &[Row])
    ensures { Prints (blank_line rows.now) (P.stand page.old) (P.stand page.new) }
{
    if some_are_impossible(rows) {
        page.put(b"A blank is a score that the goal or the turns can't have.\n");
    }
}

fn some_are_impossible(rows: &[Row]) -> bool
    ensures { result ≡ list_any spec.has_impossible rows.now }
{
    rows.iter().any(|row| has_impossible(row))
}

fn has_impossible(row: &Row) -> bool
    ensures { result ≡ spec.has_impossible row.now }
{
    row.marks.as_slice().iter().any(|mark| is_impossible(*mark))
}

fn is_impossible(mark: Mark) -> bool
    ensures { result ≡ spec.is_impossible mark }
{
    match mark {
        Mark::Impossible => true,
        Mark::Turns(_) | Mark::Plan(_) => false,
    }
}

// Puts the scores at the top, digit below digit.
fn put_columns<P: Page>(page: &mut P, scores: &[u8])
    ensures { Prints (columns_text scores.now) (P.stand page.old) (P.stand page.new) }
{
    put_digits(page, 100, 100, scores);
    put_digits(page, 10, 10, scores);
    put_digits(page, 0, 1, scores);
}

// Puts a line with the digit of each score at a place, unless each score is less than `least`.
fn put_digits<P: Page>(page: &mut P, least: u8, place: u8, scores: &[u8])
    requires { 0 < place }
    ensures { Prints (digits_line least place scores.now) (P.stand page.old) (P.stand page.new) }
{
    if !are_below(least, scores) {
        page.put(b"   ");
        put_each_digit(page, least, place, scores);
        page.put(b"\n");
    }
}

fn are_below(least: u8, scores: &[u8]) -> bool
    ensures { result ≡ list_all (λ score. nat_lt score least) scores.now }
{
    scores.iter().all(|score| *score < least)
}

fn put_each_digit<P: Page>(page: &mut P, least: u8, place: u8, scores: &[u8])
    requires { 0 < place }
    ensures { Prints (flat_map (digit_text least place) scores.now) (P.stand page.old) (P.stand page.new) }
{
    for score in scores {
        put_digit(page, least, place, *score);
    }
}

fn put_digit<P: Page>(page: &mut P, least: u8, place: u8, score: u8)
    requires { 0 < place }
    ensures { Prints (digit_text least place score) (P.stand page.old) (P.stand page.new) }
{
    if score < least {
        page.put(b"  ");
    } else {
        page.put(b" ");
        put_small(page, score / place % 10);
    }
}

// Puts the line of each row.
fn put_rows<P: Page>(page: &mut P, rows: &[Row])
    ensures { Prints (flat_map row_text rows.now) (P.stand page.old) (P.stand page.new) }
{
    for row in rows {
        put_row(page, row);
    }
}

fn put_row<P: Page>(page: &mut P, row: &Row)
    ensures { Prints (row_text row.now) (P.stand page.old) (P.stand page.new) }
{
    put_blanks(page, row.owner);
    put_small(page, row.owner);
    put_marks(page, row.marks.as_slice());
    page.put(b"\n");
}

// Puts the blanks before a number in three columns.
fn put_blanks<P: Page>(page: &mut P, number: u8)
    ensures { Prints (blanks_before number) (P.stand page.old) (P.stand page.new) }
{
    if number < 10 {
        page.put(b"  ");
    } else if number < 100 {
        page.put(b" ");
    }
}

// Puts marks, each after a space, up to the last that is no blank.
fn put_marks<P: Page>(page: &mut P, marks: &[Mark])
    ensures { Prints (marks_text marks.now) (P.stand page.old) (P.stand page.new) }
{
    match marks {
        [] => (),
        [mark, others @ ..] => {
            if !are_impossible(marks) {
                page.put(b" ");
                put_mark(page, *mark);
                put_marks(page, others);
            }
        }
    }
}

fn are_impossible(marks: &[Mark]) -> bool
    ensures { result ≡ list_all spec.is_impossible marks.now }
{
    marks.iter().all(|mark| is_impossible(*mark))
}

fn put_mark<P: Page>(page: &mut P, mark: Mark)
    ensures { Prints (mark_text mark) (P.stand page.old) (P.stand page.new) }
{
    match mark {
        Mark::Impossible => page.put(b" "),
        Mark::Turns(0) | Mark::Plan(false) => page.put(b"."),
        Mark::Turns(count) => put_small(page, count),
        Mark::Plan(true) => page.put(b"+"),
    }
}
