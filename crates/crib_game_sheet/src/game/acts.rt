//! The lines of acts, with the reasons of their points.
ghost use Rattle.std.specs.Prelude.{◌≡◌, ◌+◌, ◌≤◌, length, map, flat_map};
ghost use Rattle.crib_board.specs.Board.{left_in, right_in};
ghost use Rattle.crib_run.specs.Pieces.{role_word};
ghost use Rattle.crib_run.specs.Prints.{Prints};
ghost use Rattle.crib_game_sheet.specs.GameText.{act_lines, act_text, last_after, next_reason};
ghost use Rattle.crib_game_sheet.specs.GameText.{points_text, reason_text, reason_word, run_word};

use super::reason::PlayReason;
use super::reasons::PlayReasons;
use crate::puts::puts;
use crib_cards::{Move, Side};
use crib_game::Row;
use crib_run::{Page, put_move, put_role, put_small};
use itoa::Buffer;

/// Puts a line for each act with its reasons. The numbers begin at `number`, and `last` is the side that played the
/// last card before these acts.
#[tactic(auto, unfolding(crate::specs::GameText::act_lines))]
pub(crate) fn put_acts<P: Page>(
    page: &mut P,
    dealer: Side,
    number: u8,
    last: Side,
    rows: &[Row],
    reasons: &[PlayReasons],
)
    requires { number + length rows.now ≤ 255 }
    ensures { Prints (act_lines dealer number last rows.now (map (λ why. why.items) reasons.now))
        (P.stand page.old) (P.stand page.new) }
{
    let Some((row, others)) = rows.split_first() else {
        return;
    };
    let Some((why, more)) = reasons.split_first() else {
        return;
    };
    let last = last_after(row.act.side, row.act.what, last);
    puts!(page: put_act(dealer, number, row) put_points(dealer, last, row, why.as_slice()) b"\n"
        put_acts(dealer, number + 1, last, others, more));
}

/// Returns the side that played the last card after an act.
pub(super) fn last_after(side: Side, what: Move, last: Side) -> Side
    ensures { result ≡ last_after side what last }
{
    match what {
        Move::Card(_) => side,
        Move::Go => last,
    }
}

// Puts the columns of an act.
fn put_act<P: Page>(page: &mut P, dealer: Side, number: u8, row: &Row)
    ensures { Prints (act_text dealer number row.now) (P.stand page.old) (P.stand page.new) }
{
    puts!(page: put_right(2, number) b" " put_role_column(dealer, row.act.side) b" " put_move(row.act.what)
        b"      " put_right(2, row.count) b" " put_right(3, row.scores.owner) b"  " put_right(3, row.scores.opponent));
}

// Puts a side's word, left-aligned in six columns.
fn put_role_column<P: Page>(page: &mut P, dealer: Side, side: Side)
    ensures { Prints (left_in 6 (role_word dealer side)) (P.stand page.old) (P.stand page.new) }
{
    page.put(if dealer == side { b"dealer" } else { b"pone  " });
}

// Puts the points of an act and the reasons for them, if there are any, and of a go whose they are.
fn put_points<P: Page>(page: &mut P, dealer: Side, last: Side, row: &Row, reasons: &[PlayReason])
    ensures { Prints (points_text dealer last row.now reasons.now) (P.stand page.old) (P.stand page.new) }
{
    let Some((reason, others)) = reasons.split_first() else {
        return;
    };
    puts!(page: b"  " put_small(row.points) b": " put_reason(*reason) put_others(others));
    match row.act.what {
        Move::Card(_) => (),
        Move::Go => puts!(page: b" (to the " put_role(dealer, last) b")"),
    }
}

// Puts more reasons, each after a comma.
fn put_others<P: Page>(page: &mut P, reasons: &[PlayReason])
    ensures { Prints (flat_map next_reason reasons.now) (P.stand page.old) (P.stand page.new) }
{
    for reason in reasons {
        puts!(page: b", " put_reason(*reason));
    }
}

// Puts a reason and its points.
fn put_reason<P: Page>(page: &mut P, reason: PlayReason)
    ensures { Prints (reason_text reason) (P.stand page.old) (P.stand page.new) }
{
    puts!(page: [reason_word(reason)] b" " put_small(reason.points()));
}

fn reason_word(reason: PlayReason) -> &'static [u8]
    ensures value { result.now ≡ reason_word reason }
    ensures short { length result.now ≤ 12 }
{
    match reason {
        PlayReason::Fifteen => b"fifteen",
        PlayReason::ThirtyOne => b"thirty-one",
        PlayReason::Alike(2) => b"pair",
        PlayReason::Alike(3) => b"three alike",
        PlayReason::Alike(_) => b"four alike",
        PlayReason::Run(cards) => run_word(usize::from(cards)),
        PlayReason::Go => b"go",
        PlayReason::LastCard => b"last card",
    }
}

// Puts a number of at most three digits, right-aligned in columns of this width.
fn put_right<P: Page>(page: &mut P, width: usize, number: u8)
    requires { width ≤ 3 }
    ensures { Prints (right_in width number) (P.stand page.old) (P.stand page.new) }
{
    let mut buffer = Buffer::new();
    let digits = buffer.format(number).as_bytes();
    puts!(page: [&b"   "[..width.saturating_sub(digits.len())]] [digits]);
}

/// Returns the word for a run of 3 to 7 cards.
pub(crate) fn run_word(cards: usize) -> &'static [u8]
    ensures value { result.now ≡ run_word cards }
    ensures short { length result.now ≤ 12 }
{
    match cards {
        3 => b"run of three",
        4 => b"run of four",
        5 => b"run of five",
        6 => b"run of six",
        _ => b"run of seven",
    }
}
