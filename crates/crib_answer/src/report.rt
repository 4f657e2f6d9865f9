//! The answer of `replay`.
ghost use Rattle.std.specs.Prelude.{◌≡◌, ◌+◌, ◌*◌, ◌≤◌, [], ◌∷◌, ◌++◌, length, flat_map};
ghost use Rattle.arrayvec.specs.ArrayVec.{array_vec_len};
ghost use Rattle.crib_text.specs.Spelling.{line_text};
ghost use Rattle.crib_show.specs.Words.{outcome_word};
ghost use Rattle.crib_answer.specs.Answer.{counted_line, report_reply};
ghost use Rattle.crib_answer.specs.Private.Replies.{score_tail};
ghost use Rattle.crib_run.specs.Reply.{reply_of};

use crib_cards::Scores;
use crib_game::Report;
use crib_run::{Answer, ShortText, Status, Text, add, add_number};
use crib_show::{Outcome, ShowRow};
use std::alloc::Allocator;

/// Returns the answer to a replayed game (docs/FORMATS.md, "replay"). It has a line with the scores after the last act,
/// a line for each hand or crib that was counted, and a line with the outcome, or `open` if the deal is not done. The
/// status is `Yes`.
#[tactic(auto, using(crate::proofs::Lines::reports), unfolding(crib_run::specs::Reply::reply_of, crib_run::specs::Text::text_bytes))]
pub(crate) fn report_answer<A: Allocator>(report: &Report) -> Answer<A>
    ensures { reply_of result ≡ report_reply report.now }
{
    let mut text = ShortText::new();
    add(&mut text, b"play");
    add_scores(&mut text, report.scores);
    add_show(&mut text, report.show.as_slice());
    add_outcome(&mut text, report.over);
    Answer {
        text: Text::Short(text),
        status: Status::Yes,
    }
}

// Appends the end of a line: the owner's score and then the opponent's, in holes, each after a space, and LF. That is
// at most 24 bytes.
#[tactic(auto, using(crib_text::proofs::RoomLemmas::short, crate::proofs::Lines::score_tails))]
fn add_scores(text: &mut ShortText, scores: Scores)
    requires { array_vec_len text.old + 24 ≤ 282 }
    ensures items { text.new.items ≡ text.old.items ++ score_tail scores }
    ensures len { array_vec_len text.new ≤ array_vec_len text.old + 24 }
{
    add(text, b" ");
    add_number(text, u32::from(scores.owner));
    add(text, b" ");
    add_number(text, u32::from(scores.opponent));
    add(text, b"\n");
}

// Appends the line of a hand or crib that was counted, at most 48 bytes.
#[tactic(auto, using(crib_text::proofs::RoomLemmas::short, crate::proofs::Lines::counted_lines))]
fn add_row(text: &mut ShortText, row: &ShowRow)
    requires { array_vec_len text.old + 48 ≤ 282 }
    ensures items { text.new.items ≡ text.old.items ++ counted_line row.now }
    ensures len { array_vec_len text.new ≤ array_vec_len text.old + 48 }
{
    add(text, row.word());
    add(text, b" ");
    add(text, row.side.word());
    add(text, b" ");
    add_number(text, u32::from(row.points));
    add_scores(text, row.scores);
}

// Appends a line for each hand or crib that was counted.
fn add_show(text: &mut ShortText, rows: &[ShowRow])
    requires { array_vec_len text.old + 48 * length rows.now ≤ 282 }
    ensures items { text.new.items ≡ text.old.items ++ flat_map counted_line rows.now }
    ensures len { array_vec_len text.new ≤ array_vec_len text.old + 48 * length rows.now }
{
    for row in rows {
        add_row(text, row);
    }
}

// Appends the line of the outcome, or `open` if there is none.
#[tactic(auto, using(crate::proofs::Lines::words))]
fn add_outcome(text: &mut ShortText, over: Option<Outcome>)
    requires { array_vec_len text.old + 8 ≤ 282 }
    ensures items { text.new.items ≡ text.old.items ++ line_text (outcome_word over ∷ []) }
    ensures len { array_vec_len text.new ≤ array_vec_len text.old + 8 }
{
    add(text, Outcome::word_of(over));
    add(text, b"\n");
}
