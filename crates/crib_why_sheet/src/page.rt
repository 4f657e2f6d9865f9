//! The lines on a page.
ghost use Rattle.std.specs.Prelude.{◌≡◌, ◌≤◌, flat_map, length};
ghost use Rattle.crib_board.specs.Board.{left_in};
ghost use Rattle.crib_run.specs.Prints.{Prints};
ghost use Rattle.crib_why_sheet.specs.WhyText.{columns_text, line_text, lines_text, range_text, spread_text};
ghost use Rattle.crib_why_sheet.specs.WhyText.{widest_held, widest_play};

use crate::line::{Spread, WhyLine};
use crib_run::{Page, put_small};

// What the lines show.
const HEADING: &[u8] =
    b"No player can be sure, whatever they look at. Whatever you play, some hand and
some play of theirs beat it:

";

// How to read them.
const LEGEND: &[u8] = b"
Each row is a play to its end, what they held (and threw, if the crib counts),
and the scores, yours first.
";

// The most columns of a text.
const WIDEST: usize = 512;

/// Puts lines on a page, after what they show, and then how to read them. What the opponent held and the scores are
/// columns, one below the other. It needs no memory.
pub fn put_lines<P: Page>(page: &mut P, lines: &[WhyLine])
    ensures { Prints (lines_text lines.now) (P.stand page.old) (P.stand page.new) }
{
    page.put(HEADING);
    put_each(page, widest_play(lines), widest_held(lines), lines);
    page.put(LEGEND);
}

// The length of the longest play of a line that has columns.
fn widest_play(lines: &[WhyLine]) -> usize
    ensures value { result ≡ widest_play lines.now }
    ensures range { result ≤ 512 }
{
    match lines {
        [] => 0,
        [line, others @ ..] => {
            let widest = widest_play(others);
            match &line.columns {
                None => widest,
                Some(_) => line.play.len().max(widest),
            }
        }
    }
}

// The length of the longest text of what the opponent held.
fn widest_held(lines: &[WhyLine]) -> usize
    ensures value { result ≡ widest_held lines.now }
    ensures range { result ≤ 512 }
{
    match lines {
        [] => 0,
        [line, others @ ..] => {
            let widest = widest_held(others);
            match &line.columns {
                None => widest,
                Some(columns) => columns.held.len().max(widest),
            }
        }
    }
}

// Puts each line, with columns of these widths.
fn put_each<P: Page>(page: &mut P, plays: usize, helds: usize, lines: &[WhyLine])
    requires { (plays ≤ 512) × (helds ≤ 512) }
    ensures { Prints (flat_map (line_text plays helds) lines.now) (P.stand page.old) (P.stand page.new) }
{
    for line in lines {
        put_line(page, plays, helds, line);
    }
}

// Puts a line, with columns of these widths.
fn put_line<P: Page>(page: &mut P, plays: usize, helds: usize, line: &WhyLine)
    requires { (plays ≤ 512) × (helds ≤ 512) }
    ensures { Prints (line_text plays helds line.now) (P.stand page.old) (P.stand page.new) }
{
    put_columns(page, plays, helds, line);
    page.put(b"\n");
}

// Puts a play, and its columns if it has some.
fn put_columns<P: Page>(page: &mut P, plays: usize, helds: usize, line: &WhyLine)
    requires { (plays ≤ 512) × (helds ≤ 512) }
    ensures { Prints (columns_text plays helds line.now.play.items line.now.columns) (P.stand page.old)
        (P.stand page.new) }
{
    let play = line.play.as_slice();
    let Some(columns) = &line.columns else {
        page.put(play);
        return;
    };
    put_left(page, plays, play);
    page.put(b"   ");
    put_left(page, helds, columns.held.as_slice());
    page.put(b"    ");
    put_spread(page, columns.spread);
}

// Puts a text, left-aligned in columns of this width.
fn put_left<P: Page>(page: &mut P, width: usize, text: &[u8])
    requires { (width ≤ 512) × (length text.now ≤ 512) }
    ensures { Prints (left_in width text.now) (P.stand page.old) (P.stand page.new) }
{
    page.put(text);
    page.put(&[b' '; WIDEST][..width.saturating_sub(text.len())]);
}

// Puts both scores, the owner's first.
fn put_spread<P: Page>(page: &mut P, spread: Spread)
    ensures { Prints (spread_text spread) (P.stand page.old) (P.stand page.new) }
{
    put_range(page, spread.least.owner, spread.most.owner);
    page.put(b" ");
    put_range(page, spread.least.opponent, spread.most.opponent);
}

// Puts a score, or the least and the most.
fn put_range<P: Page>(page: &mut P, least: u8, most: u8)
    ensures { Prints (range_text least most) (P.stand page.old) (P.stand page.new) }
{
    put_small(page, least);
    if least != most {
        page.put(b"-");
        put_small(page, most);
    }
}
