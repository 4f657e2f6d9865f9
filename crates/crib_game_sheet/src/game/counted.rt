//! The lines of the show.
ghost use Rattle.std.specs.Prelude.{◌≡◌, ◌≤◌, length, flat_map};
ghost use Rattle.crib_run.specs.Prints.{Prints};
ghost use Rattle.crib_game_sheet.specs.GameText.{combination_line, combination_lines, counted_cards};
ghost use Rattle.crib_game_sheet.specs.GameText.{counted_combinations, counted_text};
ghost use Rattle.crib_game_sheet.specs.GameText.{kind_word};

use super::acts::run_word;
use super::combination::{Combination, Kind};
use super::shows::counted_combinations;
use crate::heading::put_how_many;
use crate::puts::puts;
use crib_cards::{Card, Dealt, Side};
use crib_problem::Problem;
use crib_run::{Page, put_card, put_cards, put_role, put_small};
use crib_show::ShowRow;

/// Puts the lines of each counted hand and of the crib.
pub(crate) fn put_show<P: Page>(page: &mut P, problem: &Problem, dealt: &Dealt, rows: &[ShowRow])
    ensures { Prints (flat_map (counted_text problem.now dealt.now) rows.now) (P.stand page.old) (P.stand page.new) }
{
    for row in rows {
        put_counted(page, problem, dealt, row);
    }
}

// Puts the lines of a counted hand or of the crib: whose it is, its cards, the starter, its points, both scores after
// it, and what counts in it.
fn put_counted<P: Page>(page: &mut P, problem: &Problem, dealt: &Dealt, row: &ShowRow)
    ensures { Prints (counted_text problem.now dealt.now row.now) (P.stand page.old) (P.stand page.new) }
{
    let cards = counted_cards(problem, dealt, row);
    puts!(page: b"\nThe " put_role(problem.dealer(), row.side) b"'s " [row.word()] b":" put_cards(&cards)
        b" with" put_card(problem.starter()));
    puts!(page: b", " put_how_many(row.points, b"point") b" (you " put_small(row.scores.owner)
        b", they " put_small(row.scores.opponent) b")\n");
    let found = counted_combinations(row.crib, &cards, problem.starter());
    put_combinations(page, found.as_slice());
}

// The cards of a hand or of the crib.
fn counted_cards(problem: &Problem, dealt: &Dealt, row: &ShowRow) -> [Card; 4]
    ensures { result ≡ counted_cards problem.now dealt.now row.now }
{
    if row.crib {
        let [first, second] = problem.thrown();
        let [third, fourth] = dealt.throw;
        return [first, second, third, fourth];
    }
    match row.side {
        Side::Owner => problem.hold(),
        Side::Opponent => dealt.hold,
    }
}

// Puts a line for each combination, or one that says that there is none.
fn put_combinations<P: Page>(page: &mut P, found: &[Combination])
    ensures { Prints (combination_lines found.now) (P.stand page.old) (P.stand page.new) }
{
    if found.is_empty() {
        page.put(b"  nothing counts\n");
    } else {
        put_each(page, found);
    }
}

fn put_each<P: Page>(page: &mut P, found: &[Combination])
    ensures { Prints (flat_map combination_line found.now) (P.stand page.old) (P.stand page.new) }
{
    for made in found {
        puts!(page: b"  " [kind_word(made.kind, made.cards.len())] b" " put_small(made.points()) b":"
            put_cards(made.cards.as_slice()) b"\n");
    }
}

fn kind_word(kind: Kind, cards: usize) -> &'static [u8]
    ensures value { result.now ≡ kind_word kind cards }
    ensures short { length result.now ≤ 12 }
{
    match kind {
        Kind::Fifteen => b"fifteen",
        Kind::Pair => b"pair",
        Kind::Run => run_word(cards),
        Kind::Flush => b"flush",
        Kind::Jack => b"his nobs",
    }
}
