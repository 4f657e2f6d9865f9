//! How many deals beat a plan, as text.
ghost use Rattle.std.specs.Prelude.{◌≡◌, flat_map};
ghost use Rattle.crib_run.specs.Prints.{Prints};
ghost use Rattle.crib_sheet.specs.Beaten.{beaten_status, figures, ranks_text, row_line, tally_reply};

use crib_beaten::{RanksTally, Tally};
use crib_cards::{Letter, Rank};
use crib_plan_sheet::put_letter;
use crib_run::{Page, Status, put_number};
use std::alloc::Allocator;

/// Puts how many deals beat a plan, of the open deals, and the same for each choice of four ranks of which some deal
/// does.
pub(crate) fn put_tally<A: Allocator, P: Page>(page: &mut P, tally: &Tally<A>)
    ensures { Prints (tally_reply tally.now).output (P.stand page.old) (P.stand page.new) }
{
    page.put(b"beaten ");
    put_figures(page, tally.beaten, tally.open_deals);
    put_rows(page, tally.rows.as_slice());
}

/// Returns `Yes` if no deal beats a plan, otherwise `No`.
pub(crate) fn beaten_status(beaten: u32) -> Status
    ensures { result ≡ beaten_status beaten }
{
    match beaten {
        0 => Status::Yes,
        _ => Status::No,
    }
}

// Puts the deals that beat the plan, of all, and ends the line.
fn put_figures<P: Page>(page: &mut P, beaten: u32, open_deals: u32)
    ensures { Prints (figures beaten open_deals) (P.stand page.old) (P.stand page.new) }
{
    put_number(page, beaten);
    page.put(b" of ");
    put_number(page, open_deals);
    page.put(b"\n");
}

// Puts a line for each row.
fn put_rows<P: Page>(page: &mut P, rows: &[RanksTally])
    ensures { Prints (flat_map row_line rows.now) (P.stand page.old) (P.stand page.new) }
{
    for row in rows {
        put_ranks(page, row.ranks.as_slice());
        page.put(b" ");
        put_figures(page, row.beaten, row.open_deals);
    }
}

/// Puts the letters of ranks.
pub(crate) fn put_ranks<P: Page>(page: &mut P, ranks: &[Rank])
    ensures { Prints (ranks_text ranks.now) (P.stand page.old) (P.stand page.new) }
{
    for rank in ranks {
        put_letter(page, Letter::Seen(*rank));
    }
}
