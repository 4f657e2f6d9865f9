//! What both sides pegged in the play of a game.
ghost use Rattle.std.specs.Prelude.{◌≡◌, ◌*◌, ◌≤◌, length};
ghost use Rattle.crib_run.specs.Prints.{Prints};
ghost use Rattle.crib_game_sheet.specs.GameText.{pegged_line, pegged_points};

use super::acts::last_after;
use crate::puts::puts;
use crib_cards::Side;
use crib_game::Row;
use crib_run::{Page, put_number};

/// Puts the line of what both sides pegged in some acts. `last` is the side that played the last card before them.
pub(super) fn put_pegged<P: Page>(page: &mut P, last: Side, rows: &[Row])
    requires { length rows.now ≤ 32 }
    ensures { Prints (pegged_line last rows.now) (P.stand page.old) (P.stand page.new) }
{
    puts!(page: b"In the play you pegged " put_number(pegged_points(Side::Owner, last, rows))
        b", they " put_number(pegged_points(Side::Opponent, last, rows)) b".\n");
}

// Returns the points of some acts that count for a side: for the one that played the last card.
#[tactic(auto, unfolding(crate::specs::GameText::pegged_points))]
fn pegged_points(side: Side, last: Side, rows: &[Row]) -> u32
    requires { length rows.now ≤ 32 }
    ensures value { result ≡ pegged_points side last rows.now }
    ensures range { result ≤ 255 * length rows.now }
{
    match rows {
        [] => 0,
        [row, others @ ..] => {
            let last = last_after(row.act.side, row.act.what, last);
            let points = if last == side {
                u32::from(row.points)
            } else {
                0
            };
            points + pegged_points(side, last, others)
        }
    }
}
