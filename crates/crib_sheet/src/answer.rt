//! The answers of the second program: a sheet, or the reason why there is none.
ghost use Rattle.std.specs.Prelude.{◌≡◌};
ghost use Rattle.crib_run.specs.Prints.{Prints};
ghost use Rattle.crib_sheet.specs.Sheet.{sheet_reply};

mod asked;
mod asking;
mod beaten;
mod game;
mod job;
mod leads;
mod next;
mod plan;
mod played;
mod to_try;

use crate::holes::{HolesSheet, put_holes};
use crate::leads::{leads_status, put_leads};
use crate::next::{next_status, put_next};
use crate::refutation::{InWords, in_words_status, put_in_words, put_why, why_status};
use crate::scores::{ScoreSheet, put_scores};
use crate::tally::{beaten_status, put_tally};
use crate::verdict::put_plan_sheet;
use crib_beaten::Tally;
use crib_game_sheet::put_game_sheet;
use crib_run::{Answer, Page, Printer, Sendable, Status};
use crib_text::Sink;
use crib_why::Why;
pub use game::GameSheet;
pub use job::{NAMES, SheetJob};
pub use leads::{LeadsSheet, TriedPlan};
pub use next::NextSheet;
pub use plan::PlanSheet;
use std::alloc::Allocator;

/// A sheet, as its parts.
#[derive(Drop)]
pub enum Sheet<A: Allocator> {
    /// The sheet of a plan.
    Plan(PlanSheet<A>),
    /// The sheet of a game.
    Game(GameSheet),
    /// How many deals beat a plan.
    Beaten(Tally<A>),
    /// A plan to try.
    Try(Answer<A>),
    /// Games that refute every player, if no plan is sure.
    Refute(Why<A>),
    /// The same in words.
    Reasons(InWords<A>),
    /// What may be played next.
    Leads(LeadsSheet<A>),
    /// What comes next.
    Next(NextSheet<A>),
    /// At which scores turns are sure, or a plan is.
    Scores(ScoreSheet),
    /// How many holes are sure.
    Holes(HolesSheet),
}

impl<A: Allocator> Sendable for Sheet<A> {
    ghost reply = { λ sheet. sheet_reply sheet };

    fn send<W: Sink>(&self, sink: &mut W) -> Status {
        let mut page = Printer {
            sink,
            is_cut: false,
        };
        put_sheet(&mut page, self);
        let Printer { sink, is_cut } = page;
        // The proof reads what the device holds from this use of it.
        let _ = &*sink;
        if is_cut {
            Status::Fault
        } else {
            status_of(self)
        }
    }
}

// Puts the text of a sheet.
fn put_sheet<A: Allocator, P: Page>(page: &mut P, sheet: &Sheet<A>)
    ensures { Prints (sheet_reply sheet.now).output (P.stand page.old) (P.stand page.new) }
{
    match sheet {
        Sheet::Plan(sheet) => put_plan_sheet(page, sheet),
        Sheet::Game(sheet) => put_game_sheet(page, &sheet.problem, &sheet.game, &sheet.report),
        Sheet::Beaten(tally) => put_tally(page, tally),
        Sheet::Try(answer) => page.put(answer.as_slice()),
        Sheet::Refute(why) => put_why(page, why),
        Sheet::Reasons(why) => put_in_words(page, why),
        Sheet::Leads(sheet) => put_leads(page, sheet),
        Sheet::Next(sheet) => put_next(page, sheet),
        Sheet::Scores(sheet) => put_scores(page, sheet),
        Sheet::Holes(sheet) => put_holes(page, sheet),
    }
}

// Returns the status of a sheet.
#[tactic(auto, unfolding(crate::specs::Sheet::parts_reply, crib_run::specs::Reply::reply_of))]
fn status_of<A: Allocator>(sheet: &Sheet<A>) -> Status
    ensures { result ≡ (sheet_reply sheet.now).status }
{
    match sheet {
        Sheet::Plan(sheet) => sheet.status,
        Sheet::Game(_) | Sheet::Scores(_) | Sheet::Holes(_) => Status::Yes,
        Sheet::Beaten(tally) => beaten_status(tally.beaten),
        Sheet::Try(answer) => answer.status(),
        Sheet::Refute(why) => why_status(why),
        Sheet::Reasons(why) => in_words_status(why),
        Sheet::Leads(sheet) => {
            leads_status(sheet.leads.own.as_slice(), sheet.leads.theirs.as_slice())
        }
        Sheet::Next(sheet) => next_status(sheet.next),
    }
}
