//! What the program is asked: a job.
ghost use Rattle.crib_sheet.specs.Job.{sections_of};
ghost use Rattle.crib_sheet.specs.Meaning.{SheetMeans};
ghost use Rattle.crib_sheet.specs.Sheet.{SheetMakes};
ghost use Rattle.crib_sheet.specs.Told.{SheetTells};

use crate::answer::Sheet;
use crate::answer::beaten::beaten_tally;
use crate::answer::job::SheetJob;
use crate::answer::leads::leads_sheet;
use crate::answer::next::next_sheet;
use crate::answer::plan::plan_sheet;
use crate::answer::played::game_sheet;
use crate::answer::to_try::plan_to_try;
use crate::holes::holes_sheet;
use crate::refutation::{why_in_words, why_none};
use crate::scores::score_sheet;
use crib_input::{Reason, Sections};
use crib_run::Asks;
use std::alloc::Allocator;

impl<A: Allocator + Copy> Asks<A> for SheetJob {
    ghost makes = { SheetMakes };

    ghost means = { SheetMeans };

    ghost tells = { SheetTells };

    ghost reads = { sections_of };

    type Made = Sheet<A>;

    fn sections(self) -> Sections {
        match self {
            SheetJob::Plan | SheetJob::Beaten => Sections::Question,
            SheetJob::Game => Sections::Played,
            SheetJob::Next => Sections::Turns,
            SheetJob::Try
            | SheetJob::Refute
            | SheetJob::Why
            | SheetJob::Leads
            | SheetJob::Scores
            | SheetJob::Holes => Sections::Problem,
        }
    }

    fn answer(self, alloc: A, input: &[u8]) -> Result<Sheet<A>, Reason> {
        match self {
            SheetJob::Plan => Ok(Sheet::Plan(plan_sheet(alloc, input)?)),
            SheetJob::Game => Ok(Sheet::Game(game_sheet(input)?)),
            SheetJob::Beaten => Ok(Sheet::Beaten(beaten_tally(alloc, input)?)),
            SheetJob::Try => Ok(Sheet::Try(plan_to_try(alloc, input)?)),
            SheetJob::Refute => Ok(Sheet::Refute(why_none(alloc, input)?)),
            SheetJob::Why => Ok(Sheet::Reasons(why_in_words(alloc, input)?)),
            SheetJob::Leads => Ok(Sheet::Leads(leads_sheet(alloc, input)?)),
            SheetJob::Next => Ok(Sheet::Next(next_sheet(alloc, input)?)),
            SheetJob::Scores => Ok(Sheet::Scores(score_sheet(alloc, input)?)),
            SheetJob::Holes => Ok(Sheet::Holes(holes_sheet(alloc, input)?)),
        }
    }
}
