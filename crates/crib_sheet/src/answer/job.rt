//! The sheets that the program can make.
ghost use Rattle.std.specs.Prelude.{◌≡◌};
ghost use Rattle.crib_sheet.specs.Job.{job_called};

use crib_answer::UnknownJob;
use std::str::FromStr;

/// What the program does with its input. Each command of the command line names one job (docs/GUIDE.md, "Sheets").
#[derive(Clone, Copy, Debug, PartialEq, Eq)]
pub enum SheetJob {
    /// `plan`: reads a problem and a plan, or a problem alone, for which it finds a plan. It prints the plan in words.
    Plan,
    /// `game`: reads a problem and a game, and prints the game with a reason for each point.
    Game,
    /// `beaten`: reads a problem and a plan, and prints how many deals beat the plan.
    Beaten,
    /// `try`: reads a problem, and prints a plan: a sure one if there is one, otherwise one that few deals beat.
    Try,
    /// `refute`: reads a problem, and prints games that refute every player if no plan is sure.
    Refute,
    /// `why`: reads a problem, and prints the same in words.
    Why,
    /// `leads`: reads a problem, and prints each turn that may come next, with what is after it.
    Leads,
    /// `next`: reads a problem, a plan and the turns since, and prints what comes next.
    Next,
    /// `scores`: reads a problem, and prints at which scores turns are sure, or a plan is.
    Scores,
    /// `holes`: reads a problem, and prints how many holes are sure, at all and with each turn.
    Holes,
}

/// The names of the jobs, in the order in which the help text lists them.
pub static NAMES: [&str; 10] = [
    "plan", "game", "beaten", "try", "refute", "why", "leads", "next", "scores", "holes",
];

impl FromStr for SheetJob {
    type Err = UnknownJob;

    ghost from_str_gives = { λ text r. r ≡ job_called text };

    fn from_str(text: &str) -> Result<SheetJob, UnknownJob> {
        match text {
            "plan" => Ok(SheetJob::Plan),
            "game" => Ok(SheetJob::Game),
            "beaten" => Ok(SheetJob::Beaten),
            "try" => Ok(SheetJob::Try),
            "refute" => Ok(SheetJob::Refute),
            "why" => Ok(SheetJob::Why),
            "leads" => Ok(SheetJob::Leads),
            "next" => Ok(SheetJob::Next),
            "scores" => Ok(SheetJob::Scores),
            "holes" => Ok(SheetJob::Holes),
            _ => Err(UnknownJob),
        }
    }
}
