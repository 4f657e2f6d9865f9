//! The jobs that the program can do.
ghost use Rattle.std.specs.Prelude.{◌≡◌};
ghost use Rattle.crib_answer.specs.Job.{job_called};

use std::str::FromStr;
use thiserror::Error;

/// What the program does with its input. Each command of the command line names one job (docs/FORMATS.md, "Answers").
#[derive(Clone, Copy, Debug, PartialEq, Eq)]
pub enum Job {
    /// `replay`: reads a problem and a game, and reports the scores, the counted hands and the outcome.
    Replay,
    /// `follow`: reads a problem, a plan and a game, and reports the ending of the game under the plan.
    Follow,
    /// `check`: reads a problem and a plan, and reports whether the plan is sure.
    Check,
    /// `solve`: reads a problem, and finds a plan that is sure if there is one.
    Solve,
    /// `board`: reads a problem and a game, and draws the board of the game.
    Board,
}

/// The names of the jobs, in the order in which the help text lists them.
pub static NAMES: [&str; 5] = ["check", "solve", "replay", "board", "follow"];

/// The error of a word that is not the name of a job.
#[derive(Clone, Copy, Debug, PartialEq, Eq, Error)]
#[error("not the name of a command")]
pub struct UnknownJob;

impl FromStr for Job {
    type Err = UnknownJob;

    ghost from_str_gives = { λ text r. r ≡ job_called text };

    fn from_str(text: &str) -> Result<Job, UnknownJob> {
        match text {
            "replay" => Ok(Job::Replay),
            "follow" => Ok(Job::Follow),
            "check" => Ok(Job::Check),
            "solve" => Ok(Job::Solve),
            "board" => Ok(Job::Board),
            _ => Err(UnknownJob),
        }
    }
}
