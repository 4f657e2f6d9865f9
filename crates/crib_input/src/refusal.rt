//! Why an input is not read.
ghost use Rattle.std.specs.Prelude.{◌≡◌, ◌+◌, ◌≤◌, length};
ghost use Rattle.crib_game.specs.Refusals.{game_refusal};
ghost use Rattle.crib_input.specs.declared.refusal.Cause.TheVariants as causes;
ghost use Rattle.crib_input.specs.Refusals.{input_cause_number, refusal_of};

use crib_game::{Game, GameFault};
use crib_plan::PlanCause;
use crib_problem::{ProblemCause, ProblemFault};
use crib_text::{TextCause, TextFault};
use thiserror::Error;

/// Why an input is refused (docs/FORMATS.md, "Refusals"). Displayed, it is the sentence of the section's own cause.
#[derive(Clone, Copy, Debug, PartialEq, Eq, Error)]
pub enum Cause {
    /// A cause that any text can have.
    #[error(transparent)]
    Text(TextCause),
    /// A cause that a problem can have.
    #[error(transparent)]
    Problem(ProblemCause),
    /// A cause that a plan can have.
    #[error(transparent)]
    Plan(PlanCause),
    /// A game that does not fit its problem, or strays from its plan.
    #[error(transparent)]
    Game(GameFault),
}

impl Cause {
    /// Returns the number of the cause, which the program prints.
    pub fn number(self) -> u8
        ensures { result ≡ input_cause_number self }
    {
        match self {
            Cause::Text(cause) => cause.number(),
            Cause::Problem(cause) => cause.number(),
            Cause::Plan(cause) => cause.number(),
            Cause::Game(fault) => fault.number(),
        }
    }
}

/// The refusal of an input: its line and its cause.
#[derive(Clone, Copy, Debug, PartialEq, Eq, Error)]
#[error("line {line}: {cause}")]
pub struct Refusal {
    /// The line of the refusal, counted from 1. It is 0 if the refusal is of no line.
    pub line: u32,
    /// Why the input is refused.
    pub cause: Cause,
}

impl Refusal {
    // Returns the refusal of a line for a cause.
    fn at(line: u32, cause: Cause) -> Refusal
        ensures { result ≡ record { line = line; cause = cause } }
    {
        Refusal { line, cause }
    }

    /// Returns the refusal of a game for `fault`. The section of the game begins at line `first`.
    pub fn of_game(fault: GameFault, first: u32, game: &Game) -> Refusal
        requires { first + 258 ≤ u32.MAX }
        ensures printed { refusal_of result ≡ game_refusal first (length game.now.acts.items) fault }
        ensures cause { result.cause ≡ causes.Game fault }
    {
        Refusal::at(fault.line(first, game.acts.len()), Cause::Game(fault))
    }
}

impl From<TextFault> for Refusal {
    ghost from_gives = { λ fault refusal. refusal ≡ record { line = fault.line; cause = causes.Text fault.cause } };

    fn from(fault: TextFault) -> Refusal {
        Refusal::at(fault.line, Cause::Text(fault.cause))
    }
}

impl From<ProblemFault> for Refusal {
    ghost from_gives = { λ fault refusal. refusal ≡ record { line = fault.line; cause = causes.Problem fault.cause } };

    fn from(fault: ProblemFault) -> Refusal {
        Refusal::at(fault.line, Cause::Problem(fault.cause))
    }
}
