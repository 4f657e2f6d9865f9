//! The sections of an input.

/// The sections that an input must have, in their order.
#[derive(Clone, Copy, Debug, PartialEq, Eq)]
pub enum Sections {
    /// A problem.
    Problem,
    /// A problem and a plan.
    Question,
    /// A problem and a game.
    Played,
    /// A problem, a plan and a game.
    PlayedUnder,
    /// A problem, a plan, and the turns since.
    Turns,
}
