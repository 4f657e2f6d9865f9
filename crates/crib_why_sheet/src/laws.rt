//! The law of rows. The function does nothing, and its contract is the law.
ghost use Rattle.crib_why_sheet.specs.WhyRowLaws.{RowsAreOfGamesLaw};

/// Each row is of one of the games: its play names turns of that game, one after another, and what is beside it is what
/// the opponent held in it.
pub fn row_law()
    ensures { RowsAreOfGamesLaw }
{}
