//! The law of the replies of the second program. The function does nothing, and its contract is the law.
ghost use Rattle.crib_sheet.specs.Laws.{OneSheetLaw};

/// Two right replies of `game`, `beaten`, `next`, `scores` or `holes` to one input are equal. The other jobs may have
/// several right replies: `plan`, `try` and `leads`, since which plan to try is free, and which rows of deals that beat
/// a plan; `refute` and `why`, since the games are.
pub fn sheet_law()
    ensures one { OneSheetLaw }
{}
