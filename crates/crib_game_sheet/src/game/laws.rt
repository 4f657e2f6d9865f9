//! The laws of the sheet of a game. Each function does nothing. Its contract states the laws.
ghost use Rattle.crib_game_sheet.specs.GameLaws.{HandsAddUpLaw, PeggedLaw, ReasonsAddUpLaw, ReasonsAddedLaw};
ghost use Rattle.crib_game_sheet.specs.GameLaws.{SheetsHaveOneGameLaw};
ghost use Rattle.crib_game_sheet.specs.GameShowLaws.{CribListLaw, HandListLaw};

/// Nothing in a hand or a crib is listed twice. Its four cards and the starter are all different.
pub fn combination_law()
    ensures hands { HandListLaw }
    ensures cribs { CribListLaw }
{}

/// What is printed beside the points of a game adds up to them: the reasons of each act, none of them twice, and the
/// combinations under each counted hand. The reasons of an act are what it adds to those of the whole play. What each
/// side pegged is what the play counts for it.
pub fn points_law()
    ensures reasons { ReasonsAddUpLaw }
    ensures hands { HandsAddUpLaw }
    ensures added { ReasonsAddedLaw }
    ensures pegged { PeggedLaw }
{}

/// Two games of one problem that differ have sheets that differ.
pub fn game_sheet_law()
    ensures { SheetsHaveOneGameLaw }
{}
