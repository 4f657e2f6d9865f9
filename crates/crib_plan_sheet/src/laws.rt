//! The laws of the sheets of plans. Each function does nothing. Its contract states the laws.
ghost use Rattle.crib_plan_sheet.specs.PlanPlay.{FindsWhatIsStated, PlayedAsFollowed, SureIsReached};
ghost use Rattle.crib_plan_sheet.specs.PlanSheetLaws.{StatesTheSame};
ghost use Rattle.crib_plan_sheet.specs.PlanTextLaws.{PlansHaveSheets, TextsHaveOneSheet};
ghost use Rattle.crib_plan_sheet.specs.PlanTextLaws.{PlansOfOneText, OneTextStatesTheSame};

/// A person who plays by the sheet of a plan plays the cards that the plan states. After every list of turns the sheet
/// states the same card as the plan, whichever nodes have paragraphs of their own.
pub fn sheet_law()
    ensures { StatesTheSame }
{}

/// Whoever plays from the sheet of a plan finds there the card that the plan states, so the plan is sure exactly when
/// they reach the goal in every deal and every play. A sure plan never leaves them without a card to play, also at the
/// end of a row.
pub fn play_law()
    ensures finds { FindsWhatIsStated }
    ensures follows { PlayedAsFollowed }
    ensures sure { SureIsReached }
{}

/// Two different sheets have different texts. So nothing of a sheet is lost in print, and two plans with the same text
/// state the same cards.
pub fn sheet_text_law()
    ensures valid { PlansHaveSheets }
    ensures different { TextsHaveOneSheet }
    ensures plans { PlansOfOneText }
    ensures stated { OneTextStatesTheSame }
{}
