//! The laws of the answers. Each function does nothing. Its contract states the laws.
ghost use Rattle.crib_answer.specs.Laws.{CutShortLaw, EitherLaw, FailingLaw, FailsLaw, HoldsLaw, OneReplyLaw, SureLaw};
ghost use Rattle.crib_answer.specs.Laws.{FailedGameLaw, FollowedGameLaw, FoundPlanLaw, NoneLaw, PlanLaw};
ghost use Rattle.crib_answer.specs.Laws.{SameRefusalLaw, SameReportLaw, TooLongLaw};
ghost use Rattle.crib_check.specs.Laws.{EndLaw, ProgressLaw};

/// The laws of every job.
///
/// - `one`: a job has at most one right reply to an input.
/// - `too_long`: the right reply to an input of more than 8,388,608 bytes is the refusal 2 of line 0.
/// - `cut_short`: a proper beginning of an accepted input is refused as cut short (3). The line is that of the first
///   missing byte.
pub fn reply_law()
    ensures one { OneReplyLaw }
    ensures too_long { TooLongLaw }
    ensures cut_short { CutShortLaw }
{}

/// The laws of `check`. They say what the bytes of an input spell, by the bytes of the right reply to it.
///
/// - `holds`: if the right reply is `holds`, the input spells a problem and a plan that is sure for it.
/// - `fails`: if the right reply begins with `fails` and an ending, the input spells a problem and a plan. The text
///   after that line spells the first failing game of the plan, and this game has this ending.
/// - `either`: if the input spells a problem and a plan, each right reply is one of these two.
/// - `goes_on`, `ends`: under a sure plan the play goes on until the deal is done. A legal record that follows the plan
///   and is not done has a further turn, with which it is still legal and still follows the plan. No legal record has
///   more than 29 turns.
/// - `sure`, `failing`: if the plan is sure, the right reply is `holds`. If there is a first failing game, it is
///   `fails` with its ending and this game.
pub fn check_law()
    ensures holds { HoldsLaw }
    ensures fails { FailsLaw }
    ensures goes_on { ProgressLaw }
    ensures ends { EndLaw }
    ensures either { EitherLaw }
    ensures sure { SureLaw }
    ensures failing { FailingLaw }
{}

/// The laws of `solve`. They say what the bytes of an input spell, by the bytes of the right reply to it.
///
/// - `plan`: if the right reply begins with `plan`, it spells a plan that is sure for the problem of the input.
/// - `none`: if the right reply is `none`, no plan is sure for the problem of the input.
pub fn solve_law()
    ensures plan { PlanLaw }
    ensures none { NoneLaw }
{}

/// The laws of several jobs. They say that the answers of one job agree with those of another.
///
/// - `failed_game`: if the right reply of `check` is `fails` with an ending and a game, this ending is the right reply
///   of `follow` to the same input with that game after it.
/// - `found_plan`: if the right reply of `solve` is a plan, `holds` is the right reply of `check` to the same input
///   with that plan after it.
/// - `followed_game`: if the right reply of `follow` is an ending, the problem and the game without the plan are a game
///   that `replay` accepts, with the same acts. The ending is the outcome that `replay` reports, and `open` or `stuck`
///   only if that is `open`.
/// - `same_refusal`: `replay` and `board` refuse the same inputs, with the same line and number.
/// - `same_report`: if the right reply of `replay` has scores, they are those on the board that is the right reply of
///   `board` to the same input. After `play` it has the scores of the board's last act, and each counted hand has the
///   side, the points and the scores that it has on the board.
pub fn agreement_law()
    ensures failed_game { FailedGameLaw }
    ensures found_plan { FoundPlanLaw }
    ensures followed_game { FollowedGameLaw }
    ensures same_refusal { SameRefusalLaw }
    ensures same_report { SameReportLaw }
{}
