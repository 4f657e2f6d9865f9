//! The endings of games under a plan.
use crate::inputs::*;
use crib_game::*;
use example_texts::games::*;
use example_texts::plans::*;
use example_texts::problems::*;

const SHORT: &[Texts] = &[
    (THIRTEEN, TWOS, OWNER_LEADS),
    (DEALERS_FOURTEEN, TWOS, OPPONENT_LEADS_TO_NOTHING),
];

const REACHED: &[Texts] = &[
    (DEALERS_THIRTEEN, TWOS, OPPONENT_LEADS_TO_NOTHING),
    (STOP_FAR, TWOS, OWNER_LEADS),
];

const LOST: &[Texts] = &[
    (RACE, TWOS, OPPONENT_LEADS_TO_NOTHING),
    (CLOSE, ACE, PAIRED),
    (STOP_SHOW, TWOS, OWNER_LEADS_TO_SIXTEEN),
];

#[test]
fn ends_as_the_deal_does(rt: HostRuntime) {
    stand(&rt, SHORT, Ok(Ending::Short));
    stand(&rt, REACHED, Ok(Ending::Reached));
    stand(&rt, LOST, Ok(Ending::Lost));
}

// In the last game it is the opponent's turn, so the owner is not stuck, though the plan states nothing more.
const OPEN: &[Texts] = &[
    (THIRTEEN, TWOS, NO_ACTS),
    (THIRTEEN, LOOK, KING),
    (THIRTEEN, ONE_TWO, BEFORE_THE_KING),
];

#[test]
fn stays_open(rt: HostRuntime) {
    stand(&rt, OPEN, Ok(Ending::Open));
}

const STUCK: &[Texts] = &[
    (THIRTEEN, NO_PLAN, NO_ACTS),
    (NEAR, NO_PLAN, ONE_ACE),
    (THIRTEEN, TWICE, TWO_AND_ACE),
    (THIRTEEN, NO_KING, KING),
    (THIRTEEN, LATE_LOOK, GO_AT_22),
];

#[test]
fn is_stuck(rt: HostRuntime) {
    stand(&rt, STUCK, Ok(Ending::Stuck));
}

// Games under plans that refuse them, and the lines and the numbers of the refusals. The lines are those of an input
// whose game begins at line 14. In the last game the opponent has won after two acts. So the third is too late,
// whatever is stated.
const STRAYING: &[(&str, &str, &str, (u32, u8))] = &[
    (THIRTEEN, TWOS, STRAYS, (20, 46)),
    (THIRTEEN, NO_PLAN, ONE_PLAYED, (18, 46)),
    (THIRTEEN, TWOS, NOT_HELD, (18, 46)),
    (THIRTEEN, TWICE, PLAYED_TWICE, (20, 41)),
    (THIRTEEN, TWOS, OUT_OF_TURN, (19, 44)),
    (CLOSE, ACE, PAIRED_AND_LATE, (20, 45)),
];

#[test]
fn tells_the_card_that_strays(rt: HostRuntime) {
    for (problem_text, plan_text, game_text, wanted) in STRAYING {
        let problem = problem(&rt, problem_text);
        let followed = follow(&problem, &plan(&rt, plan_text), &game(&rt, game_text));
        is_refused_at(&rt, followed, 14, game_text, *wanted);
    }
}
