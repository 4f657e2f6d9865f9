//! Problems and plans with their verdicts.
use crib_game::Ending::{self, Lost, Short, Stuck};
use example_texts::games::*;
use example_texts::plans::*;
use example_texts::problems::*;

/// A problem, a plan, and the first failing game with its ending, if there is one.
pub(crate) type Row = (&'static str, &'static str, Option<(Ending, &'static str)>);

pub(crate) static SURE: [Row; 4] = [
    (TWELVE, TWOS, None),
    (NEAR, TWOS, None),
    (TWELVE, LOOK, None),
    (DEALERS_THIRTEEN, TWOS, None),
];

pub(crate) static SHORT: [Row; 2] = [
    (THIRTEEN, TWOS, Some((Short, OWNER_LEADS))),
    (
        DEALERS_FOURTEEN,
        TWOS,
        Some((Short, OPPONENT_LEADS_TO_NOTHING)),
    ),
];

pub(crate) static LOST: [Row; 2] = [
    (CLOSE, ACE, Some((Lost, PAIRED))),
    (RACE, TWOS, Some((Lost, OPPONENT_LEADS))),
];

pub(crate) static STUCK: [Row; 5] = [
    (TWELVE, NO_PLAN, Some((Stuck, NO_ACTS))),
    (NEAR, NO_PLAN, Some((Stuck, ONE_ACE))),
    (TWELVE, TWICE, Some((Stuck, TWO_AND_ACE))),
    (TWELVE, LATE_LOOK, Some((Stuck, GO_AT_22))),
    (TWELVE, NO_KING, Some((Stuck, KING))),
];

pub(crate) static BEGUN_ROWS: [Row; 6] = [
    (BEGUN, REST, None),
    (BEGUN_SHORT, REST, Some((Short, DIAMOND_FIRST))),
    (BEGUN_SHORT, NO_PLAN, Some((Stuck, TWO_AND_DIAMOND))),
    (LAST_TWO, LOOKS, None),
    (LAST_TWO, SEVEN_FIRST, Some((Lost, RUN_LOST))),
    (LAST_TWO_STOP, SEVEN_FIRST, Some((Lost, RUN_LOST))),
];

pub(crate) static STOPPING: [Row; 4] = [
    (STOP_FAR, TWOS, None),
    (STOP_FAR, NO_PLAN, Some((Stuck, NO_ACTS))),
    (STOP_NEAR, TWOS, Some((Lost, OWNER_LEADS))),
    (STOP_SHOW, TWOS, Some((Lost, OWNER_LEADS_TO_SIXTEEN))),
];

/// The four twos are sure.
pub(crate) static FOUR_TWOS: [Row; 1] = [(TWELVE, TWOS, None)];

/// A two is stated twice.
pub(crate) static STATED_TWICE: [Row; 1] = [(TWELVE, TWICE, Some((Stuck, TWO_AND_ACE)))];
