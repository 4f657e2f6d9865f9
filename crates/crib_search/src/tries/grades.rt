//! The grades of deals: how many demands of a ladder they meet in a row.

use crate::tries::choices::{Choice, Choices, Classes, FROM_CRIB, FROM_HAND};
use crib_cards::Rank;
use crib_show::{Demand, choice_index, count_ranks};
use std::alloc::Allocator;

/// How many grades there are.
pub const GRADES: usize = 16;

/// How many rungs a ladder has: one fewer.
pub const RUNGS: usize = 15;

/// A ladder of demands. The grade of a deal is how many of them it meets in a row, from the first on.
#[derive(Clone, Copy)]
pub struct Ladder {
    pub rungs: [Demand; RUNGS],
}

// How many rungs separate the hands of a choice, and how many the cribs.
const HAND_RUNGS: u8 = 6;

const CRIB_RUNGS: u8 = 8;

/// By which points of the show deals have their grades. From one rung of a ladder to the next it is a point.
#[derive(Clone, Copy)]
pub(crate) enum Scale {
    /// By those of the opponent's hand, and of the least hands by those of the crib.
    Hands,
    /// By those of the crib, and where it has enough by those of the opponent's hand.
    Cribs,
    /// By those of the opponent's hand and crib together.
    Totals,
}

impl Scale {
    /// The ladder for the deals of a choice of ranks.
    pub(crate) fn ladder<A: Allocator>(self, choices: &Choices<A>, choice: &Choice) -> Ladder {
        let mut rungs = [Demand::impossible(); RUNGS];
        for rung in 0..15u8 {
            rungs[rung as usize] = match self {
                Scale::Hands if rung < HAND_RUNGS => least_hand(choice, HAND_RUNGS - rung),
                Scale::Hands => least_crib(choices, (HAND_RUNGS + CRIB_RUNGS).saturating_sub(rung)),
                Scale::Cribs if rung < CRIB_RUNGS => least_crib(choices, CRIB_RUNGS - rung),
                Scale::Cribs => least_hand(choice, (HAND_RUNGS + CRIB_RUNGS).saturating_sub(rung)),
                Scale::Totals if rung > choices.total => Demand::impossible(),
                Scale::Totals => Demand {
                    total: choices.total.saturating_sub(rung),
                    ..Demand::none()
                },
            };
        }
        Ladder { rungs }
    }

    /// The classes of deals that have a grade.
    pub(crate) fn classes(self, grade: usize) -> Classes {
        let (hands, cribs) = (HAND_RUNGS as usize, CRIB_RUNGS as usize);
        match self {
            Scale::Totals => totals_at(grade),
            _ if grade > hands + cribs => 0,
            Scale::Hands if grade < hands => hands_above(hands - grade),
            Scale::Hands => hands_above(0) & cribs_below(hands + cribs - grade),
            Scale::Cribs if grade < cribs => cribs_below(cribs - grade),
            Scale::Cribs => cribs_below(0) & hands_above(hands + cribs - grade),
        }
    }
}

// The demand that a hand has fewer points than so many above the least hand of a choice. None is asked for no points.
fn least_hand(choice: &Choice, above: u8) -> Demand {
    if above == 0 {
        return Demand::impossible();
    }
    Demand {
        hand: choice.hand.saturating_add(above).saturating_sub(1),
        ..Demand::none()
    }
}

// The demand that the crib lacks fewer points than so many.
fn least_crib<A: Allocator>(choices: &Choices<A>, lacking: u8) -> Demand {
    if lacking == 0 {
        return Demand::impossible();
    }
    Demand {
        crib: choices.crib.saturating_add(1).saturating_sub(lacking),
        ..Demand::none()
    }
}

// The classes of hands so many points above the least one.
fn hands_above(points: usize) -> Classes {
    if points > HAND_RUNGS as usize {
        return 0;
    }
    FROM_HAND[points] & !FROM_HAND[points + 1]
}

// The classes of cribs that lack so many points, the last one or more.
fn cribs_below(points: usize) -> Classes {
    if points == 0 {
        return FROM_HAND[0] & !FROM_CRIB[0];
    }
    if points > CRIB_RUNGS as usize {
        return 0;
    }
    FROM_CRIB[points - 1] & !FROM_CRIB[points]
}

fn totals_at(grade: usize) -> Classes {
    let mut below: Classes = 0;
    for _ in 0..grade.min(RUNGS) {
        below = below.saturating_mul(2).saturating_add(1);
    }
    if grade < RUNGS {
        below.saturating_add(1)
    } else {
        FROM_HAND[0] & !below
    }
}

/// How many deals of some classes of a choice have the same grade as others of the choice.
pub(crate) fn mixed<A: Allocator + Copy>(
    choices: &Choices<A>,
    choice: usize,
    classes: Classes,
    scale: Scale,
) -> u64 {
    let mut sum = 0u64;
    for grade in 0..GRADES {
        let all = choices.count(choice, scale.classes(grade));
        let part = choices.count(choice, scale.classes(grade) & classes);
        sum = sum.saturating_add(u64::from(part.min(all.saturating_sub(part))));
    }
    sum
}

/// The index of four ranks among all choices of four.
pub(crate) fn index_of(ranks: &[Rank; 4]) -> usize {
    choice_index(&count_ranks(ranks))
}
