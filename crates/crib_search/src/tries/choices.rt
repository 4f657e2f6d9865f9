//! The choices of ranks that the opponent may hold, and which of their deals miss a demand.

use crate::tries::grades::index_of;
use crib_cards::{GAME_HOLE, Rank, Side};
use crib_deals::{Deals, Table, are_in_order, ranks_at};
use crib_know::Know;
use crib_problem::Problem;
use crib_show::{Demand, hand_points};
use std::alloc::{AllocError, Allocator};

/// The classes that deals with the same ranks fall into by their show, as bits.
///
/// If the owner deals, there are seven by the points of the hand, the fewest first, and for each nine by those of the
/// crib, the most first. If the opponent deals and is to be stopped, there are 63 by both. Otherwise there is one.
pub(crate) type Classes = u64;

/// How many cards of each rank are left: the digits in base 16, that of the ace last.
pub(crate) type Left = u64;

// One card of each rank.
const ONES: [Left; 13] = [
    0x1,
    0x10,
    0x100,
    0x1000,
    0x1_0000,
    0x10_0000,
    0x100_0000,
    0x1000_0000,
    0x1_0000_0000,
    0x10_0000_0000,
    0x100_0000_0000,
    0x1000_0000_0000,
    0x1_0000_0000_0000,
];

// The digits of the ranks whose cards have at most so many pips.
const FITTING: [Left; 11] = [
    0x0,
    0xf,
    0xff,
    0xfff,
    0xffff,
    0xf_ffff,
    0xff_ffff,
    0xfff_ffff,
    0xffff_ffff,
    0xf_ffff_ffff,
    0xf_ffff_ffff_ffff,
];

const CLASSES: usize = 63;

const HANDS: usize = 7;

const CRIBS: usize = 9;

// The classes of the hands from a number on.
pub(crate) const FROM_HAND: [Classes; 8] = [
    0x7fff_ffff_ffff_ffff,
    0x7fff_ffff_ffff_fe00,
    0x7fff_ffff_fffc_0000,
    0x7fff_ffff_f800_0000,
    0x7fff_fff0_0000_0000,
    0x7fff_e000_0000_0000,
    0x7fc0_0000_0000_0000,
    0,
];

// The classes of the cribs past a number, with each hand.
pub(crate) const FROM_CRIB: [Classes; 10] = [
    0x7fbf_dfef_f7fb_fdfe,
    0x7f3f_9fcf_e7f3_f9fc,
    0x7e3f_1f8f_c7e3_f1f8,
    0x7c3e_1f0f_87c3_e1f0,
    0x783c_1e0f_0783_c1e0,
    0x7038_1c0e_0703_81c0,
    0x6030_180c_0603_0180,
    0x4020_1008_0402_0100,
    0,
    0,
];

/// What the end of a game asks of the deals.
#[derive(Clone, Copy)]
pub(crate) struct Asked {
    // The most points of a hand.
    hand: u8,
    // The classes that miss what is asked of the crib, or of both.
    classes: Classes,
}

impl Asked {
    /// The classes of a choice that miss what is asked.
    pub(crate) fn missing(&self, choice: &Choice) -> Classes {
        let met = self
            .hand
            .saturating_add(1)
            .saturating_sub(choice.hand)
            .min(7);
        (self.classes | FROM_HAND[met as usize]) & choice.classes
    }
}

/// The choices of four ranks that some open deal has.
#[derive(Drop)]
pub(crate) struct Choices<A: Allocator> {
    /// Whether the owner deals.
    pub(crate) is_dealer: bool,
    /// The most points that a crib needs, and the most that a hand and a crib may have.
    pub(crate) crib: u8,
    pub(crate) total: u8,
    choices: Vec<Choice, A>,
    // How many deals of each choice are in each class. It is empty if there is one class.
    counts: Vec<[u32; CLASSES], A>,
}

/// A choice of four ranks.
#[derive(Clone, Copy)]
pub(crate) struct Choice {
    /// The index among all choices of four ranks.
    pub(crate) index: usize,
    /// How many cards of each rank are left after the opening.
    pub(crate) left: Left,
    // How many open deals have its ranks.
    open_deals: u32,
    /// The fewest points of the hand.
    pub(crate) hand: u8,
    /// The classes that have a deal.
    pub(crate) classes: Classes,
}

impl<A: Allocator + Copy> Choices<A> {
    /// The choices for a problem. It fails if an allocation fails.
    pub(crate) fn of(alloc: A, problem: &Problem, know: &Know) -> Result<Self, AllocError> {
        let deals = Deals::of(problem);
        let scores = know.round().scores();
        let own_hand = hand_points(&problem.hold(), problem.starter());
        let counted = scores.owner.saturating_add(own_hand);
        let mut choices = Choices {
            is_dealer: problem.dealer() == Side::Owner,
            crib: problem.target().saturating_sub(counted),
            total: (GAME_HOLE - 1).saturating_sub(scores.opponent),
            choices: Vec::new(alloc),
            counts: Vec::new(alloc),
        };
        let may_decide = problem.dealer() == Side::Owner || problem.is_to_stop();
        for number in 0..28_561u16 {
            let ranks = ranks_at(number);
            if are_in_order(&ranks) {
                choices.add(&deals, &ranks, left_of(&ranks, know), may_decide)?;
            }
        }
        Ok(choices)
    }

    // Adds a choice, if some open deal has its ranks.
    fn add(
        &mut self,
        deals: &Deals<'_>,
        ranks: &[Rank; 4],
        left: Left,
        may_decide: bool,
    ) -> Result<(), AllocError> {
        if may_decide {
            return self.add_table(&deals.table(ranks), index_of(ranks), left);
        }
        let open_deals = deals.count(ranks, Demand::none()).open_deals;
        if open_deals > 0 {
            self.choices.push(Choice {
                index: index_of(ranks),
                left,
                open_deals,
                hand: 0,
                classes: 1,
            })?;
        }
        Ok(())
    }

    // Adds the choice of a table, if it has some deal.
    fn add_table(&mut self, table: &Table<'_>, index: usize, left: Left) -> Result<(), AllocError> {
        let open_deals = table.count(Demand::none()).open_deals;
        if open_deals == 0 {
            return Ok(());
        }
        let hand = if self.is_dealer { least_hand(table) } else { 0 };
        let counts = if self.is_dealer {
            self.by_hands(table, hand)
        } else {
            self.by_totals(table)
        };
        self.choices.push(Choice {
            index,
            left,
            open_deals,
            hand,
            classes: classes_of(&counts),
        })?;
        self.counts.push(counts)?;
        Ok(())
    }

    // How many deals of a table are in each class by their hands and cribs.
    fn by_hands(&self, table: &Table<'_>, least: u8) -> [u32; CLASSES] {
        let mut counts = [0; CLASSES];
        let mut before = [0u32; CRIBS];
        let all = table.count(Demand::none()).open_deals;
        for hand in 0..HANDS {
            if before[CRIBS - 1] == all {
                break;
            }
            let mut sum = 0u32;
            for crib in 0..CRIBS {
                let demand = Demand {
                    hand: least.saturating_add(hand as u8),
                    total: u8::MAX,
                    crib: if crib + 1 < CRIBS {
                        self.crib.saturating_sub(crib as u8)
                    } else {
                        0
                    },
                };
                let counted = table.count(demand);
                let met = counted.open_deals.saturating_sub(counted.missing);
                let here = met.saturating_sub(before[crib]);
                before[crib] = met;
                counts[hand * CRIBS + crib] = here.saturating_sub(sum);
                sum = here;
            }
        }
        counts
    }

    // How many deals of a table are in each class by the points of both.
    fn by_totals(&self, table: &Table<'_>) -> [u32; CLASSES] {
        let mut counts = [0; CLASSES];
        let mut sum = 0u32;
        for less in 0..CLASSES {
            if less > self.total as usize {
                counts[less] = table.count(Demand::none()).open_deals.saturating_sub(sum);
                break;
            }
            let demand = Demand {
                total: self.total.saturating_sub(less as u8),
                ..Demand::none()
            };
            counts[less] = table.count(demand).missing.saturating_sub(sum);
            sum = sum.saturating_add(counts[less]);
        }
        counts
    }

    /// Whether deals with the same ranks fall into classes by the points of both.
    pub(crate) fn are_by_totals(&self) -> bool {
        !self.is_dealer && !self.counts.is_empty()
    }

    /// How many open deals there are.
    pub(crate) fn open_deals(&self) -> u64 {
        let mut sum = 0u64;
        for index in 0..self.choices.len() {
            if let Some(choice) = self.choices.get(index) {
                sum = sum.saturating_add(u64::from(choice.open_deals));
            }
        }
        sum
    }

    /// How many choices there are.
    pub(crate) fn len(&self) -> usize {
        self.choices.len()
    }

    /// The choice at an index.
    pub(crate) fn get(&self, index: usize) -> Option<&Choice> {
        self.choices.get(index)
    }

    /// What a demand asks of the deals of all choices.
    pub(crate) fn asked(&self, demand: Demand) -> Asked {
        if demand.is_impossible() {
            return Asked {
                hand: u8::MAX,
                classes: Classes::MAX,
            };
        }
        if self.is_dealer {
            Asked {
                hand: demand.hand,
                classes: self.by_crib(demand),
            }
        } else {
            Asked {
                hand: u8::MAX,
                classes: self.by_total(demand),
            }
        }
    }

    fn by_crib(&self, demand: Demand) -> Classes {
        if demand.crib > self.crib {
            return Classes::MAX;
        }
        let met = (self.crib - demand.crib).min(9);
        FROM_CRIB[met as usize]
    }

    fn by_total(&self, demand: Demand) -> Classes {
        let mut missing = 0;
        let mut class = 1u64;
        for less in 0..63u8 {
            if less > self.total || self.total - less < demand.total {
                break;
            }
            missing |= class;
            class = class.saturating_mul(2);
        }
        missing
    }

    /// How many deals of a choice are in some classes.
    pub(crate) fn count(&self, index: usize, classes: Classes) -> u32 {
        let Some(choice) = self.choices.get(index) else {
            return 0;
        };
        let classes = classes & choice.classes;
        if classes == choice.classes {
            return choice.open_deals;
        }
        let Some(counts) = self.counts.get(index) else {
            return 0;
        };
        let mut sum = 0u32;
        let mut left = classes;
        for class in 0..CLASSES {
            if left == 0 {
                break;
            }
            if left % 2 == 1 {
                sum = sum.saturating_add(counts[class]);
            }
            left /= 2;
        }
        sum
    }
}

// The fewest points of a hand of a table.
fn least_hand(table: &Table<'_>) -> u8 {
    for hand in 0..30u8 {
        let counted = table.count(Demand {
            hand,
            ..Demand::none()
        });
        if counted.missing < counted.open_deals {
            return hand;
        }
    }
    0
}

// The classes that have a deal.
fn classes_of(counts: &[u32; CLASSES]) -> Classes {
    let mut classes = 0;
    let mut class = 1u64;
    for count in counts {
        if *count > 0 {
            classes |= class;
        }
        class = class.saturating_mul(2);
    }
    classes
}

/// One card of the rank of a card.
pub(crate) fn one_of(rank: Rank) -> Left {
    ONES[(rank.number() - 1) as usize]
}

/// The digits of the ranks that fit now, all bits of them.
pub(crate) fn fitting(know: &Know) -> Left {
    let room = 31u8.saturating_sub(know.round().count()).min(10);
    FITTING[room as usize]
}

// How many cards of each rank are left of these four.
fn left_of(ranks: &[Rank; 4], know: &Know) -> Left {
    let mut left: Left = 0;
    for rank in ranks {
        left = left.saturating_add(one_of(*rank));
    }
    for number in 1..14u8 {
        if let Some(rank) = Rank::new(number) {
            let seen = u64::from(know.ranks_seen().of(rank));
            left = left.saturating_sub(seen.saturating_mul(one_of(rank)));
        }
    }
    left
}
