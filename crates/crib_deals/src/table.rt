//! The open deals with four ranks, by the points of the hand and of the crib.
ghost use Rattle.std.specs.Prelude.{◌≡◌, ◌≤◌, ℕ, length, slice_index};
ghost use Rattle.crib_know.specs.Knowledge.{Knowledge};
ghost use Rattle.crib_deals.specs.Exact.{AreExactly};
ghost use Rattle.crib_deals.specs.Deals.{Behind, IsBehind, IsMissing, behind_by};
ghost use Rattle.crib_deals.specs.Private.Holds.{AreListed};
ghost use Rattle.crib_deals.specs.Throws.{AreOfProblem};
ghost use Rattle.crib_deals.specs.Private.Rows.{IsMissingIn};
ghost use Rattle.crib_deals.specs.Tables.{IsRow};

use crate::points::plain_points;
use crate::sums::sums_of;
use crate::throws::{Cribs, LIMITS, THROWS};
use crib_cards::{Card, Rank};
use crib_problem::Problem;
use crib_show::{Demand, MOST_POINTS};
use std::marker::Model;

/// The open deals whose hold has four ranks, and how many of them miss a demand.
#[derive(Clone, Copy)]
pub struct Counted {
    /// The open deals with these ranks.
    pub open_deals: u32,
    /// Those of them that miss the demand.
    pub missing: u32,
}

/// The open deals whose hold has four ranks, by the points of the hand and of the crib. Contracts see the problem and
/// the ranks.
#[derive(Drop)]
pub struct Table<'a> {
    problem: &'a Problem,
    ranks: [Rank; 4],
    open_deals: u32,
    // The points of the ranks of a hand.
    plain: u8,
    // By the points of the suits of a hand: for each limit, how many deals have a crib with fewer points.
    below: [[u32; LIMITS]; 7],
}

impl<'a> Model for Table<'a> {
    ghost use Rattle.crib_deals.specs.Deals.{Behind, behind_by};
    ghost use Rattle.crib_deals.specs.Tables.{IsTable};

    ghost Value = { Behind };

    ghost view = { λ table. behind_by table.problem.now table.ranks };

    ghost invariant = { λ table. IsTable (behind_by table.problem.now table.ranks) table.open_deals table.plain
        table.below };
}

impl<'a> Table<'a> {
    /// Counts the open deals with these holds, which are all with their ranks.
    pub(crate) fn of(
        problem: &'a Problem,
        cribs: &Cribs,
        ranks: &[Rank; 4],
        holds: &[[Card; 4]],
    ) -> Self
        requires cribs { (know : Knowledge) × AreOfProblem problem.now know cribs.now }
        requires listed { AreListed (behind_by problem.now ranks.now) holds.now }
        requires few { length holds.now ≤ 256 }
        ensures { result ≡ behind_by problem.now ranks.now }
    {
        let starter = problem.starter();
        let sums = sums_of(cribs, starter, holds);
        let mut below = [[0; LIMITS]; 7];
        for suits in 0..7usize {
            below[suits] = sums[suits].below(cribs, ranks);
        }
        Table {
            problem,
            ranks: *ranks,
            open_deals: THROWS * holds.len() as u32,
            plain: plain_points(ranks, starter),
            below,
        }
    }

    /// Counts the deals, and those of them that miss a demand.
    pub fn count(&self, demand: Demand) -> Counted
        ensures open { AreExactly (IsBehind self.now) result.open_deals }
        ensures missing { AreExactly (IsMissing self.now demand) result.missing }
        ensures few { (result.missing ≤ result.open_deals) × (result.open_deals ≤ 209920) }
    {
        Counted {
            open_deals: self.open_deals,
            missing: self.missing(demand),
        }
    }

    // How many of the deals miss a demand.
    fn missing(&self, demand: Demand) -> u32
        ensures { AreExactly (IsMissing self.now demand) result }
    {
        let mut missing = 0;
        for suits in 0..7u8 {
            missing += missing_in(&self.below[suits as usize], self.plain + suits, demand);
        }
        missing
    }
}

// How many deals of a row miss a demand, if their hands have so many points.
fn missing_in(below: &[u32; LIMITS], hand: u8, demand: Demand) -> u32
    requires { (behind : Behind) × (suits : ℕ) × IsRow behind suits below.now hand }
    ensures exact { (behind : Behind) (suits : ℕ) → IsRow behind suits below.now hand
        → AreExactly (IsMissingIn behind demand suits) result }
    ensures few { result ≤ slice_index below.now 30 }
{
    let all = below[30];
    if hand > demand.hand || hand > demand.total {
        return all;
    }
    let past = (demand.total - hand).min(MOST_POINTS) + 1;
    let least = demand.crib.min(past);
    all - (below[past as usize] - below[least as usize])
}
