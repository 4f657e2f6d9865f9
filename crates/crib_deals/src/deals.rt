//! The open deals of a problem.
ghost use Rattle.std.specs.Prelude.{◌≡◌, ◌≤◌, ℕ, length, IsTrue};
ghost use Rattle.crib_cards.specs.declared.sides.Dealt.{Dealt};
ghost use Rattle.crib_show.specs.Demands.{is_met};
ghost use Rattle.crib_show.specs.Show.{most_points};
ghost use Rattle.crib_deals.specs.Exact.{AreExactly};
ghost use Rattle.crib_deals.specs.Deals.{IsBehind, IsMissing, behind_by};
ghost use Rattle.crib_deals.specs.Private.Holds.{AreListed};

use crate::holds::{Holds, list_holds};
use crate::points::plain_points;
use crate::table::{Counted, Table};
use crate::throws::{Cribs, THROWS};
use crib_cards::Rank;
use crib_know::Know;
use crib_problem::Problem;
use crib_show::{Demand, MOST_POINTS, count_ranks};
use std::marker::Model;

// No hand has more points for its suits.
const MOST_SUITS: u8 = 6;

/// The open deals of a problem: those that agree with its opening. Contracts see the problem.
#[derive(Drop)]
pub struct Deals<'a> {
    problem: &'a Problem,
    // What the owner knows after the opening.
    know: Know,
    cribs: Cribs,
}

impl<'a> Model for Deals<'a> {
    ghost use Rattle.crib_problem.specs.Setup.{Setup};
    ghost use Rattle.crib_deals.specs.Throws.{AreOfProblem};

    ghost Value = { Setup };

    ghost view = { λ deals. deals.problem.now };

    ghost invariant = { λ deals. AreOfProblem deals.problem.now deals.know deals.cribs };
}

impl<'a> Deals<'a> {
    /// Returns the open deals of a problem.
    pub fn of(problem: &'a Problem) -> Self
        ensures { result ≡ problem.now }
    {
        Deals {
            problem,
            know: Know::start(problem),
            cribs: Cribs::new(&problem.thrown(), problem.starter(), problem.unseen()),
        }
    }

    /// Counts the open deals whose hold has these ranks, and those of them that miss a demand.
    pub fn count(&self, ranks: &[Rank; 4], demand: Demand) -> Counted
        ensures open { AreExactly (IsBehind (behind_by self.now ranks.now)) result.open_deals }
        ensures missing { AreExactly (IsMissing (behind_by self.now ranks.now) demand) result.missing }
        ensures few { (result.missing ≤ result.open_deals) × (result.open_deals ≤ 209920) }
    {
        let holds = self.holds(ranks);
        let open_deals = THROWS * holds.len() as u32;
        if demand.is_impossible() {
            Counted {
                open_deals,
                missing: open_deals,
            }
        } else if self.all_meet(ranks, demand) {
            Counted {
                open_deals,
                missing: 0,
            }
        } else {
            Table::of(self.problem, &self.cribs, ranks, holds.as_slice()).count(demand)
        }
    }

    /// Returns the open deals whose hold has these ranks, by the points of the hand and of the crib.
    pub fn table(&self, ranks: &[Rank; 4]) -> Table<'a>
        ensures { result ≡ behind_by self.now ranks.now }
    {
        Table::of(
            self.problem,
            &self.cribs,
            ranks,
            self.holds(ranks).as_slice(),
        )
    }

    // Whether even the most points that a hand with these ranks may have let each open deal meet a demand.
    fn all_meet(&self, ranks: &[Rank; 4], demand: Demand) -> bool
        ensures { IsTrue result → (dealt : Dealt) → IsMissing (behind_by self.now ranks.now) demand dealt → ⊥ }
    {
        demand.is_met_by_all()
            || is_met_below(demand, MOST_SUITS)
                && is_met_below(
                    demand,
                    plain_points(ranks, self.problem.starter()) + MOST_SUITS,
                )
    }

    // The holds with these ranks that some open deal has.
    fn holds(&self, ranks: &[Rank; 4]) -> Holds
        ensures listed { AreListed (behind_by self.now ranks.now) result.items }
        ensures few { length result.items ≤ 256 }
    {
        if !self.know.passes(&count_ranks(ranks)) {
            return Holds::new();
        }
        list_holds(&self.cribs, &self.know, ranks)
    }
}

// Whether each hand of at most so many points and each crib meet a demand.
fn is_met_below(demand: Demand, hand: u8) -> bool
    ensures { IsTrue result → (points crib : ℕ) → points ≤ hand → crib ≤ most_points
        → IsTrue (is_met demand points crib) }
{
    demand.crib == 0
        && hand <= demand.hand
        && hand <= demand.total
        && MOST_POINTS <= demand.total - hand
}
