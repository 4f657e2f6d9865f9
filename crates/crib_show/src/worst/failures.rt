//! The worst of the hidden deals that agree with the opponent's four ranks.
//!
//! The greatest hand, the least crib and the greatest sum of hand and crib decide whether all deals meet a demand.
//! Deals are tried one by one only to find the first that misses it.
ghost use Rattle.std.specs.Prelude.{◌↔◌, IsTrue};
ghost use Rattle.crib_show.specs.Worst.{HasDeal, IsFirstFailureOrNone};
ghost use Rattle.crib_show.specs.Demands.{AllMeet, IsFirstMissingOrNone};
ghost use Rattle.crib_show.specs.Extremes.{AreExtremesFor};

use crate::deals::WorstShow;
use crate::demands::{Demand, demand_of_show};
use crate::worst::cribs::plain_cribs;
use crate::worst::extremes::ExtremesByRanks;
use crate::worst::hands::know_set;
use crate::worst::listing::Sought;
use crib_cards::Dealt;

impl WorstShow {
    /// Whether some hidden deal agrees. The other calls require it.
    pub fn has_deal(&self) -> bool
        ensures { IsTrue result ↔ HasDeal self.now }
    {
        let sought = Sought {
            demand: Demand::impossible(),
            least: 0,
            most: 0,
        };
        self.first_sought(sought, &plain_cribs(&self.own_throw, self.starter))
            .is_some()
    }

    /// The first hidden deal that agrees and in which the owner does not reach the goal; `None` if there is none. Some
    /// hidden deal must agree.
    ///
    /// The first is the one whose six card numbers, hold and then throw in pack order, come first in dictionary order.
    /// It is written in pack order.
    pub fn first_failure(&self) -> Option<Dealt>
        requires { HasDeal self.now }
        ensures { IsFirstFailureOrNone self.now result }
    {
        know_set(self.unseen);
        let mut shows = ExtremesByRanks::new(&self.own_hold, &self.own_throw, self.starter);
        let hand = shows.own.hand;
        let demand = demand_of_show(self.dealer, self.scores, self.target, self.stop, hand);
        shows.first_missing(self, demand)
    }
}

impl ExtremesByRanks {
    /// Whether all hidden deals of a show that agree meet a demand. It uses the points that were kept from earlier
    /// shows, and keeps those that it computes. Some hidden deal must agree, and the points must be those of the same
    /// starter, the same cards of the owner, and the same unseen and fixed cards.
    #[inline(never)]
    pub fn meets_all(&mut self, worst: &WorstShow, demand: Demand) -> bool
        requires deal { HasDeal worst.now }
        requires shows { AreExtremesFor worst.now self.old }
        ensures all { IsTrue result ↔ AllMeet worst.now demand }
        ensures shows { AreExtremesFor worst.now self.new }
    {
        let index = worst.ranks_index();
        let mut kept = self.kept[index];
        let met = kept.meet(worst, &mut self.own, demand);
        self.kept[index] = kept;
        met
    }

    /// The first hidden deal of a show that agrees and misses a demand; `None` if all meet it. It uses the points that
    /// were kept, and requires the same as [`ExtremesByRanks::meets_all`].
    pub fn first_missing(&mut self, worst: &WorstShow, demand: Demand) -> Option<Dealt>
        requires deal { HasDeal worst.now }
        requires shows { AreExtremesFor worst.now self.old }
        ensures first { IsFirstMissingOrNone worst.now demand result }
        ensures shows { AreExtremesFor worst.now self.new }
    {
        let mut kept = self.kept[worst.ranks_index()];
        let sought = kept.sought(worst, &mut self.own, demand);
        worst.first_sought(sought, &self.own.plain(worst))
    }
}
