//! The counted shows of one problem, kept between the ends of the play.
ghost use Rattle.std.specs.Prelude.{◌≡◌, ◌↔◌, ℕ, ◌<◌, List, IsTrue};
ghost use Rattle.crib_show.specs.Demands.{AllMeet};
ghost use Rattle.crib_show.specs.Private.Listing.{AreWithin};
ghost use Rattle.crib_show.specs.Private.Indices.{HasRightPoints, IsIndex};
ghost use Rattle.crib_show.specs.Extremes.{AreKept, AreExtremes};
ghost use Rattle.crib_show.specs.Worst.{HasDeal, IsGreatestCrib, IsGreatestHand, IsGreatestTotal};
ghost use Rattle.crib_show.specs.Worst.{IsLeastCrib};

use crate::deals::{OwnPoints, WorstShow};
use crate::demands::Demand;
use crate::indices::{CHOICES, choice_index};
use crate::show::points::hand_points;
use crate::worst::cribs::known_crib;
use crate::worst::hands::know_set;
use crate::worst::listing::Sought;
use crib_cards::Card;

/// The value of points that have not been computed.
const NOT_KEPT: u8 = 255;

/// The counted shows of one problem, kept between the ends of the play.
///
/// Within a problem the starter, the owner's cards, the unseen and the fixed cards stay the same. So the points
/// computed for some ranks of the opponent hold at every end with these ranks, whatever the scores.
#[derive(Drop)]
pub struct ExtremesByRanks {
    /// The points that follow from the starter and the owner's cards.
    pub own: OwnPoints,
    pub(crate) kept: [Extremes; CHOICES],
}

/// The points that have been computed for some ranks of the opponent, in four bytes.
#[derive(Clone, Copy)]
pub struct Extremes {
    /// The points of the greatest hand.
    pub greatest_hand: u8,
    /// The points of the least crib.
    pub least_crib: u8,
    /// The points of the greatest crib.
    pub greatest_crib: u8,
    /// The points of the greatest sum of hand and crib.
    pub greatest_total: u8,
}

impl Extremes {
    // Nothing has been computed.
    fn new() -> Self
        ensures { (worst : WorstShow) → AreKept worst result }
    {
        Extremes {
            greatest_hand: NOT_KEPT,
            least_crib: NOT_KEPT,
            greatest_crib: NOT_KEPT,
            greatest_total: NOT_KEPT,
        }
    }

    // The points of the greatest hand, computed unless they are kept. Some hidden deal must agree.
    pub(crate) fn greatest_hand(&mut self, worst: &WorstShow) -> u8
        requires deal { HasDeal worst.now }
        requires kept { AreKept worst.now self.old }
        ensures greatest { IsGreatestHand worst.now result }
        ensures kept { AreKept worst.now self.new }
    {
        if self.greatest_hand == NOT_KEPT {
            self.greatest_hand = worst.worst_hand();
        }
        self.greatest_hand
    }

    // The points of the least crib, computed unless they are kept. Some hidden deal must agree.
    pub(crate) fn least_crib(&mut self, worst: &WorstShow, own: &mut OwnPoints) -> u8
        requires { HasRightPoints worst.now own.old self.old }
        ensures least { IsLeastCrib worst.now result }
        ensures right { HasRightPoints worst.now own.new self.new }
    {
        if self.least_crib == NOT_KEPT {
            self.least_crib = worst.low_crib(&own.plain(worst));
        }
        self.least_crib
    }

    // The points of the greatest crib, computed unless they are kept. Some hidden deal must agree.
    #[inline(always)]
    pub(crate) fn greatest_crib(&mut self, worst: &WorstShow, own: &mut OwnPoints) -> u8
        requires { HasRightPoints worst.now own.old self.old }
        ensures greatest { IsGreatestCrib worst.now result }
        ensures right { HasRightPoints worst.now own.new self.new }
    {
        if self.greatest_crib == NOT_KEPT {
            self.greatest_crib = worst.greatest_crib(&own.plain(worst));
        }
        self.greatest_crib
    }

    // The points of the greatest sum of hand and crib, computed unless they are kept. Some hidden deal must agree.
    pub(crate) fn greatest_total(&mut self, worst: &WorstShow, own: &mut OwnPoints) -> u8
        requires { HasRightPoints worst.now own.old self.old }
        ensures greatest { IsGreatestTotal worst.now result }
        ensures right { HasRightPoints worst.now own.new self.new }
    {
        let crib = self.greatest_crib(worst, own);
        if self.greatest_total == NOT_KEPT {
            self.greatest_total = worst.greatest_total(&own.plain(worst), crib);
        }
        self.greatest_total
    }

    // What is sought by a demand: the deals that miss it, with bounds on the points of every crib. The least and the
    // greatest crib are computed only if the demand may turn on them.
    #[inline(always)]
    pub(crate) fn sought(
        &mut self,
        worst: &WorstShow,
        own: &mut OwnPoints,
        demand: Demand,
    ) -> Sought
        requires { HasRightPoints worst.now own.old self.old }
        ensures demand { result.demand ≡ demand }
        ensures least { result.least < demand.crib → IsLeastCrib worst.now result.least }
        ensures within { AreWithin worst.now result.least result.most }
        ensures right { HasRightPoints worst.now own.new self.new }
    {
        know_set(worst.unseen);
        let mut sought = Sought {
            demand,
            least: own.crib,
            most: 102,
        };
        if demand.crib > own.crib {
            sought.least = self.least_crib(worst, own);
        }
        if demand.total < 204 {
            sought.most = self.greatest_crib(worst, own);
        }
        sought
    }

    // Whether all deals meet a demand. The greatest hand and the bounds of the crib are tried first; only if they leave
    // it open, the greatest sum of one deal is computed.
    pub(crate) fn meet(&mut self, worst: &WorstShow, own: &mut OwnPoints, demand: Demand) -> bool
        requires { HasRightPoints worst.now own.old self.old }
        ensures all { IsTrue result ↔ AllMeet worst.now demand }
        ensures right { HasRightPoints worst.now own.new self.new }
    {
        let hand = self.greatest_hand(worst);
        if hand > demand.hand {
            return false;
        }
        know_set(worst.unseen);
        if demand.crib == 0 && demand.total >= 204 {
            return true;
        }
        let sought = self.sought(worst, own, demand);
        !sought.may_miss(hand)
            || demand.crib <= sought.least && self.greatest_total(worst, own) <= demand.total
    }
}

impl ExtremesByRanks {
    /// The shows of a problem with these cards, none of which has been counted yet.
    pub fn new(hold: &[Card; 4], throw: &[Card; 2], starter: Card) -> ExtremesByRanks
        ensures { (unseen fixed : List ℕ) → AreExtremes starter hold.now throw.now unseen fixed result }
    {
        ExtremesByRanks {
            own: OwnPoints {
                hand: hand_points(hold, starter),
                crib: known_crib(throw, starter),
                plain: None,
            },
            kept: [Extremes::new(); CHOICES],
        }
    }
}

impl WorstShow {
    /// The index of the opponent's ranks among all choices of four. Some deal must agree.
    pub(crate) fn ranks_index(&self) -> usize
        requires { HasDeal self.now }
        ensures { IsIndex self.now.ranks result }
    {
        know_set(self.unseen);
        know_set(self.fixed);
        choice_index(&self.ranks)
    }
}
