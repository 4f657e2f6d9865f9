//! The hidden deals that agree, tried one by one in dictionary order.
ghost use Rattle.std.specs.Prelude.{◌≡◌, ◌-◌, ◌<◌, ◌≤◌, length, take};
ghost use Rattle.std.specs.List.{list_all};
ghost use Rattle.crib_cards.specs.Sets.{IsCardSet, count_rank, has};
ghost use Rattle.crib_show.specs.Demands.{IsFirstMissingOrNone};
ghost use Rattle.crib_show.specs.Private.Listing.{IsBounded, first_hold};
ghost use Rattle.crib_show.specs.Private.Listing.{first_throw};
ghost use Rattle.crib_show.specs.Private.Listing.{may_hold, may_miss, try_hold};
ghost use Rattle.crib_show.specs.Show.{hand_points};
ghost use Rattle.crib_show.specs.Worst.{ArePlain};

use crate::deals::{PlainCribs, WorstShow};
use crate::demands::Demand;
use crate::show::points::{count_ranks, hand_points, ranks_of};
use crate::worst::hands::know_set;
use crib_cards::{Card, CardSet, Dealt, Rank};

/// A demand that the sought deals miss, and bounds on the points of every crib.
#[derive(Clone, Copy)]
pub struct Sought {
    pub demand: Demand,
    /// No crib has fewer points.
    pub least: u8,
    /// No crib has more points.
    pub most: u8,
}

impl Sought {
    // Whether a deal may miss the demand in which the opponent's hand has this many points.
    pub(crate) fn may_miss(self, hand: u8) -> bool
        ensures { result ≡ may_miss self hand }
    {
        !(self.demand.is_met(hand, self.least) && self.demand.is_met(hand, self.most))
    }
}

// The hidden deals that agree, and what is sought among them. `plain` has the points of the crib's ranks.
#[derive(Drop)]
struct Listing<'a> {
    worst: &'a WorstShow,
    sought: Sought,
    plain: &'a PlainCribs,
    ghost points: { ArePlain worst.now.starter worst.now.own_throw plain.now },
}

impl WorstShow {
    // The first hidden deal that agrees and misses the demand, in dictionary order of its six card numbers.
    pub(crate) fn first_sought(&self, sought: Sought, plain: &PlainCribs) -> Option<Dealt>
        requires plain { ArePlain self.now.starter self.now.own_throw plain.now }
        requires sought { IsBounded self.now sought }
        ensures { IsFirstMissingOrNone self.now sought.demand result }
    {
        let listing = Listing {
            worst: self,
            sought,
            plain,
        };
        listing.first_from(&[self.starter; 4], 0, self.unseen)
    }

    // Whether four cards have the opponent's ranks and the fixed cards are among them.
    pub(crate) fn may_hold(&self, hold: &[Card; 4]) -> bool
        ensures { result ≡ may_hold self.now hold.now }
    {
        count_ranks(&ranks_of(hold)) == self.ranks && has_all(hold, self.fixed)
    }
}

impl Listing<'_> {
    // The first deal that is sought. Its hold begins with the first `len` cards of `hold`, and its other cards are of
    // `cards`. A card is tried only if the hold lacks one of its rank. If the hold is found to lack more of a rank than
    // are left, nothing else is tried.
    fn first_from(&self, hold: &[Card; 4], len: usize, cards: CardSet) -> Option<Dealt>
        requires { len ≤ 4 }
        ensures value { result ≡ first_hold self.now.worst.now self.now.sought (take len hold.now) (4 - len) cards }
        ensures set { len < 4 → IsCardSet cards }
    {
        if len == 4 {
            return self.first_of_hold(*hold);
        }
        let Some(card) = cards.lowest() else {
            return None;
        };
        let cards = cards.without(card);
        let rank = card.rank();
        let held = count_rank(&hold[..len], rank);
        if held < self.worst.ranks.of(rank) {
            let mut longer = *hold;
            longer[len] = card;
            if let Some(dealt) = self.first_from(&longer, len + 1, cards) {
                return Some(dealt);
            }
            if held + cards.count_rank(rank) < self.worst.ranks.of(rank) {
                return None;
            }
        }
        self.first_from(hold, len, cards)
    }

    // The first deal with this hold that is sought, or `None` if the opponent cannot have this hold or no such deal is
    // sought. The throws are tried only if a deal with these points of the hold may miss the demand.
    fn first_of_hold(&self, hold: [Card; 4]) -> Option<Dealt>
        ensures { result ≡ try_hold self.now.worst.now self.now.sought hold }
    {
        if !self.worst.may_hold(&hold) {
            return None;
        }
        let hand = hand_points(&hold, self.worst.starter);
        if !self.sought.may_miss(hand) {
            return None;
        }
        self.first_throw(hold, hand, self.worst.unseen.without_all(&hold))
    }

    // The first deal with this hold that misses the demand and whose throw is two of `cards`. `hand` is the points of
    // the hold.
    fn first_throw(&self, hold: [Card; 4], hand: u8, cards: CardSet) -> Option<Dealt>
        requires { hand ≡ hand_points hold self.now.worst.now.starter }
        ensures { result ≡ first_throw self.now.worst.now self.now.sought.demand hold cards }
    {
        let mut firsts = cards;
        while let Some(first) = firsts.lowest() {
            firsts = firsts.without(first);
            let mut seconds = firsts;
            while let Some(second) = seconds.lowest() {
                seconds = seconds.without(second);
                let crib = self.worst.crib_of_throw(self.plain, first, second);
                if !self.sought.demand.is_met(hand, crib) {
                    let throw = [first, second];
                    return Some(Dealt { hold, throw });
                }
            }
        }
        None
    }
}

// How many of some cards have this rank.
fn count_rank(cards: &[Card], rank: Rank) -> u8
    requires { length cards.now ≤ 4 }
    ensures value { result ≡ count_rank rank cards.now }
    ensures range { result ≤ 4 }
{
    let mut count = 0;
    for card in cards {
        if card.rank() == rank {
            count += 1;
        }
    }
    count
}

// Whether some cards contain a whole set.
pub(crate) fn has_all(cards: &[Card], set: CardSet) -> bool
    ensures { result ≡ list_all (has cards.now) set }
{
    know_set(set);
    set.without_all(cards).lowest().is_none()
}
