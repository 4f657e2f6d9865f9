//! The holds that the opponent may have.
ghost use Rattle.std.specs.Prelude.{◌≡◌, ◌<◌, ◌≤◌, ℕ, None, get_or, length, IsTrue};
ghost use Rattle.std.specs.List.{AllByRecursion};
ghost use Rattle.crib_cards.specs.Cards.{IsRank};
ghost use Rattle.crib_cards.specs.Sets.{rank_counts, set_without_all};
ghost use Rattle.crib_problem.specs.Setup.{Setup};
ghost use Rattle.crib_know.specs.Hidden.{passes_counts};
ghost use Rattle.crib_deals.specs.Private.Holds.{AreListed, is_empty, join, pair_at, pair_of};
ghost use Rattle.crib_deals.specs.Deals.{behind_by};
ghost use Rattle.crib_deals.specs.Throws.{AreOfProblem};

use crate::throws::{Cribs, suit_at};
use arrayvec::ArrayVec;
use crib_cards::{Card, CardSet, Rank};
use crib_know::Know;

/// Holds with the same ranks.
pub(crate) type Holds = ArrayVec<[Card; 4], 256>;

/// Lists the holds with these ranks that some open deal has. The ranks must pass the test of what is known.
pub(crate) fn list_holds(cribs: &Cribs, know: &Know, ranks: &[Rank; 4]) -> Holds
    requires ranks { AllByRecursion IsRank ranks.now }
    requires passing { IsTrue (passes_counts know.now.least know.now.ranks_seen (rank_counts ranks.now)) }
    ensures listed { (problem : Setup) → AreOfProblem problem know.now cribs.now
        → AreListed (behind_by problem ranks.now) result.items }
    ensures few { length result.items ≤ 256 }
{
    let fronts = pairs_at(cribs.unseen, ranks, 0);
    let backs = pairs_at(cribs.unseen, ranks, 2);
    let fixed = know.fixed();
    let mut holds = Holds::new();
    for front in &fronts {
        let Some(front) = *front else {
            continue;
        };
        for back in &backs {
            if let Some(hold) = join(front, *back) {
                if has_all(&hold, fixed) {
                    holds.push(hold);
                }
            }
        }
    }
    holds
}

// The pairs of cards at an index of a hold and the next, by the number of their suits.
fn pairs_at(unseen: CardSet, ranks: &[Rank; 4], at: usize) -> [Option<[Card; 2]>; 16]
    requires { at < 3 }
    ensures { (suits : ℕ) → suits < 16 → get_or result suits None ≡ pair_at unseen ranks.now at suits }
{
    let (first, second) = (ranks[at], ranks[at + 1]);
    let mut pairs = [None; 16];
    for suits in 0..16usize {
        let one = Card::of(first, suit_at(suits / 4));
        let other = Card::of(second, suit_at(suits));
        pairs[suits] = pair_of(unseen, one, other);
    }
    pairs
}

// Two cards, if they are unseen and in pack order.
#[inline(always)]
fn pair_of(unseen: CardSet, first: Card, second: Card) -> Option<[Card; 2]>
    ensures { result ≡ pair_of unseen first second }
{
    if first.number() < second.number() && unseen.has(first) && unseen.has(second) {
        Some([first, second])
    } else {
        None
    }
}

// The hold of two pairs, if there are both, in pack order.
#[inline(always)]
fn join(front: [Card; 2], back: Option<[Card; 2]>) -> Option<[Card; 4]>
    ensures { result ≡ join (Some front) back }
{
    let Some(back) = back else {
        return None;
    };
    let [first, second] = front;
    let [third, fourth] = back;
    if second.number() < third.number() {
        Some([first, second, third, fourth])
    } else {
        None
    }
}

// Whether a hold has all of these cards.
#[inline(always)]
fn has_all(hold: &[Card; 4], cards: CardSet) -> bool
    ensures { result ≡ is_empty (set_without_all cards hold.now) }
{
    is_empty(cards) || is_empty(cards.without_all(hold))
}

#[tactic(auto, unfolding(crate::specs::Private::Holds::is_empty))]
fn is_empty(cards: CardSet) -> bool
    ensures { result ≡ is_empty cards }
{
    cards.lowest().is_none()
}
