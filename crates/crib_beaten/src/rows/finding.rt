//! Finds terms that say which hands beat a plan. A term is met by no possible choice of ranks without a deal that beats
//! the plan.
ghost use Rattle.std.specs.Prelude.{◌<◌};

use crate::rows::{ANY, AllHands, Slot, Term, Three, WIDEST, columns_of, leave_out, meet_three};
use crate::tally::RanksTally;
use arrayvec::ArrayVec;
use crib_cards::{CardSet, Rank};
use crib_deals::{are_in_order, ranks_at};
use crib_show::count_ranks;

// How many terms are tried.
pub(crate) const TRIED: usize = 24;

// For each number of three ranks in order, the ranks that some choices have beside them: a bit for each.
type Beside = [u16; 2197];

/// Returns terms to try, each made as wide as it can be from the choice with most deals that meets none before it.
pub(crate) fn terms_to_try(unseen: CardSet, tallied: &[RanksTally]) -> ArrayVec<Term, TRIED> {
    let spared = beside_spared(unseen, tallied);
    let mut terms = ArrayVec::new();
    let mut left = AllHands::new();
    let _fits = left.try_extend_from_slice(tallied);
    for _count in 0..TRIED {
        let Some(most) = most_beaten(left.as_slice()) else {
            break;
        };
        let term = widened(&most.ranks, &beside_all(left.as_slice()), &spared);
        leave_out(&mut left, &term);
        terms.push(term);
    }
    terms
}

// Returns the ranks beside three others of the choices that the opponent may have and that are not in a tally.
fn beside_spared(unseen: CardSet, tallied: &[RanksTally]) -> Beside {
    let mut beside = [0; 2197];
    let mut next = 0;
    for number in 0..28561u16 {
        let ranks = ranks_at(number);
        if !are_in_order(&ranks) || !are_possible(unseen, &ranks) {
            continue;
        }
        if next < tallied.len() && tallied[next].ranks == ranks {
            next += 1;
        } else {
            add_choice(&mut beside, &ranks);
        }
    }
    beside
}

// Returns the ranks beside three others of all choices of some rows.
fn beside_all(hands: &[RanksTally]) -> Beside {
    let mut beside = [0; 2197];
    for hand in hands {
        add_choice(&mut beside, &hand.ranks);
    }
    beside
}

// Adds each rank of a choice beside the other three.
fn add_choice(beside: &mut Beside, ranks: &[Rank; 4]) {
    let [a, b, c, d] = ranks.map(|rank| rank.number() - 1);
    add_beside(beside, a, b, c, d);
    add_beside(beside, b, a, c, d);
    add_beside(beside, c, a, b, d);
    add_beside(beside, d, a, b, c);
}

fn add_beside(beside: &mut Beside, rank: u8, first: u8, second: u8, third: u8)
    requires { (rank < 13) × (first < 13) × (second < 13) × (third < 13) }
{
    let number = 169 * first as usize + 13 * second as usize + third as usize;
    beside[number] |= 1 << rank;
}

// Whether there are enough cards for a choice of ranks among those that are unseen.
fn are_possible(unseen: CardSet, ranks: &[Rank; 4]) -> bool {
    let counts = count_ranks(ranks);
    for rank in ranks {
        if counts.of(*rank) > unseen.count_rank(*rank) {
            return false;
        }
    }
    true
}

// Returns the choice with most deals that beat the plan, the first of equals.
fn most_beaten(hands: &[RanksTally]) -> Option<RanksTally> {
    let mut most = *hands.first()?;
    for other in hands {
        if other.beaten > most.beaten {
            most = *other;
        }
    }
    Some(most)
}

// Returns the widest term from a choice of ranks on. No spared choice meets it, and each rank that it gains is met.
fn widened(ranks: &[Rank; 4], left: &Beside, spared: &Beside) -> Term {
    let mut term = with_any_cards(ranks, spared);
    for slot in 0..4 {
        if term[slot] == ANY {
            continue;
        }
        let gained = ranks_beside(&term, slot, left) & !ranks_beside(&term, slot, spared);
        for rank in 0..13 {
            let mut wider = term;
            wider[slot][rank] = true;
            if gained & (1 << rank) != 0 && wider[slot] != ANY && columns_of(&wider) <= WIDEST {
                term = wider;
            }
        }
    }
    term
}

// Returns the term of a choice of ranks, with any card in each slot that can have it, behind the others. One slot at
// least can't.
fn with_any_cards(ranks: &[Rank; 4], spared: &Beside) -> Term {
    let [first, second, third, fourth] = *ranks;
    let mut term = [only(first), only(second), only(third), only(fourth)];
    let mut slot = 0;
    for _count in 0..4usize {
        let wider = with_any_last(&term, slot);
        if wider[0] != ANY && ranks_beside(&wider, 3, spared) == 0 {
            term = wider;
        } else {
            slot += 1;
        }
    }
    term
}

// Returns a term without a slot, and with one of any card behind the others.
fn with_any_last(term: &Term, slot: usize) -> Term {
    let mut slots = *term;
    for next in slot..3 {
        slots[next] = slots[next + 1];
    }
    slots[3] = ANY;
    slots
}

// Returns the ranks that a card of some choices has, if the other three meet the other slots of a term.
fn ranks_beside(term: &Term, slot: usize, beside: &Beside) -> u16 {
    let [first, second, third, _any] = with_any_last(term, slot);
    let others = Three(&first, &second, &third);
    let mut ranks = 0;
    for number in 0..2197u16 {
        let here = beside[number as usize];
        if here & !ranks == 0 {
            continue;
        }
        let [_ace, a, b, c] = ranks_at(number);
        if meet_three(&others, a, b, c) {
            ranks |= here;
        }
    }
    ranks
}

// Returns the slot with one rank.
fn only(rank: Rank) -> [bool; 13] {
    let mut slot = [false; 13];
    slot[(rank.number() - 1) as usize] = true;
    slot
}
