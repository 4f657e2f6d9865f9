//! Rows that say which hands beat a plan.
ghost use Rattle.std.specs.Prelude.{◌≡◌, ◌∷◌, [], ◌<◌, ◌≤◌, ◌^◌, sum_by, ◌+◌, List, length, ℕ};
ghost use Rattle.std.specs.List.{All, list_all};
ghost use Rattle.crib_beaten.specs.declared.rows.Row.{Row};
ghost use Rattle.crib_beaten.specs.declared.tally.RanksTally.{RanksTally};
ghost use Rattle.crib_plan.specs.declared.plan.Node.{Node};
ghost use Rattle.crib_beaten.specs.Tally.{IsTally};
ghost use Rattle.crib_beaten.specs.Terms.{AreBestFirst, AreRows, IsNarrow, columns, has_rank};
ghost use Rattle.crib_beaten.specs.Terms.{meets_term, printed_ranks, slot_columns};
ghost use Rattle.crib_beaten.specs.Private.Figures.{AreAtMost, AreSums, beaten_where, left_by};

use crate::rows::finding::terms_to_try;
use crate::tally::{RanksTally, Tally};
use arrayvec::ArrayVec;
use crib_cards::Rank;
use crib_problem::Problem;
use crib_show::CHOICES;
use std::alloc::Allocator;

mod finding;

// The most rows.
const MOST_ROWS: usize = 12;

// The most columns of a printed term, with the blank before each slot.
pub(crate) const WIDEST: usize = 24;

// The slot of any card.
pub(crate) const ANY: Slot = [true; 13];

// Choices of four ranks, and how many deals with them beat the plan.
pub(crate) type AllHands = ArrayVec<RanksTally, CHOICES>;

/// Which ranks a card may have, from the ace to the king. With all thirteen it may be any card.
pub type Slot = [bool; 13];

/// What a hold has at least: a card for each of four slots.
pub type Term = [Slot; 4];

/// A term, and how many deals that beat the plan meet it and none of the terms above.
#[derive(Clone, Copy)]
pub struct Row {
    pub term: Term,
    pub deals: u32,
}

impl Default for Row {
    /// Returns the row of any cards, with no deal. It fills the unused entries of rows.
    fn default() -> Self {
        Row {
            term: [ANY; 4],
            deals: 0,
        }
    }
}

/// Rows that say which hands beat a plan.
#[derive(Drop)]
pub struct Rows {
    /// The rows, those with most deals first.
    pub rows: ArrayVec<Row, MOST_ROWS>,
    /// The deals that beat the plan and meet none of the terms.
    pub others: u32,
}

/// Returns rows that say which hands beat a plan, by a tally of the deals that do.
pub fn rows_of<A: Allocator>(problem: &Problem, tally: &Tally<A>) -> Rows
    requires { (plan : List Node) × IsTally problem.now plan tally.now }
    ensures exact { (plan : List Node) → IsTally problem.now plan tally.now
        → AreRows problem.now plan [] result.rows.items result.others }
    ensures best_first { AreBestFirst result.rows.items }
    ensures narrow { All (λ (row : Row). IsNarrow row.term) result.rows.items }
    ensures adds_up { sum_by (λ (row : Row). row.deals) result.rows.items + result.others ≡ tally.now.beaten }
{
    let tallied = tally.rows.as_slice();
    let tried = terms_to_try(problem.unseen(), tallied);
    best_rows(tried.as_slice(), tallied, tally.beaten)
}

// Returns the rows of some terms, the best first, each by the deals that no row above has.
fn best_rows(tried: &[Term], tallied: &[RanksTally], beaten: u32) -> Rows
    requires { sum_by (λ (row : RanksTally). row.beaten) tallied.now ≡ beaten }
    ensures sums { AreSums tallied.now [] result.rows.items result.others }
    ensures best_first { AreBestFirst result.rows.items }
    ensures narrow { All (λ (row : Row). IsNarrow row.term) result.rows.items }
    ensures adds_up { sum_by (λ (row : Row). row.deals) result.rows.items + result.others ≡ beaten }
{
    let mut rows = ArrayVec::new();
    let mut others = beaten;
    let mut left = AllHands::new();
    let Ok(()) = left.try_extend_from_slice(tallied) else {
        return Rows { rows, others };
    };
    for _count in 0..MOST_ROWS {
        let best = best_of(tried, left.as_slice());
        if best.deals == 0 {
            break;
        }
        let row = tidied(&best, left.as_slice());
        leave_out(&mut left, &row.term);
        others -= row.deals;
        rows.push(row);
    }
    Rows { rows, others }
}

/// Leaves out the choices that meet a term.
pub(crate) fn leave_out(left: &mut AllHands, term: &Term)
    ensures { left.new.items ≡ left_by term.now left.old.items }
{
    left.retain(|hands| !meets(term, &hands.ranks));
}

// Returns the row of the term that most deals meet, the first of equals. It has no deal if none meets any.
fn best_of(tried: &[Term], left: &[RanksTally]) -> Row
    requires { sum_by (λ (row : RanksTally). row.beaten) left.now < 2 ^ 32 }
    ensures counted { 0 < result.deals → result.deals ≡ beaten_where (meets_term result.term) left.now }
    ensures narrow { 0 < result.deals → IsNarrow result.term }
    ensures most { AreAtMost tried.now left.now result.deals }
    ensures bounded { (bound : ℕ) → AreAtMost tried.now left.now bound → result.deals ≤ bound }
{
    let mut best = Row {
        term: [ANY; 4],
        deals: 0,
    };
    for term in tried {
        let deals = deals_of(term, left);
        if deals > best.deals && columns_of(term) <= WIDEST {
            best = Row { term: *term, deals };
        }
    }
    best
}

// Returns a row as it is printed: without the ranks that gain it no deal, and with its slots in order.
fn tidied(row: &Row, left: &[RanksTally]) -> Row
    requires whole { sum_by (λ (row : RanksTally). row.beaten) left.now < 2 ^ 32 }
    requires counted { row.now.deals ≡ beaten_where (meets_term row.now.term) left.now }
    requires narrow { IsNarrow row.now.term }
    ensures same { result.deals ≡ row.now.deals }
    ensures counted { result.deals ≡ beaten_where (meets_term result.term) left.now }
    ensures narrow { IsNarrow result.term }
{
    let mut term = narrowed(&row.term, left);
    term.sort_unstable_by_key(|slot| slot_order(slot));
    let deals = deals_of(&term, left);
    if deals == row.deals && columns_of(&term) <= WIDEST {
        Row { term, deals }
    } else {
        *row
    }
}

// Returns a term without the ranks that gain it no deal.
fn narrowed(term: &Term, left: &[RanksTally]) -> Term {
    let mut met = AllHands::new();
    let _fits = met.try_extend_from_slice(left);
    met.retain(|hands| meets(term, &hands.ranks));
    let mut term = *term;
    for slot in 0..4 {
        for rank in 0..13 {
            let mut fewer = term;
            fewer[slot][rank] = false;
            if term[slot] != ANY
                && term[slot][rank]
                && columns_of(&fewer) <= WIDEST
                && met.iter().all(|hands| meets(&fewer, &hands.ranks))
            {
                term = fewer;
            }
        }
    }
    term
}

// Returns a number that orders the slots of a term: by their first rank, and then by how many they have.
fn slot_order(slot: &Slot) -> usize {
    let mut first = 13;
    let mut count = 0;
    for rank in 0..13 {
        if slot[rank] {
            first = first.min(rank);
            count += 1;
        }
    }
    14 * first + count
}

// Returns how many deals that beat the plan meet a term.
fn deals_of(term: &Term, left: &[RanksTally]) -> u32
    requires { sum_by (λ (row : RanksTally). row.beaten) left.now < 2 ^ 32 }
    ensures { result ≡ beaten_where (meets_term term.now) left.now }
{
    let mut deals = 0;
    for row in left {
        if meets(term, &row.ranks) {
            deals += row.beaten;
        }
    }
    deals
}

/// Returns the columns of a printed term, with the blank before each slot.
pub(crate) fn columns_of(term: &Term) -> usize
    ensures value { result ≡ columns term.now }
    ensures slots { All (λ slot. length slot ≡ 13) term.now }
{
    let [first, second, third, fourth] = term;
    slot_columns(first) + slot_columns(second) + slot_columns(third) + slot_columns(fourth)
}

// Returns the columns of a printed slot, with a blank before it. A slot with any card isn't printed.
fn slot_columns(slot: &Slot) -> usize
    ensures value { result ≡ slot_columns slot.now }
    ensures few { result ≤ 28 }
    ensures slots { length slot.now ≡ 13 }
{
    if is_any(slot) {
        return 0;
    }
    match printed_ranks(slot) {
        1 => 2,
        printed => 3 + (2 * printed).saturating_sub(1),
    }
}

// Returns how many ranks of a slot are printed.
fn printed_ranks(slot: &Slot) -> usize
    ensures value { result ≡ printed_ranks 0 slot.now }
    ensures few { result ≤ 13 }
{
    let mut printed = 0usize;
    let mut neighbours = 0usize;
    for flag in slot {
        if *flag {
            neighbours += 1;
        } else {
            printed += neighbours.min(2);
            neighbours = 0;
        }
    }
    printed + neighbours.min(2)
}

// Whether any card is in a slot.
fn is_any(slot: &Slot) -> bool
    ensures { result ≡ list_all (λ flag. flag) slot.now }
{
    slot.iter().all(|flag| *flag)
}

/// Whether a hold of these ranks meets a term.
pub(crate) fn meets(term: &Term, ranks: &[Rank; 4]) -> bool
    ensures { result ≡ meets_term term.now ranks.now }
{
    let [first, second, third, fourth] = term;
    let [a, b, c, d] = *ranks;
    meet_four(first, &Three(second, third, fourth), a, b, c, d)
}

// Three slots.
#[derive(Clone, Copy)]
pub(crate) struct Three<'a>(
    pub(crate) &'a Slot,
    pub(crate) &'a Slot,
    pub(crate) &'a Slot,
);

// Whether four cards meet a slot and three others.
#[tactic(auto, unfolding(crate::specs::Terms::meets_term))]
fn meet_four(slot: &Slot, others: &Three<'_>, a: Rank, b: Rank, c: Rank, d: Rank) -> bool
    ensures { result ≡ meets_term (slot.now ∷ others.now.0.now ∷ others.now.1.now ∷ others.now.2.now ∷ [])
        (a ∷ b ∷ c ∷ d ∷ []) }
{
    (has(slot, a) && meet_three(others, b, c, d))
        || (has(slot, b) && meet_three(others, a, c, d))
        || (has(slot, c) && meet_three(others, a, b, d))
        || (has(slot, d) && meet_three(others, a, b, c))
}

// Whether three cards meet three slots.
#[tactic(auto, unfolding(crate::specs::Terms::meets_term))]
pub(crate) fn meet_three(slots: &Three<'_>, a: Rank, b: Rank, c: Rank) -> bool
    ensures { result ≡ meets_term (slots.now.0.now ∷ slots.now.1.now ∷ slots.now.2.now ∷ []) (a ∷ b ∷ c ∷ []) }
{
    let Three(first, second, third) = slots;
    (has(first, a) && meet_two(second, third, b, c))
        || (has(first, b) && meet_two(second, third, a, c))
        || (has(first, c) && meet_two(second, third, a, b))
}

// Whether two cards meet two slots.
#[tactic(auto, unfolding(crate::specs::Terms::meets_term))]
fn meet_two(first: &Slot, second: &Slot, a: Rank, b: Rank) -> bool
    ensures { result ≡ meets_term (first.now ∷ second.now ∷ []) (a ∷ b ∷ []) }
{
    (has(first, a) && has(second, b)) || (has(first, b) && has(second, a))
}

// Whether a slot has a rank.
pub(crate) fn has(slot: &Slot, rank: Rank) -> bool
    ensures { result ≡ has_rank slot.now rank }
{
    slot[(rank.number() - 1) as usize]
}
