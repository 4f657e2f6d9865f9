//! The amounts of the entries.
ghost use Rattle.std.specs.Prelude.{◌≡◌, ◌+◌, ◌/◌, ◌<◌, ◌≤◌, ℕ, IsFalse, IsTrue, get_or, length, min, take, ◌&&◌};
ghost use Rattle.std.specs.List.{All};
ghost use Rattle.crib_cards.specs.Sets.{has};
ghost use Rattle.crib_beaten.specs.Beaten.{counts_of, may_show};
ghost use Rattle.crib_bound.specs.Private.Walks.{AreReadAt, held_of, with_parts};

use crate::weights::ENTRIES;
use crib_beaten::may_show;
use crib_cards::{Letter, RankCounts};
use crib_know::Know;
use crib_search::Guide;
use crib_show::CHOICES;
use std::alloc::Allocator;

/// So many parts are left of each open deal of the entry with an index.
pub(crate) type Amounts = [u32; ENTRIES];

/// Holds back what the notes of a guide don't allow.
pub(crate) fn hold_back<A: Allocator + Copy>(
    guide: &Guide<'_, A>,
    parts: u32,
    indices: &[u32],
    held: &mut [u32],
    amounts: &mut Amounts,
)
    requires small { All (λ index. index < 29120) indices.now }
    requires room { length held.old ≡ length indices.now }
    ensures held { (index : ℕ) → get_or amounts.new index 0
        + held_of indices.now held.new (length indices.now) index ≤ get_or amounts.old index 0 }
    ensures elsewhere { (index : ℕ) → IsFalse (has indices.now index)
        → get_or amounts.new index 0 ≡ get_or amounts.old index 0 }
    ensures room { length held.new ≡ length held.old }
{
    for at in 0..indices.len() {
        let index = indices[at] as usize;
        let amount = amounts[index];
        let allowed = guide.allowed(index, parts).min(amount);
        held[at] = amount - allowed;
        amounts[index] = allowed;
    }
}

/// Puts back what was held.
pub(crate) fn put_back(indices: &[u32], held: &[u32], amounts: &mut Amounts)
    requires small { All (λ index. index < 29120) indices.now }
    requires room { length held.now ≡ length indices.now }
    ensures most { (index : ℕ) → get_or amounts.new index 0
        ≤ get_or amounts.old index 0 + held_of indices.now held.now (length indices.now) index }
    ensures elsewhere { (index : ℕ) → IsFalse (has indices.now index)
        → get_or amounts.new index 0 ≡ get_or amounts.old index 0 }
{
    for at in 0..indices.len() {
        let index = indices[at] as usize;
        amounts[index] = amounts[index].saturating_add(held[at]);
    }
}

/// Reads the amounts at some indices.
pub(crate) fn read_parts(indices: &[u32], amounts: &Amounts, parts: &mut [u32])
    requires small { All (λ index. index < 29120) indices.now }
    requires room { length parts.old ≡ length indices.now }
    ensures read { AreReadAt indices.now amounts.now parts.new }
    ensures room { length parts.new ≡ length parts.old }
{
    for at in 0..indices.len() {
        parts[at] = amounts[indices[at] as usize];
    }
}

/// Puts amounts at some indices.
pub(crate) fn put_parts(indices: &[u32], parts: &[u32], amounts: &mut Amounts)
    requires small { All (λ index. index < 29120) indices.now }
    requires room { length parts.now ≡ length indices.now }
    ensures { amounts.new ≡ with_parts indices.now parts.now (length indices.now) amounts.old }
{
    for at in 0..indices.len() {
        amounts[indices[at] as usize] = parts[at];
    }
}

/// Takes what one of two has taken.
pub(crate) fn take_both(parts: &mut [u32], other: &[u32])
    requires { length other.now ≡ length parts.old }
    ensures both { (place : ℕ) → place < length parts.old
        → get_or parts.new place 0 ≡ min (get_or parts.old place 0) (get_or other.now place 0) }
    ensures room { length parts.new ≡ length parts.old }
{
    for at in 0..parts.len() {
        parts[at] = parts[at].min(other[at]);
    }
}

/// Keeps the indices of the entries of which something is left and a hold may show a letter. Returns how many they are.
pub(crate) fn keep_indices(
    choices: &[RankCounts; CHOICES],
    before: &Know,
    after: &Know,
    letter: &Letter,
    amounts: &Amounts,
    indices: &[u32],
    left: &mut [u32],
) -> usize
    requires small { All (λ index. index < 29120) indices.now }
    requires room { length indices.now ≤ length left.old }
    ensures few { result ≤ length indices.now }
    ensures room { length left.new ≡ length left.old }
    ensures kept { (index : ℕ) → IsTrue (has (take result left.new) index) → IsTrue (has indices.now index
        && may_show before.now after.now letter.now (counts_of choices.now (index / 16))) }
    ensures small { All (λ index. index < 29120) (take result left.new) }
{
    let mut count = 0;
    for index in indices {
        let at = *index as usize;
        let choice = at / 16;
        if amounts[at] == 0 || !may_show(before, after, letter, &choices[choice]) {
            continue;
        }
        left[count] = *index;
        count += 1;
    }
    count
}

/// Each index, in order.
pub(crate) fn each_index() -> [u32; ENTRIES]
    ensures small { All (λ index. index < 29120) result }
    ensures long { length result ≡ 29120 }
{
    let mut indices = [0; ENTRIES];
    for index in 0..29_120u32 {
        indices[index as usize] = index;
    }
    indices
}

/// So many parts at the entries that have deals.
pub(crate) fn parts_of_all(weights: &[u64; ENTRIES], parts: u32) -> Amounts
    ensures { (index : ℕ) → get_or result index 0 ≤ parts }
{
    let mut amounts = [0; ENTRIES];
    for index in 0..29_120usize {
        if weights[index] > 0 {
            amounts[index] = parts;
        }
    }
    amounts
}
