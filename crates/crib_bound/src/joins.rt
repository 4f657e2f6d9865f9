//! What is taken after each of several cards, joined.
ghost use Rattle.std.specs.Prelude.{◌≡◌, ◌<◌, ◌≤◌, ℕ, get_or, length};
ghost use Rattle.std.specs.List.{All};
ghost use Rattle.crib_bound.specs.Private.Walks.{AreGivenBackAt, AreLoweredAt};

use crate::entries::take_both;
use crate::walk::Bound;
use crib_search::{Guide, Spot};
use std::alloc::Allocator;

// Of which entries something is given back.
#[derive(Clone, Copy, PartialEq, Eq)]
enum Given {
    // Of all.
    All,
    // Of those of which nothing is kept for a place.
    Strays,
}

impl Bound<'_> {
    /// Joins what is left after one more card to what is left after the others, so that what is taken is worth the
    /// least after each. What only one takes of a stray is given back first, where something was learned: of an entry
    /// that doesn't go to this place.
    pub(crate) fn settle<A: Allocator + Copy>(
        &self,
        guide: &mut Guide<'_, A>,
        spot: &Spot,
        indices: &[u32],
        least: u64,
        kept: &mut [u32],
        value: u64,
        left: &mut [u32],
    ) -> u64
        requires small { All (λ index. index < 29120) indices.now }
        requires kept_room { length kept.old ≡ length indices.now }
        requires left_room { length left.old ≡ length indices.now }
        ensures less { (place most : ℕ) → place < length indices.now → get_or kept.old place 0 ≤ most
            → get_or left.old place 0 ≤ most → get_or kept.new place 0 ≤ most }
        ensures kept { AreLoweredAt self.now indices.now kept.old kept.new least result }
        ensures left { AreLoweredAt self.now indices.now left.old kept.new value result }
        ensures kept_room { length kept.new ≡ length kept.old }
        ensures left_room { length left.new ≡ length left.old }
    {
        if least == u64::MAX {
            return self.join(guide, indices, least, kept, value, left);
        }
        guide.note_here(spot);
        let lost = self.give_back(guide, Given::Strays, indices, kept, left, least);
        let also = self.give_back(guide, Given::Strays, indices, left, kept, value);
        self.join(guide, indices, least - lost, kept, value - also, left)
    }

    // The same without a look at strays. Of what is worth more, something is given back first, of entries of which the
    // other takes less.
    fn join<A: Allocator + Copy>(
        &self,
        guide: &Guide<'_, A>,
        indices: &[u32],
        least: u64,
        kept: &mut [u32],
        value: u64,
        left: &mut [u32],
    ) -> u64
        requires small { All (λ index. index < 29120) indices.now }
        requires kept_room { length kept.old ≡ length indices.now }
        requires left_room { length left.old ≡ length indices.now }
        ensures less { (place most : ℕ) → place < length indices.now → get_or kept.old place 0 ≤ most
            → get_or left.old place 0 ≤ most → get_or kept.new place 0 ≤ most }
        ensures kept { AreLoweredAt self.now indices.now kept.old kept.new least result }
        ensures left { AreLoweredAt self.now indices.now left.old kept.new value result }
        ensures kept_room { length kept.new ≡ length kept.old }
        ensures left_room { length left.new ≡ length left.old }
    {
        if value < least {
            self.give_back(guide, Given::All, indices, kept, left, least - value);
            take_both(kept, left);
            return value;
        }
        self.give_back(guide, Given::All, indices, left, kept, value - least);
        take_both(kept, left);
        least
    }

    // Gives back what is taken, of entries of which another takes less, so that at most so much is lost. Returns how
    // much that is.
    fn give_back<A: Allocator + Copy>(
        &self,
        guide: &Guide<'_, A>,
        given: Given,
        indices: &[u32],
        parts: &mut [u32],
        other: &[u32],
        most: u64,
    ) -> u64
        requires small { All (λ index. index < 29120) indices.now }
        requires room { length parts.old ≡ length indices.now }
        requires other_room { length other.now ≡ length indices.now }
        ensures back { AreGivenBackAt self.now indices.now parts.old parts.new result }
        ensures few { result ≤ most }
        ensures less { (place most : ℕ) → get_or parts.old place 0 ≤ most → get_or other.now place 0 ≤ most
            → get_or parts.new place 0 ≤ most }
        ensures room { length parts.new ≡ length parts.old }
    {
        let mut rest = most;
        for at in 0..indices.len() {
            let index = indices[at] as usize;
            let weight = self.weights[index];
            if weight == 0 || given == Given::Strays && guide.is_noted(index) {
                continue;
            }
            let free = other[at].saturating_sub(parts[at]);
            let more = (rest / weight).min(free as u64);
            parts[at] += more as u32;
            rest -= more * weight;
        }
        most - rest
    }
}
