//! What a survey notes of a place.

use crate::tries::choices::Classes;
use crate::tries::places::{Branch, Hit, Place};
use crate::tries::survey::Survey;
use std::alloc::{AllocError, Allocator};

impl<A: Allocator + Copy> Survey<A> {
    /// Closes a place above a level between two indices. The levels after each of its cards are above that, and have
    /// its entries in the same order. The number of its card that scores most is given. It fails if an allocation
    /// fails.
    pub(crate) fn close(
        &mut self,
        index: usize,
        richest: usize,
        base: usize,
        end: usize,
    ) -> Result<(), AllocError> {
        let Some(place) = self.places.place(index) else {
            return Ok(());
        };
        let size = end.saturating_sub(base);
        let mut open = [false; 4];
        for at in 0..place.count.min(4) {
            let one = number_from(richest, at).min(3);
            match self.instead_of(one, &open, place.count, (end, size)) {
                Some(other) => self.drop_branch(&place, one, other),
                None => open[one] = true,
            }
        }
        for at in 0..size {
            self.join(base.saturating_add(at), at, &open, (end, size));
        }
        for one in 0..4usize {
            if open[one] {
                self.add_hits(index, one, base, (end, size))?;
            }
        }
        let last = self.places.len();
        if let Some(place) = self.places.places.get_mut(index) {
            place.end = last;
            place.richest = richest;
        }
        Ok(())
    }

    // Another card that is as good for each deal: one that is open, or one that is better.
    fn instead_of(
        &self,
        one: usize,
        open: &[bool; 4],
        count: usize,
        levels: (usize, usize),
    ) -> Option<usize> {
        for other in 0..4usize {
            if open[other] && self.is_within(other, one, levels) {
                return Some(other);
            }
        }
        for other in 0..count {
            if other != one
                && self.is_within(other, one, levels)
                && !self.is_within(one, other, levels)
            {
                return Some(other);
            }
        }
        None
    }

    // Drops a branch, since another one is as good.
    fn drop_branch(&mut self, place: &Place, one: usize, other: usize) {
        let index = place.branch.saturating_add(one);
        if let Some(branch) = self.places.branches.get_mut(index) {
            branch.instead = other;
        }
    }

    // Whether each class that beats the owner at the worst after one card does in any case after another.
    fn is_within(&self, one: usize, other: usize, levels: (usize, usize)) -> bool {
        let (one, other) = (level(levels, one), level(levels, other));
        for at in 0..levels.1 {
            if let Some(entry) = self.entries.get(one.saturating_add(at)) {
                if let Some(forced) = self.entries.get(other.saturating_add(at)) {
                    if entry.worst & !forced.forced != 0 {
                        return false;
                    }
                }
            }
        }
        true
    }

    // Joins what passes the open branches of an entry.
    fn join(&mut self, index: usize, at: usize, open: &[bool; 4], levels: (usize, usize)) {
        let mut forced = Classes::MAX;
        let mut worst = 0;
        for one in 0..4usize {
            if !open[one] {
                continue;
            }
            if let Some(entry) = self.entries.get(level(levels, one).saturating_add(at)) {
                forced &= entry.forced;
                worst |= entry.worst;
            }
        }
        if let Some(entry) = self.entries.get_mut(index) {
            entry.forced = forced;
            entry.worst = worst;
        }
    }

    // Opens a branch, and adds what passes it, but not each other one.
    fn add_hits(
        &mut self,
        index: usize,
        one: usize,
        base: usize,
        levels: (usize, usize),
    ) -> Result<(), AllocError> {
        let hit = self.places.hits.len();
        let first = level(levels, one);
        for at in 0..levels.1 {
            if let Some(entry) = self.entries.get(first.saturating_add(at)) {
                if let Some(joined) = self.entries.get(base.saturating_add(at)) {
                    let more = entry.forced & !joined.forced;
                    if more != 0 {
                        self.places.hits.push(Hit {
                            choice: entry.choice,
                            classes: more,
                        })?;
                    }
                }
            }
        }
        let Some(place) = self.places.place(index) else {
            return Ok(());
        };
        if let Some(branch) = self.places.branch(&place, one) {
            let open = Branch {
                hit,
                hit_end: self.places.hits.len(),
                is_open: true,
                ..branch
            };
            self.places.put_branch(index, one, open);
        }
        Ok(())
    }
}

// The number of a card, if one with a number comes first, and the others in their order.
fn number_from(first: usize, at: usize) -> usize {
    if at == 0 {
        first
    } else if at <= first {
        at - 1
    } else {
        at
    }
}

// The index of the first entry of the level after a card, where the levels begin at an index and have a size.
fn level(levels: (usize, usize), number: usize) -> usize {
    let (first, size) = levels;
    first.saturating_add(size.saturating_mul(number))
}
