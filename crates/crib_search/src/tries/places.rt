//! The places at which the owner has a choice.

use crate::tries::choices::Classes;
use crate::tries::spot::Spot;
use crib_cards::Rank;
use std::alloc::{AllocError, Allocator};

/// A place at which the owner has a choice.
#[derive(Clone, Copy)]
pub(crate) struct Place {
    /// The key of its spot.
    pub(crate) key: u64,
    /// The index past the last place that lies behind it.
    pub(crate) end: usize,
    /// The index of its first branch. The others follow.
    pub(crate) branch: usize,
    /// How many branches it has.
    pub(crate) count: usize,
    /// Which branch is chosen.
    pub(crate) choice: usize,
    /// Which branch scores most.
    pub(crate) richest: usize,
}

/// A card that the owner may play at a place.
#[derive(Clone, Copy)]
pub(crate) struct Branch {
    pub(crate) rank: Rank,
    /// The index of the first place after it.
    pub(crate) next: usize,
    /// The index past the last one.
    pub(crate) end: usize,
    /// The index of what it demands, before any choice after it.
    pub(crate) hit: usize,
    /// The index past that.
    pub(crate) hit_end: usize,
    /// Whether no other card is as good for each deal. If one is, its number.
    pub(crate) is_open: bool,
    pub(crate) instead: usize,
}

impl Branch {
    /// A branch after a card of a rank. The places after it are between two indices.
    pub(crate) fn after(rank: Rank, next: usize, end: usize) -> Branch {
        Branch {
            rank,
            next,
            end,
            hit: 0,
            hit_end: 0,
            is_open: false,
            instead: 0,
        }
    }
}

/// Which deals of a choice of ranks beat the owner after a card.
#[derive(Clone, Copy)]
pub(crate) struct Hit {
    pub(crate) choice: usize,
    pub(crate) classes: Classes,
}

/// The places at which the owner has a choice. After a place are those behind it.
#[derive(Drop)]
pub(crate) struct Places<A: Allocator> {
    pub(crate) places: Vec<Place, A>,
    pub(crate) branches: Vec<Branch, A>,
    pub(crate) hits: Vec<Hit, A>,
}

impl<A: Allocator + Copy> Places<A> {
    /// No places.
    pub(crate) fn new(alloc: A) -> Self {
        Places {
            places: Vec::new(alloc),
            branches: Vec::new(alloc),
            hits: Vec::new(alloc),
        }
    }

    /// Adds a place with room for so many branches. Returns its index. It fails if an allocation fails.
    pub(crate) fn open(&mut self, key: u64, count: usize) -> Result<usize, AllocError> {
        let index = self.places.len();
        self.places.push(Place {
            key,
            end: index,
            branch: self.branches.len(),
            count,
            choice: 0,
            richest: 0,
        })?;
        for _ in 0..count {
            self.branches.push(Branch::after(Rank::default(), 0, 0))?;
        }
        Ok(index)
    }

    /// The place at an index.
    pub(crate) fn place(&self, index: usize) -> Option<Place> {
        self.places.get(index).copied()
    }

    /// A branch of a place.
    pub(crate) fn branch(&self, place: &Place, index: usize) -> Option<Branch> {
        self.branches
            .get(place.branch.saturating_add(index))
            .copied()
    }

    /// How many places there are.
    pub(crate) fn len(&self) -> usize {
        self.places.len()
    }

    /// The thing with an index that a branch lets through.
    pub(crate) fn hit(&self, index: usize) -> Option<Hit> {
        self.hits.get(index).copied()
    }

    /// Chooses a branch at the place with an index.
    pub(crate) fn choose(&mut self, index: usize, branch: usize) {
        if let Some(place) = self.places.get_mut(index) {
            place.choice = branch;
        }
    }

    /// The number of the first branch of a place that isn't dropped.
    pub(crate) fn first_open(&self, place: &Place) -> usize {
        for index in 0..place.count {
            if self.open_branch(place, index).is_some() {
                return index;
            }
        }
        0
    }

    /// How many branches of a place aren't dropped.
    pub(crate) fn count_open(&self, place: &Place) -> usize {
        let mut count = 0usize;
        for index in 0..place.count {
            if self.open_branch(place, index).is_some() {
                count = count.saturating_add(1);
            }
        }
        count
    }

    /// A branch of a place that isn't dropped.
    pub(crate) fn open_branch(&self, place: &Place, index: usize) -> Option<Branch> {
        match self.branch(place, index) {
            Some(branch) if branch.is_open => Some(branch),
            _ => None,
        }
    }

    /// The index past a place and those behind it.
    pub(crate) fn past(&self, index: usize) -> usize {
        match self.place(index) {
            Some(place) if place.end > index => place.end,
            _ => index.saturating_add(1),
        }
    }

    /// Changes a branch of the place with an index.
    pub(crate) fn put_branch(&mut self, index: usize, at: usize, branch: Branch) {
        if let Some(place) = self.place(index) {
            if let Some(other) = self.branches.get_mut(place.branch.saturating_add(at)) {
                *other = branch;
            }
        }
    }

    /// The branch that is chosen at a spot, if there is a choice.
    pub(crate) fn chosen(&self, spot: &Spot) -> Option<Branch> {
        let place = self.ahead(spot)?;
        if place.key != spot.key {
            return None;
        }
        self.branch(&place, place.choice)
    }

    /// The index of the place at a spot, if there is a choice.
    pub(crate) fn index_at(&self, spot: &Spot) -> Option<usize> {
        let mut index = spot.next;
        for _ in spot.next..spot.end {
            if index >= spot.end {
                break;
            }
            let place = self.place(index)?;
            if place.key >= spot.key {
                return if place.key == spot.key {
                    Some(index)
                } else {
                    None
                };
            }
            index = self.past(index);
        }
        None
    }

    /// The place at a spot, if there is a choice.
    fn place_at(&self, spot: &Spot) -> Option<Place> {
        self.place(self.index_at(spot)?)
    }

    /// The spot after a card of a rank is played at another, where there is a choice.
    pub(crate) fn after_card(&self, spot: &Spot, rank: Rank) -> Spot {
        let Some(place) = self.place_at(spot) else {
            return *spot;
        };
        for index in 0..place.count {
            if let Some(branch) = self.branch(&place, index) {
                if branch.rank == rank {
                    return spot.after_card(branch.next, branch.end);
                }
            }
        }
        *spot
    }

    /// The branch of the place at a spot behind which the place with an index lies.
    pub(crate) fn branch_to(&self, spot: &Spot, index: usize) -> Option<Branch> {
        let place = self.place_at(spot)?;
        for number in 0..place.count {
            let branch = self.branch(&place, number)?;
            if branch.next <= index && index < branch.end {
                return Some(branch);
            }
        }
        None
    }

    /// The rank of the open card that is as good for each deal as one of a rank at the place with an index.
    pub(crate) fn as_good(&self, index: usize, rank: Rank) -> Option<Rank> {
        let place = self.place(index)?;
        for number in 0..place.count {
            let branch = self.branch(&place, number)?;
            if branch.rank == rank {
                return self.open_rank(&place, &branch);
            }
        }
        None
    }

    // The rank of the open card that is as good as that of a branch.
    fn open_rank(&self, place: &Place, branch: &Branch) -> Option<Rank> {
        let mut best = *branch;
        for _ in 0..place.count {
            if best.is_open {
                return Some(best.rank);
            }
            best = self.branch(place, best.instead)?;
        }
        None
    }

    /// Whether a choice lies ahead of a spot.
    pub(crate) fn are_ahead(&self, spot: &Spot) -> bool {
        self.ahead(spot).is_some()
    }

    // The first place that lies ahead of a spot.
    fn ahead(&self, spot: &Spot) -> Option<Place> {
        let mut index = spot.next;
        for _ in spot.next..spot.end {
            if index >= spot.end {
                break;
            }
            let place = self.place(index)?;
            if place.key >= spot.key {
                return if place.key < spot.last() {
                    Some(place)
                } else {
                    None
                };
            }
            index = self.past(index);
        }
        None
    }
}
