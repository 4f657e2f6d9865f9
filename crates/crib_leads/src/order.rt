//! The order of the opponent's turns: the worst for the owner first.
ghost use Rattle.std.specs.Prelude.{◌≡◌, ◌≤◌, ◌++◌, ◌∷◌, IfOk, Err, length, take, drop};
ghost use Rattle.crib_leads.specs.Leads.{badness, is_worse, placed, worst_first};

use crate::leads::Lead;
use crate::verdict::LeadVerdict;
use crib_search::SearchFault;
use std::alloc::Allocator;

/// Returns entries in the order of their badness.
pub(crate) fn worst_first<A: Allocator + Copy>(
    alloc: A,
    leads: &[Lead],
) -> Result<Vec<Lead, A>, SearchFault>
    ensures sorted { IfOk result (λ sorted. sorted.items ≡ worst_first leads.now) }
    ensures failed { result ≡ Err SearchFault.TooLarge → ⊥ }
{
    match leads {
        [] => Ok(Vec::new(alloc)),
        [lead, others @ ..] => {
            let mut sorted = worst_first(alloc, others)?;
            let index = place_of(lead, sorted.as_slice());
            match sorted.insert(index, *lead) {
                Ok(()) => Ok(sorted),
                Err(_) => Err(SearchFault::NoMemory),
            }
        }
    }
}

// Returns how many entries are before an entry in its place.
fn place_of(lead: &Lead, sorted: &[Lead]) -> usize
    ensures range { result ≤ length sorted.now }
    ensures place { placed lead.now sorted.now
        ≡ take result sorted.now ++ lead.now ∷ drop result sorted.now }
{
    match sorted {
        [] => 0,
        [other, others @ ..] => {
            if other.verdict.is_worse(&lead.verdict) {
                place_of(lead, others) + 1
            } else {
                0
            }
        }
    }
}

impl LeadVerdict {
    /// Returns whether a greater part of the deals is against this verdict than against another. If the deal is done
    /// and the goal is missed, all deals are.
    pub fn is_worse(&self, other: &LeadVerdict) -> bool
        ensures { result ≡ is_worse self.now other.now }
    {
        let (beaten, open_deals) = badness(self);
        let (others_beaten, others_open) = badness(other);
        others_beaten as u64 * (open_deals as u64) < beaten as u64 * (others_open as u64)
    }
}

// Returns how bad a verdict is: so many deals, of so many.
fn badness(verdict: &LeadVerdict) -> (u32, u32)
    ensures { result ≡ badness verdict.now }
{
    match *verdict {
        LeadVerdict::Beaten { beaten, open_deals } => (beaten, open_deals),
        LeadVerdict::Missed => (1, 1),
        LeadVerdict::Sure { .. } | LeadVerdict::Reached => (0, 1),
    }
}
