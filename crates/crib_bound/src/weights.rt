//! The choices of four ranks, and how many open deals the entries have.
ghost use Rattle.std.specs.Prelude.{◌≡◌, ◌<◌, ◌≤◌, None, get_or, length, IfOk, ℕ};
ghost use Rattle.crib_cards.specs.Sets.{rank_counts};
ghost use Rattle.crib_problem.specs.Setup.{IsSetup};
ghost use Rattle.crib_show.specs.Indices.{index_among};
ghost use Rattle.crib_deals.specs.Deals.{behind_by};
ghost use Rattle.crib_bound.specs.Private.Walks.{AreAdded, AreOpenDeals, AreTables};

use crate::grades::missing_with;
use crib_cards::{Rank, RankCounts, Side};
use crib_deals::{Deals, Table, are_in_order, ranks_at};
use crib_problem::Problem;
use crib_search::{GRADES, Ladder, RUNGS};
use crib_show::{CHOICES, Demand, choice_index, count_ranks};
use std::alloc::{AllocError, Allocator};

/// How many entries there are. Each choice of four ranks has sixteen, one for each grade.
pub(crate) const ENTRIES: usize = GRADES * CHOICES;

/// The choices of four ranks, by their indices.
#[derive(Drop)]
pub(crate) struct Choices<'a, A: Allocator> {
    /// How many cards of each rank they have.
    pub(crate) counts: [RankCounts; CHOICES],
    /// The demands that give the open deals of each choice their grades.
    pub(crate) ladders: [Ladder; CHOICES],
    /// How many open deals the entries have. The index of an entry is 16 times that of its choice, and its grade.
    pub(crate) weights: [u64; ENTRIES],
    /// The deals of each choice by the points of the show. The list is empty if the opponent's show can't decide.
    pub(crate) tables: Vec<Option<Table<'a>>, A>,
}

impl<'a, A: Allocator> Choices<'a, A> {
    /// Returns the choices for a problem. It fails if an allocation fails: it allocates for the tables alone. If the
    /// opponent's show can't decide, no deal meets the first demand of the ladder that is returned.
    pub(crate) fn of(
        alloc: A,
        problem: &'a Problem,
        wanted: &[Ladder; CHOICES],
    ) -> Result<Self, AllocError>
        requires { IsSetup problem.now }
        ensures { IfOk result (λ choices. AreOpenDeals problem.now choices.ladders choices.counts choices.weights
            choices.tables.items) }
    {
        let deals = Deals::of(problem);
        let may_decide = problem.dealer() == Side::Owner || problem.is_to_stop();
        let ladders = ladders_if(may_decide, wanted);
        let mut counts = [RankCounts::new(); CHOICES];
        let mut weights = [0; ENTRIES];
        let mut tables = no_tables(alloc, may_decide)?;
        for number in 0..28_561u16 {
            let ranks = ranks_at(number);
            if !are_in_order(&ranks) {
                continue;
            }
            let counted = count_ranks(&ranks);
            let index = choice_index(&counted);
            counts[index] = counted;
            add_deals(
                &mut weights,
                &mut tables,
                &deals,
                &ladders[index].rungs,
                &ranks,
                index,
            );
        }
        Ok(Choices {
            counts,
            ladders,
            weights,
            tables,
        })
    }
}

// The ladders if the opponent's show may decide. Otherwise ladders whose demands no deal meets.
fn ladders_if(may_decide: bool, ladders: &[Ladder; CHOICES]) -> [Ladder; CHOICES] {
    if may_decide {
        return *ladders;
    }
    [Ladder {
        rungs: [Demand::impossible(); RUNGS],
    }; CHOICES]
}

// Room for the tables, if they are needed.
fn no_tables<'a, A: Allocator>(
    alloc: A,
    are_needed: bool,
) -> Result<Vec<Option<Table<'a>>, A>, AllocError>
    ensures { IfOk result (λ tables. (index : ℕ) → get_or tables.items index None ≡ None) }
{
    let mut tables = Vec::new(alloc);
    if are_needed {
        for _index in 0..1820u16 {
            tables.push(None)?;
        }
    }
    Ok(tables)
}

// Adds the open deals with four ranks to the weights of their entries. Puts the table of the choice at its index, if
// there is room for it.
fn add_deals<'a, A: Allocator>(
    weights: &mut [u64; ENTRIES],
    tables: &mut Vec<Option<Table<'a>>, A>,
    deals: &Deals<'a>,
    ladder: &[Demand; RUNGS],
    ranks: &[Rank; 4],
    index: usize,
)
    requires index { index ≡ index_among 4 (rank_counts ranks.now) }
    requires small { index < 1820 }
    requires setup { IsSetup deals.now }
    requires few { (entry : ℕ) → get_or weights.old entry 0 ≤ 100000000000 }
    ensures tables { AreTables deals.now tables.old.items → AreTables deals.now tables.new.items }
    ensures added { AreAdded (behind_by deals.now ranks.now) ladder.now weights.old weights.new }
    ensures long { length ladder.now ≡ 15 }
{
    if tables.is_empty() && ladder[0].is_impossible() {
        weights[16 * index] += deals.count(ranks, Demand::none()).open_deals as u64;
        return;
    }
    let table = deals.table(ranks);
    add_grades(weights, &table, ladder, index);
    put_table(tables, table, index);
}

// Adds the deals of a table to the weights of their entries.
fn add_grades(weights: &mut [u64; ENTRIES], table: &Table, ladder: &[Demand; RUNGS], index: usize)
    requires index { index ≡ index_among 4 (rank_counts table.now.ranks) }
    requires small { index < 1820 }
    requires few { (entry : ℕ) → get_or weights.old entry 0 ≤ 100000000000 }
    ensures { AreAdded table.now ladder.now weights.old weights.new }
{
    for grade in 0..16u16 {
        let count = missing_with(table, ladder, Demand::impossible(), grade);
        weights[16 * index + grade as usize] += count as u64;
    }
}

// Puts the table of a choice at its index, if there is room for it.
fn put_table<'a, A: Allocator>(
    tables: &mut Vec<Option<Table<'a>>, A>,
    table: Table<'a>,
    index: usize,
)
    requires { index ≡ index_among 4 (rank_counts table.ranks) }
    ensures { AreTables table.entry.problem tables.old.items
        → AreTables table.entry.problem tables.new.items }
{
    if index < tables.len() {
        tables[index] = Some(table);
    }
}
