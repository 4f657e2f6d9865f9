//! The grades of deals: how many demands of a ladder they meet in a row, from the first on.
ghost use Rattle.std.specs.Prelude.{◌≡◌, ◌≤◌, ◌<◌, length, nat_le};
ghost use Rattle.crib_cards.specs.declared.sides.Dealt.{Dealt};
ghost use Rattle.crib_problem.specs.Setup.{Setup};
ghost use Rattle.crib_sure.specs.Shows.{meets};
ghost use Rattle.crib_deals.specs.Deals.{IsMissing};
ghost use Rattle.crib_deals.specs.Exact.{AreExactly};
ghost use Rattle.crib_bound.specs.Private.Walks.{grade_of};

use crib_deals::Table;
use crib_search::RUNGS;
use crib_show::Demand;

/// Counts the deals of a table that have a grade and miss a demand.
pub(crate) fn missing_with(
    table: &Table,
    ladder: &[Demand; RUNGS],
    demand: Demand,
    grade: u16,
) -> u32
    requires { grade < 16 }
    ensures exact { AreExactly (λ dealt. IsMissing table.now demand dealt
        × (grade_of table.now.problem ladder.now dealt ≡ grade)) result }
    ensures long { length ladder.now ≡ 15 }
    ensures few { result ≤ 209920 }
{
    missing_from(table, ladder, demand, grade) - missing_from(table, ladder, demand, grade + 1)
}

// Counts the deals of a table that have a grade or a higher one, and miss a demand.
fn missing_from(table: &Table, ladder: &[Demand; RUNGS], demand: Demand, grade: u16) -> u32
    requires { grade ≤ 16 }
    ensures exact { AreExactly (λ dealt. IsMissing table.now demand dealt
        × (grade ≤ grade_of table.now.problem ladder.now dealt)) result }
    ensures few { result ≤ 209920 }
{
    if grade == 0 {
        return table.count(demand).missing;
    }
    if grade == 16 {
        return 0;
    }
    let met = first_of(ladder, grade);
    table.count(met.and(demand)).missing - table.count(met).missing
}

// Returns the demand that a deal meets if it meets so many demands of a ladder, from the first on.
fn first_of(ladder: &[Demand; RUNGS], count: u16) -> Demand
    requires some { 0 < count }
    requires few { count ≤ 15 }
    ensures { (problem : Setup) (dealt : Dealt)
        → meets problem result dealt ≡ nat_le count (grade_of problem ladder.now dealt) }
{
    let mut first = ladder[0];
    for index in 1..count {
        first = first.and(ladder[index as usize]);
    }
    first
}
