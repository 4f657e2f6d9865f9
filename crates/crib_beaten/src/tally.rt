//! Which deals beat a plan, counted.
ghost use Rattle.std.specs.Prelude.{◌≡◌, ◌≤◌, ◌<◌, ◌+◌, ◌^◌, List, IfNone, IfOk, IfSome};
ghost use Rattle.crib_cards.specs.Sets.{rank_counts};
ghost use Rattle.crib_problem.specs.Setup.{Setup, IsSetup};
ghost use Rattle.crib_plan.specs.declared.plan.Node.{Node};
ghost use Rattle.crib_beaten.specs.Beaten.{Decides, demand_of};
ghost use Rattle.crib_beaten.specs.Tally.{IsTally};
ghost use Rattle.crib_beaten.specs.Private.Rows.{AreCounted, AreListed, IsChoice, IsFor, IsNoChoice, with_figures};

use crate::plays::Plays;
use crib_cards::{Rank, RankCounts};
use crib_check::NoMemory;
use crib_deals::{Deals, are_in_order, ranks_at};
use crib_plan::Plan;
use crib_problem::Problem;
use crib_show::{CHOICES, Demand, count_ranks};
use std::alloc::{Allocator, Global};

/// The open deals whose hold has four ranks, and how many of them beat a plan.
#[derive(Clone, Copy, Default)]
pub struct RanksTally {
    /// The ranks of the four cards that the opponent held at the first lead, in order.
    pub ranks: [Rank; 4],
    /// The open deals with these ranks.
    pub open_deals: u32,
    /// Those of them that beat the plan.
    pub beaten: u32,
}

/// How many deals beat a plan.
#[derive(Drop)]
pub struct Tally<A: Allocator = Global> {
    /// The open deals: those that agree with the opening.
    pub open_deals: u32,
    /// Those of them that beat the plan.
    pub beaten: u32,
    /// The choices of four ranks of which some deal beats the plan, in the order of ranks, the ace first.
    pub rows: Vec<RanksTally, A>,
}

/// Counts the deals that beat a plan. It fails if an allocation fails: it allocates for the rows alone.
pub fn tally_of<A: Allocator, B: Allocator>(
    alloc: A,
    problem: &Problem,
    plan: &Plan<B>,
) -> Result<Tally<A>, NoMemory>
    ensures { IfOk result (λ tally. IsTally problem.now plan.now tally) }
{
    let choices = choices();
    let deals = OpenDeals::of(problem, plan, &choices);
    let mut tally = Tally {
        open_deals: 0,
        beaten: 0,
        rows: Vec::new(alloc),
    };
    let mut index = 0;
    for number in 0..28_561u16 {
        let Some(ranks) = choice_at(number) else {
            continue;
        };
        tally.add(deals.figures_at(index, &ranks))?;
        index += 1;
    }
    Ok(tally)
}

impl<A: Allocator> Tally<A> {
    // Adds the deals with some ranks. It fails if the rows cannot grow.
    fn add(&mut self, figures: RanksTally) -> Result<(), NoMemory>
        requires open_deals { self.old.open_deals + figures.open_deals < 2 ^ 32 }
        requires beaten { self.old.beaten + figures.beaten < 2 ^ 32 }
        ensures open_deals { IfOk result (λ _. self.new.open_deals ≡ self.old.open_deals + figures.open_deals) }
        ensures beaten { IfOk result (λ _. self.new.beaten ≡ self.old.beaten + figures.beaten) }
        ensures rows { IfOk result (λ _. self.new.rows.items ≡ with_figures self.old.rows.items figures) }
    {
        self.open_deals += figures.open_deals;
        self.beaten += figures.beaten;
        if figures.beaten > 0 {
            let Ok(()) = self.rows.push(figures) else {
                return Err(NoMemory);
            };
        }
        Ok(())
    }
}

/// The open deals of a problem, and what decides which of them beat a plan.
#[derive(Drop)]
struct OpenDeals<'a> {
    deals: Deals<'a>,
    // What decides the deals with four ranks, by the place of these ranks among all choices.
    demands: [Demand; CHOICES],
}

impl<'a> OpenDeals<'a> {
    fn of<B: Allocator>(
        problem: &'a Problem,
        plan: &Plan<B>,
        choices: &[RankCounts; CHOICES],
    ) -> Self
        requires { AreListed 28561 choices.now }
        ensures { IsFor problem.now plan.now result }
    {
        OpenDeals {
            deals: Deals::of(problem),
            demands: Plays::new(problem, plan, choices).demands(),
        }
    }

    // The figures of the four ranks at a place among all choices.
    fn figures_at(&self, index: usize, ranks: &[Rank; 4]) -> RanksTally
        requires { index < 1820 }
        ensures ranks { result.ranks ≡ ranks.now }
        ensures exact { (problem : Setup) (plan : List Node) → IsSetup problem → self.now.deals ≡ problem
            → Decides problem plan (rank_counts ranks.now) (demand_of self.now.demands index)
            → AreCounted problem plan ranks.now result.open_deals result.beaten }
        ensures few { (result.open_deals ≤ 209920) × (result.beaten ≤ result.open_deals) }
    {
        let counted = self.deals.count(ranks, self.demands[index]);
        RanksTally {
            ranks: *ranks,
            open_deals: counted.open_deals,
            beaten: counted.missing,
        }
    }
}

// How many cards of each rank the choices of four ranks have, in the order of ranks, the ace first.
fn choices() -> [RankCounts; CHOICES]
    ensures { AreListed 28561 result }
{
    let mut choices = [RankCounts::new(); CHOICES];
    let mut index = 0;
    for number in 0..28_561 {
        let Some(ranks) = choice_at(number) else {
            continue;
        };
        choices[index] = count_ranks(&ranks);
        index += 1;
    }
    choices
}

// The four ranks with a number, if they are in order.
fn choice_at(number: u16) -> Option<[Rank; 4]>
    requires { number < 28561 }
    ensures choice { IfSome result (IsChoice number) }
    ensures none { IfNone result (IsNoChoice number) }
{
    let ranks = ranks_at(number);
    if are_in_order(&ranks) {
        Some(ranks)
    } else {
        None
    }
}
