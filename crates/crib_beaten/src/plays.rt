//! What the plays that follow a plan demand of a deal.
ghost use Rattle.std.specs.Prelude.{◌≡◌, ◌≤◌, ◌<◌, ℕ, List, filter, length, nat_lt, take, IsTrue};
ghost use Rattle.std.specs.List.{All};
ghost use Rattle.crib_cards.specs.Sets.{count_at, has};
ghost use Rattle.crib_problem.specs.Setup.{Setup};
ghost use Rattle.crib_plan.specs.declared.plan.Node.{Node};
ghost use Rattle.crib_know.specs.Hidden.{passes_counts};
ghost use Rattle.crib_beaten.specs.Beaten.{ArePlays, Decides, counts_of, demand_of, may_show};
ghost use Rattle.crib_beaten.specs.Private.Demands.{AreJoined, AreJoinedFrom, IsDemandAfter, MayWalk};

use crib_cards::{Letter, Rank, RankCounts};
use crib_know::Know;
use crib_plan::Plan;
use crib_play::Turn;
use crib_problem::Problem;
use crib_show::{CHOICES, Demand, hand_points};
use crib_sure::{Key, demand_at_end, go_by_own, go_by_theirs, own_move};
use std::alloc::Allocator;

// More than the turns of a deal.
const TURNS: usize = 27;

// A demand for each choice.
type Demands = [Demand; CHOICES];

/// The games of a problem that follow a plan: what they demand of a deal so that it does not beat the plan.
#[derive(Drop)]
pub struct Plays<'a, A: Allocator> {
    problem: &'a Problem,
    plan: &'a Plan<A>,
    // The position after the opening.
    start: Key,
    // How many cards of each rank the choices have.
    choices: &'a [RankCounts; CHOICES],
    // The points of the owner's hand.
    own_hand: u8,
}

impl<'a, A: Allocator> Plays<'a, A> {
    /// The games of this problem that follow this plan, for these choices of four ranks: how many cards of each rank a
    /// hold has.
    pub fn new(problem: &'a Problem, plan: &'a Plan<A>, choices: &'a [RankCounts; CHOICES]) -> Self
        ensures plays { ArePlays problem.now plan.now result }
        ensures choices { result.choices.now ≡ choices.now }
    {
        Plays {
            problem,
            plan,
            choices,
            start: Key::start(problem, plan),
            own_hand: hand_points(&problem.hold(), problem.starter()),
        }
    }
}

impl<A: Allocator> Plays<'_, A> {
    /// What an open deal must meet so that it does not beat the plan, for each of the choices.
    pub fn demands(&self) -> [Demand; CHOICES]
        requires { (problem : Setup) × (plan : List Node) × ArePlays problem plan self.now }
        ensures { (problem : Setup) (plan : List Node) → ArePlays problem plan self.now → (index : ℕ) → index < 1820
            → Decides problem plan (counts_of self.now.choices.now index) (demand_of result index) }
    {
        let mut demands = [Demand::none(); CHOICES];
        let mut spare = [0; TURNS * CHOICES];
        self.join_from(&self.start, &each_index(), &mut spare, &mut demands);
        demands
    }

    // Joins what a deal must meet so that none of its games from a position on fails, for the choices at some indices.
    // The spare room is for the indices after later turns.
    #[cycle(demand)]
    fn join_from(&self, key: &Key, indices: &[u16], spare: &mut [u16], demands: &mut Demands)
        requires { MayWalk self.now key.now indices.now spare.old }
        ensures { AreJoinedFrom self.now key.now indices.now demands.old demands.new }
    {
        match key.know.turn() {
            Turn::Over => {
                let demand = demand_at_end(self.problem, self.own_hand, &key.know);
                join(demand, indices, demands);
            }
            Turn::Owner => self.join_by_own(key, indices, spare, demands),
            Turn::Opponent => self.join_by_theirs(key, indices, spare, demands),
        }
    }

    // The owner makes the move that the plan gives them.
    #[cycle(demand)]
    fn join_by_own(&self, key: &Key, indices: &[u16], spare: &mut [u16], demands: &mut Demands)
        requires walk { MayWalk self.now key.now indices.now spare.old }
        requires asked { key.now.know.round.asked ≡ Turn.Owner }
        ensures { AreJoinedFrom self.now key.now indices.now demands.old demands.new }
    {
        let Some(what) = own_move(self.plan, key) else {
            join(Demand::impossible(), indices, demands);
            return;
        };
        let mut next = key.copy();
        go_by_own(self.plan, &mut next, &what);
        self.join_from(&next, indices, spare, demands);
    }

    // The opponent shows each letter.
    #[cycle(demand)]
    fn join_by_theirs(&self, key: &Key, indices: &[u16], spare: &mut [u16], demands: &mut Demands)
        requires walk { MayWalk self.now key.now indices.now spare.old }
        requires asked { key.now.know.round.asked ≡ Turn.Opponent }
        ensures { AreJoinedFrom self.now key.now indices.now demands.old demands.new }
    {
        for index in 0..14u8 {
            let letter = Letter::at(index);
            self.join_after(key, &letter, indices, spare, demands);
        }
    }

    // The opponent shows a letter, if some deal lets them.
    #[cycle(demand)]
    fn join_after(
        &self,
        key: &Key,
        letter: &Letter,
        indices: &[u16],
        spare: &mut [u16],
        demands: &mut Demands,
    )
        requires { MayWalk self.now key.now indices.now spare.old }
        ensures joined { AreJoined
            (λ counts. IsDemandAfter self.now.problem.now self.now.plan.now key.now counts letter.now)
            self.now.choices.now indices.now demands.old demands.new }
        ensures room { length spare.new ≡ length spare.old }
    {
        if !key.know.can_show(*letter) {
            return;
        }
        let mut next = key.copy();
        go_by_theirs(self.plan, &mut next, letter);
        let (left, spare) = spare.split_at_mut(indices.len());
        let count = keep_indices(self.choices, &key.know, &next.know, letter, indices, left);
        if count > 0 {
            self.join_from(&next, &left[..count], spare, demands);
        }
    }
}

// Each index, in order.
fn each_index() -> [u16; CHOICES]
    ensures all { (index : ℕ) → index < 1820 → IsTrue (has result index) }
    ensures indices { All (λ index. index < 1820) result }
{
    let mut indices = [0; CHOICES];
    for index in 0..1820u16 {
        indices[index as usize] = index;
    }
    indices
}

// Keeps the indices of the choices of which a hold may show a letter. Returns how many they are.
fn keep_indices(
    choices: &[RankCounts; CHOICES],
    before: &Know,
    after: &Know,
    letter: &Letter,
    indices: &[u16],
    left: &mut [u16],
) -> usize
    requires indices { All (λ index. index < 1820) indices.now }
    requires room { length indices.now ≤ length left.old }
    ensures few { result ≤ length indices.now }
    ensures room { length left.new ≡ length left.old }
    ensures kept { take result left.new
        ≡ filter (λ index. may_show before.now after.now letter.now (counts_of choices.now index)) indices.now }
{
    match *letter {
        Letter::Seen(rank) => {
            let seen = before.ranks_seen().of(rank);
            keep_above(choices, rank, seen, indices, left)
        }
        Letter::Go => keep_passing(choices, after, indices, left),
    }
}

// Keeps the indices of the choices that have more than so many cards of a rank. Returns how many they are.
fn keep_above(
    choices: &[RankCounts; CHOICES],
    rank: Rank,
    seen: u8,
    indices: &[u16],
    left: &mut [u16],
) -> usize
    requires indices { All (λ index. index < 1820) indices.now }
    requires room { length indices.now ≤ length left.old }
    ensures few { result ≤ length indices.now }
    ensures room { length left.new ≡ length left.old }
    ensures kept { take result left.new
        ≡ filter (λ index. nat_lt seen (count_at (counts_of choices.now index) rank)) indices.now }
{
    let mut count = 0;
    for index in indices {
        if seen < choices[*index as usize].of(rank) {
            left[count] = *index;
            count += 1;
        }
    }
    count
}

// Keeps the indices of the choices that pass the test of what is known after a go. Returns how many they are.
fn keep_passing(
    choices: &[RankCounts; CHOICES],
    after: &Know,
    indices: &[u16],
    left: &mut [u16],
) -> usize
    requires indices { All (λ index. index < 1820) indices.now }
    requires room { length indices.now ≤ length left.old }
    ensures few { result ≤ length indices.now }
    ensures room { length left.new ≡ length left.old }
    ensures kept { take result left.new
        ≡ filter (λ index. passes_counts after.now.least after.now.ranks_seen (counts_of choices.now index))
        indices.now }
{
    let mut count = 0;
    for index in indices {
        if !after.passes(&choices[*index as usize]) {
            continue;
        }
        left[count] = *index;
        count += 1;
    }
    count
}

/// Whether a hold with these counts of ranks may show a letter after what is known before it: it has a card left for a
/// rank, or passes the test of what is known after a go.
#[inline]
pub fn may_show(before: &Know, after: &Know, letter: &Letter, counts: &RankCounts) -> bool
    ensures { result ≡ may_show before.now after.now letter.now counts.now }
{
    match *letter {
        Letter::Seen(rank) => before.ranks_seen().of(rank) < counts.of(rank),
        Letter::Go => after.passes(counts),
    }
}

// Joins a demand at each of some indices.
fn join(demand: Demand, indices: &[u16], demands: &mut Demands)
    requires { All (λ index. index < 1820) indices.now }
    ensures { (choices : List (List ℕ))
        → AreJoined (λ counts more. more ≡ demand) choices indices.now demands.old demands.new }
{
    for index in indices {
        let index = *index as usize;
        demands[index] = demands[index].and(demand);
    }
}
