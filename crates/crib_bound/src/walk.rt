//! A walk that counts a bound.
ghost use Rattle.std.specs.Prelude.{◌≡◌, ◌+◌, ◌*◌, ◌/◌, ◌<◌, ◌≤◌, ℕ, IfOk, List, count_by, length};
ghost use Rattle.std.specs.List.{All};
ghost use Rattle.crib_cards.specs.declared.sides.Dealt.{Dealt};
ghost use Rattle.crib_show.specs.Show.{hand_points};
ghost use Rattle.crib_play.specs.History.{Theirs, event_of};
ghost use Rattle.crib_plan.specs.declared.plan.Node.{Node};
ghost use Rattle.crib_know.specs.Hidden.{KnowsAfter};
ghost use Rattle.crib_know.specs.Knowledge.{played_events};
ghost use Rattle.crib_deals.specs.Exact.{AreExactly};
ghost use Rattle.crib_beaten.specs.Beaten.{Beats};
ghost use Rattle.crib_bound.specs.Worth.{IsStrategy, IsStrategyIf};
ghost use Rattle.crib_bound.specs.Private.Cases.{IsAllowedBy};
ghost use Rattle.crib_bound.specs.Private.Walks.{AreCounted, AreDealsOf, AreOpenDeals, IsBoundAfter, IsBoundAt};
ghost use Rattle.crib_bound.specs.Private.Walks.{MayWalk, entry_in, misses_at};

use crate::entries::{
    Amounts, each_index, hold_back, keep_indices, parts_of_all, put_back, put_parts, read_parts,
};
use crate::grades::missing_with;
use crate::path::{Fixed, Path, is_allowed};
use crate::weights::{Choices, ENTRIES};
use crib_cards::{Letter, RankCounts};
use crib_deals::Table;
use crib_know::Know;
use crib_play::Turn;
use crib_problem::Problem;
use crib_search::{Guide, Ladder};
use crib_show::{CHOICES, Demand, hand_points};
use crib_sure::demand_at_end;
use std::alloc::{AllocError, Allocator};

/// The room for three lists of all entries at each turn of a deal. It has fewer than 28.
pub(crate) const SPARE: usize = 3 * 28 * ENTRIES;

/// What a bound is counted from.
#[derive(Drop)]
pub(crate) struct Bound<'a> {
    problem: &'a Problem,
    // How many cards of each rank the choices of four ranks have, by their indices.
    choices: &'a [RankCounts; CHOICES],
    // How many parts of each deal there are.
    parts: u32,
    // The demands that give the open deals of each choice their grades.
    ladders: &'a [Ladder; CHOICES],
    /// How many open deals the entries have. The index of an entry is 16 times that of its choice, and its grade.
    pub(crate) weights: &'a [u64; ENTRIES],
    // The deals of each choice by the points of the show, if the opponent's show may decide.
    tables: &'a [Option<Table<'a>>],
    // The points of the owner's hand.
    own_hand: u8,
    // The places at which a card is fixed.
    fixed: &'a [Fixed],
}

impl Bound<'_> {
    // Takes what may make the owner miss the goal from a position on, of the amounts at some indices. Returns what it
    // is worth there. The spare room is for the indices after later turns.
    #[cycle(worth)]
    fn worth_at<A: Allocator + Copy>(
        &self,
        guide: &mut Guide<'_, A>,
        path: &Path,
        know: &Know,
        indices: &[u32],
        spare: &mut [u32],
        amounts: &mut Amounts,
    ) -> u64
        requires { MayWalk self.now know.now path.now.trail.items indices.now spare.old }
        ensures worth { IsBoundAt self.now know.now path.now.trail.items indices.now amounts.old amounts.new result }
        ensures room { length spare.new ≡ length spare.old }
    {
        match know.turn() {
            Turn::Over => self.worth_at_end(know, indices, amounts),
            Turn::Owner => self.worth_by_own(guide, path, know, indices, spare, amounts),
            Turn::Opponent => self.worth_by_theirs(guide, path, know, indices, spare, amounts),
        }
    }

    // At the end: the parts of the deals that miss the goal.
    fn worth_at_end(&self, know: &Know, indices: &[u32], amounts: &mut Amounts) -> u64
        requires own { self.now.own_hand ≡ hand_points self.now.problem.now.hold self.now.problem.now.starter }
        requires over { know.now.round.asked ≡ Turn.Over }
        requires small { All (λ index. index < 29120) indices.now }
        ensures { (trail : List ℕ) → IsBoundAt self.now know.now trail indices.now amounts.old amounts.new result }
    {
        let demand = demand_at_end(self.problem, self.own_hand, know);
        if demand.is_met_by_all() {
            return 0;
        }
        self.take_missing(demand, indices, amounts)
    }

    // Takes the parts of the deals that miss a demand. All of an entry of which some deal misses it is taken.
    fn take_missing(&self, demand: Demand, indices: &[u32], amounts: &mut Amounts) -> u64
        requires { All (λ index. index < 29120) indices.now }
        ensures { AreCounted self.now demand indices.now amounts.old amounts.new result }
    {
        let mut sum = 0u64;
        for index in indices {
            let parts = amounts[*index as usize];
            let count = self.missing_at(*index, demand);
            if parts == 0 || count == 0 {
                continue;
            }
            sum = sum.saturating_add(count.saturating_mul(parts as u64));
            amounts[*index as usize] = 0;
        }
        sum
    }

    // How many deals of an entry miss a demand. Without a table it may be fewer.
    fn missing_at(&self, index: u32, demand: Demand) -> u64
        requires { index < 29120 }
        ensures { (deals : List Dealt) → AreDealsOf self.now deals
            → result ≤ count_by (misses_at (entry_in self.now) self.now.problem.now demand index) deals }
    {
        if demand.is_impossible() {
            return self.weights[index as usize];
        }
        let choice = (index / 16) as usize;
        let ladder = &self.ladders[choice].rungs;
        match self.tables.get(choice) {
            Some(Some(table)) => missing_with(table, ladder, demand, (index % 16) as u16) as u64,
            _ => 0,
        }
    }

    // The least after each card that the owner may play and that is allowed. For each card the same is taken. What each
    // takes of the amounts that were there before is joined. If none is allowed, all is taken.
    #[cycle(worth)]
    #[inline(never)]
    fn worth_by_own<A: Allocator + Copy>(
        &self,
        guide: &mut Guide<'_, A>,
        path: &Path,
        know: &Know,
        indices: &[u32],
        spare: &mut [u32],
        amounts: &mut Amounts,
    ) -> u64
        requires walk { MayWalk self.now know.now path.now.trail.items indices.now spare.old }
        requires asked { know.now.round.asked ≡ Turn.Owner }
        ensures worth { IsBoundAt self.now know.now path.now.trail.items indices.now amounts.old amounts.new result }
        ensures room { length spare.new ≡ length spare.old }
    {
        if know.must_go() {
            let mut next = know.copy();
            next.own_go();
            return self.worth_at(guide, &path.after_go(), &next, indices, spare, amounts);
        }
        let count = indices.len();
        let (before, spare) = spare.split_at_mut(count);
        let (kept, spare) = spare.split_at_mut(count);
        let (left, spare) = spare.split_at_mut(count);
        read_parts(indices, amounts, before);
        read_parts(indices, amounts, kept);
        let mut least = u64::MAX;
        let mut is_barred = true;
        let mut rest = know.own_left();
        while let Some(card) = rest.lowest() {
            rest = rest.without(card);
            if !know.round().fits(card.rank()) {
                continue;
            }
            if !is_allowed(self.fixed, &path.trail, card.rank()) {
                continue;
            }
            is_barred = false;
            let mut next = know.copy();
            next.own_play(card);
            let after = path.after_card(guide, card.rank());
            let value = self.worth_at(guide, &after, &next, indices, spare, amounts);
            read_parts(indices, amounts, left);
            least = self.settle(guide, &path.spot, indices, least, kept, value, left);
            put_parts(indices, before, amounts);
            if least == 0 {
                return 0;
            }
        }
        if is_barred {
            return self.take_missing(Demand::impossible(), indices, amounts);
        }
        put_parts(indices, kept, amounts);
        least
    }

    // The sum after each letter that the opponent may show, go first and then the king.
    #[cycle(worth)]
    fn worth_by_theirs<A: Allocator + Copy>(
        &self,
        guide: &mut Guide<'_, A>,
        path: &Path,
        know: &Know,
        indices: &[u32],
        spare: &mut [u32],
        amounts: &mut Amounts,
    ) -> u64
        requires { MayWalk self.now know.now path.now.trail.items indices.now spare.old }
        ensures worth { IsBoundAt self.now know.now path.now.trail.items indices.now amounts.old amounts.new result }
        ensures room { length spare.new ≡ length spare.old }
    {
        let mut sum = 0u64;
        for place in 0..14u8 {
            let letter = Letter::at(13 - place);
            let more = self.worth_after(guide, path, know, &letter, indices, spare, amounts);
            sum = sum.saturating_add(more);
        }
        sum
    }

    // What is taken after a letter is worth so much after it, if some deal lets the opponent show it.
    #[cycle(worth)]
    fn worth_after<A: Allocator + Copy>(
        &self,
        guide: &mut Guide<'_, A>,
        path: &Path,
        know: &Know,
        letter: &Letter,
        indices: &[u32],
        spare: &mut [u32],
        amounts: &mut Amounts,
    ) -> u64
        requires { MayWalk self.now know.now path.now.trail.items indices.now spare.old }
        ensures worth { IsBoundAfter self.now know.now (Theirs letter.now) path.now.trail.items indices.now amounts.old
            amounts.new result }
        ensures room { length spare.new ≡ length spare.old }
    {
        if !know.can_show(*letter) {
            return 0;
        }
        let mut next = know.copy();
        next.saw(letter);
        let (left, spare) = spare.split_at_mut(indices.len());
        let count = keep_indices(self.choices, know, &next, letter, amounts, indices, left);
        if count == 0 {
            return 0;
        }
        let (held, spare) = spare.split_at_mut(count);
        let after = path.after_letter(letter);
        guide.note_ahead(&after.spot);
        hold_back(guide, self.parts, &left[..count], held, amounts);
        let value = self.worth_at(guide, &after, &next, &left[..count], spare, amounts);
        put_back(&left[..count], held, amounts);
        value
    }
}

/// Returns a number that is at most `parts` times the deals that beat a plan, whatever the plan. It counts what a
/// strategy of the opponent is worth that divides each open deal into so many parts. It fails if an allocation fails.
///
/// The strategy is found in the same walk. After each letter, the king first, the opponent takes what may make the
/// owner miss the goal from there on, and what was not taken is there for the next letter. After each card of the owner
/// the same has to be taken: where this is worth more after one card than after another, some is given back.
///
/// Of deals whose holds have the same ranks it takes as many parts if they have the same grade. The grade of a deal is
/// how many demands of the ladder it meets in a row, from the first on. All deals have the grade 0 if the opponent's
/// show can't decide. The bound holds for any ladder.
pub fn bound_of<A: Allocator + Copy>(
    alloc: A,
    problem: &Problem,
    parts: u32,
    guide: &mut Guide<'_, A>,
) -> Result<u64, AllocError>
    ensures strategy { IfOk result (λ value. IsStrategy event_of problem.now parts value) }
    ensures plans { IfOk result (λ value. (plan : List Node) (count : ℕ) → AreExactly (Beats problem.now plan) count
        → value ≤ parts * count) }
{
    let start = Know::start(problem);
    let choices = Choices::of(alloc, problem, &guide.ladders())?;
    let mut spare = vec![in alloc; 0; SPARE]?;
    let worth = worth_if(
        problem,
        &start,
        &choices,
        parts,
        guide,
        &[],
        spare.as_mut_slice(),
    );
    Ok(worth)
}

/// What a walk finds that a strategy of the opponent is worth, if the owner plays what is fixed at some places.
pub(crate) fn worth_if<A: Allocator + Copy>(
    problem: &Problem,
    start: &Know,
    choices: &Choices<'_, A>,
    parts: u32,
    guide: &mut Guide<'_, A>,
    fixed: &[Fixed],
    spare: &mut [u32],
) -> u64
    requires begun { KnowsAfter start.now problem.now (played_events problem.now) }
    requires open { AreOpenDeals problem.now choices.now.ladders choices.now.counts choices.now.weights
        choices.now.tables.items }
    requires room { length spare.old ≡ 2446080 }
    ensures strategy { IsStrategyIf event_of problem.now (IsAllowedBy problem.now fixed.now) parts result }
    ensures room { length spare.new ≡ length spare.old }
{
    let bound = Bound {
        problem,
        choices: &choices.counts,
        parts,
        ladders: &choices.ladders,
        weights: &choices.weights,
        tables: choices.tables.as_slice(),
        own_hand: hand_points(&problem.hold(), problem.starter()),
        fixed,
    };
    let mut amounts = parts_of_all(&choices.weights, parts);
    let path = Path::start(guide);
    bound.worth_at(guide, &path, start, &each_index(), spare, &mut amounts)
}
