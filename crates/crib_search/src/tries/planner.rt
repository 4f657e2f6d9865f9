//! The plan that plays the chosen cards.
ghost use Rattle.std.specs.Prelude.{◌≡◌, ◌+◌, ◌≤◌, ◌<◌, ℕ, length, IsTrue, IfOk};
ghost use Rattle.crib_cards.specs.Cards.{card_value};
ghost use Rattle.crib_cards.specs.Sets.{has};
ghost use Rattle.crib_play.specs.Record.{count_of};
ghost use Rattle.crib_search.specs.Private.Nodes.{IsMore};
ghost use Rattle.crib_search.specs.Private.Search.{IsHere, IsTurnOf};
ghost use Rattle.crib_search.specs.Private.States.{IsPlanned, StatesAfter, StatesAt, in_order};
ghost use Rattle.crib_search.specs.Trees.{plan_of_tree};
ghost use Rattle.crib_search.specs.Tried.{IsNeverStuck};

use crate::join::join;
use crate::nodes::{DraftNode, DraftPlace, Nodes};
use crate::own_options::options;
use crate::tries::favour::safest;
use crate::tries::places::{Branch, Places};
use crate::tries::spot::Spot;
use crate::tries::survey::card_at;
use arrayvec::ArrayVec;
use crib_cards::{Card, CardSet, Letter, Rank};
use crib_know::Know;
use crib_play::Turn;
use crib_problem::Problem;
use std::alloc::{AllocError, Allocator};

/// A plan in the making, and the places at which its cards are chosen.
#[derive(Drop)]
struct Planner<'a, A: Allocator> {
    nodes: Nodes<A>,
    places: &'a Places<A>,
}

/// Makes a plan, and returns its nodes and its first place. It fails if an allocation fails.
pub(crate) fn make_plan<A: Allocator + Copy>(
    alloc: A,
    problem: &Problem,
    places: &Places<A>,
    spot: &Spot,
) -> Result<(Nodes<A>, DraftPlace), AllocError>
    ensures { IfOk result (λ made. IsPlanned made.0 (λ tree. IsNeverStuck problem.now (plan_of_tree tree)) made.1) }
{
    let know = Know::start(problem);
    let mut planner = Planner {
        nodes: Nodes::new(alloc),
        places,
    };
    let first = planner.place_at(problem, &know, spot)?;
    let Planner { nodes, places: _ } = planner;
    Ok((nodes, first))
}

/// A place at which the plan goes on. It fails if an allocation fails.
type Placed = Result<DraftPlace, AllocError>;

/// The place at which the owner plays some cards, the lowest first, whatever the opponent shows. It fails if an
/// allocation fails.
///
/// If one of them fits, the lowest does.
pub(crate) fn lowest_first<A: Allocator + Copy>(
    nodes: &mut Nodes<A>,
    cards: CardSet,
) -> Result<DraftPlace, AllocError>
    ensures kept { IsMore nodes.old nodes.new }
    ensures planned { IfOk result (IsPlanned nodes.new (λ tree. tree ≡ in_order cards)) }
{
    let Some(card) = cards.lowest() else {
        return Ok(DraftPlace::End);
    };
    let next = lowest_first(nodes, cards.without(card))?;
    nodes.place_of(&DraftNode::Play { card, next })
}

impl<A: Allocator + Copy> Planner<'_, A> {
    /// The place at which the plan goes on from this knowledge.
    #[cycle(planning)]
    pub(crate) fn place_at(&mut self, problem: &Problem, know: &Know, spot: &Spot) -> Placed
        requires here { IsHere problem.now know.now }
        ensures kept { IsMore self.old.nodes self.new.nodes }
        ensures planned { IfOk result (IsPlanned self.new.nodes (StatesAt problem.now know.now)) }
    {
        match know.turn() {
            Turn::Over => lowest_first(&mut self.nodes, know.own_left()),
            Turn::Owner => self.own_place(problem, know, spot),
            Turn::Opponent => self.their_place(problem, know, spot),
        }
    }

    // The same if the owner is to move. The owner says go if there is no card to play.
    #[cycle(planning)]
    fn own_place(&mut self, problem: &Problem, know: &Know, spot: &Spot) -> Placed
        requires turn { IsTurnOf problem.now know.now Turn.Owner }
        ensures kept { IsMore self.old.nodes self.new.nodes }
        ensures planned { IfOk result (IsPlanned self.new.nodes (StatesAt problem.now know.now)) }
    {
        let (cards, len) = options(problem, know);
        if len == 0 {
            let mut next = know.copy();
            next.own_go();
            return self.place_at(problem, &next, spot);
        }
        let (card, after) = chosen(self.places, know, spot, &cards[..len]);
        self.place_with(problem, know, card, &after)
    }

    // The place at which the owner plays a card.
    #[cycle(planning)]
    fn place_with(&mut self, problem: &Problem, know: &Know, card: Card, spot: &Spot) -> Placed
        requires turn { IsTurnOf problem.now know.now Turn.Owner }
        requires held { IsTrue (has know.now.own_left card) }
        requires fits { count_of know.now.round.pile + card_value card ≤ 31 }
        ensures kept { IsMore self.old.nodes self.new.nodes }
        ensures planned { IfOk result (IsPlanned self.new.nodes (StatesAt problem.now know.now)) }
    {
        let mut after = know.copy();
        after.own_play(card);
        let next = self.place_at(problem, &after, spot)?;
        self.nodes.place_of(&DraftNode::Play { card, next })
    }

    // The same if the opponent is to move. The letters go in their order. If no choice lies ahead, the owner plays the
    // lowest card first.
    #[cycle(planning)]
    fn their_place(&mut self, problem: &Problem, know: &Know, spot: &Spot) -> Placed
        requires turn { IsTurnOf problem.now know.now Turn.Opponent }
        ensures kept { IsMore self.old.nodes self.new.nodes }
        ensures planned { IfOk result (IsPlanned self.new.nodes (StatesAt problem.now know.now)) }
    {
        if !self.places.are_ahead(spot) {
            return lowest_first(&mut self.nodes, know.own_left());
        }
        let mut nexts: ArrayVec<DraftPlace, 14> = ArrayVec::new();
        for index in 0..14u8 {
            let letter = Letter::at(index);
            let after = spot.after_letter(letter);
            let next = self.place_after(problem, know, &letter, &after)?;
            nexts.push(next);
        }
        join(&mut self.nodes, &nexts)
    }

    // Where the plan goes on after a letter. If no deal can show it, this is the end.
    #[cycle(planning)]
    fn place_after(
        &mut self,
        problem: &Problem,
        know: &Know,
        letter: &Letter,
        spot: &Spot,
    ) -> Placed
        requires here { IsHere problem.now know.now }
        ensures kept { IsMore self.old.nodes self.new.nodes }
        ensures planned { IfOk result (IsPlanned self.new.nodes (StatesAfter problem.now know.now letter.now)) }
    {
        if !know.can_show(*letter) {
            return Ok(DraftPlace::End);
        }
        let mut next = know.copy();
        next.saw(letter);
        self.place_at(problem, &next, spot)
    }
}

// The card that is chosen at a spot, and the spot after it. If there is no choice, it is the safest.
fn chosen<A: Allocator + Copy>(
    places: &Places<A>,
    know: &Know,
    spot: &Spot,
    cards: &[Card],
) -> (Card, Spot)
    requires some { 0 < length cards.now }
    requires turn { know.now.round.asked ≡ Turn.Owner }
    requires playable { (card : ℕ) → IsTrue (has cards.now card)
        → IsTrue (has know.now.own_left card) × (count_of know.now.round.pile + card_value card ≤ 31) }
    ensures { IsTrue (has cards.now result.0) }
{
    if cards.len() > 1 {
        let branch = places.chosen(spot);
        if branch.is_none() {
            return (card_at(cards, safest(know, cards)), *spot);
        }
        return card_of(branch, spot, cards);
    }
    (cards[0], *spot)
}

/// The card of a branch, and the spot after it. If there is no branch, it is the first card.
pub(crate) fn card_of(branch: Option<Branch>, spot: &Spot, cards: &[Card]) -> (Card, Spot)
    requires { 0 < length cards.now }
    ensures { IsTrue (has cards.now result.0) }
{
    let Some(branch) = branch else {
        return (cards[0], *spot);
    };
    let card = cards[index_of(branch.rank, cards)];
    (card, spot.after_card(branch.next, branch.end))
}

// The index of the first card of a rank. If there is none, it is 0.
fn index_of(rank: Rank, cards: &[Card]) -> usize
    requires { 0 < length cards.now }
    ensures { result < length cards.now }
{
    for index in 0..cards.len() {
        if cards[index].rank() == rank {
            return index;
        }
    }
    0
}
