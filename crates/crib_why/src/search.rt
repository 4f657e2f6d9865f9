//! The search for games that refute every player.
ghost use Rattle.std.specs.Prelude.{◌≡◌, ◌≢◌, ◌&&◌, [], ◌∷◌, ◌++◌, ◌↔◌, List, IfNone, IfOk, IfSome, IsTrue};
ghost use Rattle.crib_cards.specs.Sets.{IsCardSet, has};
ghost use Rattle.crib_play.specs.History.{Event, event_of};
ghost use Rattle.crib_play.specs.declared.turns.Turn.TheVariants as turns;
ghost use Rattle.crib_problem.specs.Setup.{IsSetup, Setup};
ghost use Rattle.crib_know.specs.Knowledge.{asked_now, played_events};
ghost use Rattle.crib_know.specs.Hidden.{KnowsAfter};
ghost use Rattle.crib_search.specs.Winnable.{IsWinnable};
ghost use Rattle.crib_players.specs.Laws.{longer};
ghost use Rattle.crib_why.specs.Private.Search.{AreFew, CanComeAs, IsFound, IsFoundWith, own_count};

use crib_cards::{Act, Card, CardSet, Move, Rank, Side, Suit};
use crib_check::{NoMemory, missed_game};
use crib_game::Game;
use crib_know::Know;
use crib_play::{Turn, fits};
use crib_problem::Problem;
use crib_search::{Found, SearchFault, find};
use std::alloc::Allocator;

/// Games that refute every player, or none if some player is sure.
type Refutation<A> = Result<Option<Vec<Game, A>>, NoMemory>;

/// Whether some plan is sure.
pub(crate) fn is_winnable<A: Allocator + Copy>(
    alloc: A,
    problem: &Problem,
) -> Result<bool, NoMemory>
    requires { IsSetup problem.now }
    ensures { IfOk result (λ is. IsTrue is ↔ IsWinnable problem.now) }
{
    match find(alloc, problem) {
        Ok(Found::Plan(_)) => Ok(true),
        Err(SearchFault::TooLarge) => Ok(true),
        Ok(Found::None) => Ok(false),
        Err(SearchFault::NoMemory) => Err(NoMemory),
    }
}

/// Games that refute every player, or none if some player is sure. The knowledge is that after the opening.
#[cycle(refute)]
pub(crate) fn refute<A: Allocator + Copy>(alloc: A, problem: &Problem, know: &Know) -> Refutation<A>
    requires { KnowsAfter know.now problem.now (played_events problem.now) }
    ensures right { IfOk result (λ found. IsFound problem.now found) }
    ensures few { IfOk result (λ found. AreFew (own_count problem.now) found) }
{
    match know.turn() {
        Turn::Owner => refute_own(alloc, problem, know),
        Turn::Opponent => refute_theirs(alloc, problem, know),
        Turn::Over => unreachable!(),
    }
}

// Games that refute every player, or none, if the owner is to move: for each card that they may play games that refute
// after it, or the games after their go.
#[cycle(refute)]
fn refute_own<A: Allocator + Copy>(alloc: A, problem: &Problem, know: &Know) -> Refutation<A>
    requires asked { know.now.round.asked ≡ turns.Owner }
    requires knows { KnowsAfter know.now problem.now (played_events problem.now) }
    ensures right { IfOk result (λ found. IsFound problem.now found) }
    ensures few { IfOk result (λ found. AreFew (own_count problem.now) found) }
{
    if know.must_go() {
        let go = Act {
            side: Side::Owner,
            what: Move::Go,
        };
        return refute_with(alloc, problem, know, &go);
    }
    let mut games = Vec::new(alloc);
    let mut rest = know.own_left();
    while let Some(card) = rest.lowest() {
        rest = rest.without(card);
        if fits(card, know.round().count()) {
            let act = Act {
                side: Side::Owner,
                what: Move::Card(card),
            };
            let Some(more) = refute_with(alloc, problem, know, &act)? else {
                return Ok(None);
            };
            join(&mut games, more)?;
        }
    }
    Ok(Some(games))
}

// Games that refute every player, or none, if the opponent is to move: those after the first turn after which there are
// some. The cards are tried first, and then go.
#[cycle(refute)]
fn refute_theirs<A: Allocator + Copy>(alloc: A, problem: &Problem, know: &Know) -> Refutation<A>
    requires asked { know.now.round.asked ≡ turns.Opponent }
    requires knows { KnowsAfter know.now problem.now (played_events problem.now) }
    ensures right { IfOk result (λ found. IsFound problem.now found) }
    ensures few { IfOk result (λ found. AreFew (own_count problem.now) found) }
{
    let mut rest = CardSet::full();
    while let Some(card) = first_to_try(rest) {
        rest = rest.without(card);
        if know.can_play(card.rank()) {
            let act = Act {
                side: Side::Opponent,
                what: Move::Card(card),
            };
            if let Some(games) = refute_with(alloc, problem, know, &act)? {
                return Ok(Some(games));
            }
        }
    }
    if !know.can_go() {
        return Ok(None);
    }
    let go = Act {
        side: Side::Opponent,
        what: Move::Go,
    };
    refute_with(alloc, problem, know, &go)
}

// The numbers of the ranks, those first whose cards players keep most.
const KEPT_MOST: [u8; 13] = [5, 11, 10, 4, 6, 7, 8, 3, 12, 13, 2, 1, 9];

// The next card to try of some cards. Of each rank a club is tried before another suit is, since a suit seldom decides.
fn first_to_try(cards: CardSet) -> Option<Card>
    ensures held { IfSome result (λ card. IsTrue (has cards card)) }
    ensures none { IfNone result (cards ≡ []) }
    ensures set { IsCardSet cards }
{
    let lowest = cards.lowest();
    for suit in [Suit::Clubs, Suit::Diamonds, Suit::Hearts, Suit::Spades] {
        for number in KEPT_MOST {
            if let Some(rank) = Rank::new(number) {
                let card = Card::of(rank, suit);
                if cards.has(card) {
                    return Some(card);
                }
            }
        }
    }
    lowest
}

// Games that refute with one turn more, or none if some player is sure after it.
#[cycle(refute)]
fn refute_with<A: Allocator + Copy>(
    alloc: A,
    problem: &Problem,
    know: &Know,
    act: &Act,
) -> Refutation<A>
    requires can { CanComeAs know.now act.now.side act.now.what }
    requires knows { KnowsAfter know.now problem.now (played_events problem.now) }
    ensures right { IfOk result (λ found. IsFoundWith problem.now act.now found) }
    ensures few { IfOk result (λ found. AreFew (own_count (longer problem.now act.now)) found) }
{
    let next = with_turn(know, act);
    match next.turn() {
        Turn::Over => refute_ended(alloc, problem, &next, act),
        _ => refute_longer(alloc, problem, act),
    }
}

// The same if the deal is done after the turn.
fn refute_ended<A: Allocator + Copy>(
    alloc: A,
    problem: &Problem,
    next: &Know,
    act: &Act,
) -> Refutation<A>
    requires over { next.now.round.asked ≡ turns.Over }
    requires knows { KnowsAfter next.now problem.now (event_of act.now ∷ played_events problem.now) }
    ensures right { IfOk result (λ found. IsFoundWith problem.now act.now found) }
    ensures few { IfOk result (λ found. AreFew (own_count (longer problem.now act.now)) found) }
{
    let Some(game) = missed_game(problem, next, act) else {
        return Ok(None);
    };
    let mut games = Vec::new(alloc);
    match games.push(game) {
        Ok(()) => Ok(Some(games)),
        Err(_) => Err(NoMemory),
    }
}

// The same if the deal is not done after the turn. A card that the owner has seen is none of the opponent's: no deal
// has such a turn, and each player is sure after it. After a turn of the owner no plan is sure if none was before it.
#[cycle(refute)]
fn refute_longer<A: Allocator + Copy>(alloc: A, problem: &Problem, act: &Act) -> Refutation<A>
    requires setup { IsSetup problem.now }
    requires going { asked_now problem.now (event_of act.now ∷ played_events problem.now) ≢ turns.Over }
    ensures right { IfOk result (λ found. IsFoundWith problem.now act.now found) }
    ensures few { IfOk result (λ found. AreFew (own_count (longer problem.now act.now)) found) }
{
    let Ok(longer) = problem.after(*act) else {
        return Ok(None);
    };
    if act.side == Side::Opponent && is_winnable(alloc, &longer)? {
        return Ok(None);
    }
    let know = Know::start(&longer);
    refute(alloc, &longer, &know)
}

// What the owner knows with one turn more.
fn with_turn(know: &Know, act: &Act) -> Know
    requires { CanComeAs know.now act.now.side act.now.what }
    ensures { (problem : Setup) (history : List Event) → KnowsAfter know.now problem history
        → KnowsAfter result problem (event_of act.now ∷ history) }
{
    let mut next = know.copy();
    match act.side {
        Side::Owner => next.did(&act.what),
        Side::Opponent => next.saw(&act.what.letter()),
    }
    next
}

// Puts more games at the end of a list.
fn join<A: Allocator + Copy>(games: &mut Vec<Game, A>, more: Vec<Game, A>) -> Result<(), NoMemory>
    ensures { IfOk result (λ _. games.new.items ≡ games.old.items ++ more.items) }
{
    for game in more {
        if games.push(game).is_err() {
            return Err(NoMemory);
        }
    }
    Ok(())
}
