//! Why a plan states no card that can be played: where it is after the turns of a game.
ghost use Rattle.std.specs.Prelude.{◌≡◌, filter, flat_map};
ghost use Rattle.crib_cards.specs.Sets.{has};
ghost use Rattle.crib_run.specs.Prints.{Prints};
ghost use Rattle.crib_plan_sheet.specs.PlanNow.{held_after, is_left};
ghost use Rattle.crib_plan_sheet.specs.PlanPlay.{turns_of};
ghost use Rattle.crib_plan_sheet.specs.PlanStuck.{letter_word, stated_words, stuck_text, stuck_words};
ghost use Rattle.crib_plan_sheet.specs.PlanStuck as spec;

use crate::labels::letter_byte;
use crate::now::is_left;
use crib_cards::{Act, Card, Letter, Move, Side, card_text};
use crib_plan::{Next, Plan, after_card, card_at, place_after, start};
use crib_problem::Problem;
use crib_run::{Page, put_number};
use std::alloc::Allocator;

/// Where a plan is after some turns.
#[derive(Clone, Copy)]
pub(crate) enum Halt {
    /// The plan has no node.
    NoNode,
    /// At a node.
    At(u16),
    /// At the end, after the card of this node.
    Ended(u16),
    /// At the end, after this letter, for which this node has no branch.
    NoLine(u16, Letter),
}

/// Puts why a plan is stuck after the acts of a game.
#[tactic(auto, unfolding(crate::specs::PlanStuck::stuck_text))]
pub fn put_stuck<A: Allocator, P: Page>(
    page: &mut P,
    problem: &Problem,
    plan: &Plan<A>,
    acts: &[Act],
)
    ensures { Prints (stuck_text problem.now plan.now acts.now) (P.stand page.old) (P.stand page.new) }
{
    let halt = halt_of(problem, plan, acts);
    put_halt(page, problem, plan, acts, halt);
}

// Returns where a plan is after the acts of a game.
#[tactic(auto, using(crate::proofs::HaltedPlays::opening_left, crate::proofs::HaltedPlays::none_left))]
fn halt_of<A: Allocator>(problem: &Problem, plan: &Plan<A>, acts: &[Act]) -> Halt
    ensures { result ≡ spec.halt_of problem.now plan.now acts.now }
{
    let start = halt_at(Halt::NoNode, start(plan));
    let opening = problem.played().len();
    if opening >= acts.len() {
        return start;
    }
    halt_after(plan, start, &acts[opening..])
}

// Returns where a plan is after some acts.
fn halt_after<A: Allocator>(plan: &Plan<A>, halt: Halt, acts: &[Act]) -> Halt
    ensures { result ≡ spec.halt_after plan.now halt (flat_map turns_of acts.now) }
{
    match acts {
        [] => halt,
        [first, others @ ..] => halt_after(plan, halt_with(plan, halt, first), others),
    }
}

// Returns where a plan is after one more act.
fn halt_with<A: Allocator>(plan: &Plan<A>, halt: Halt, act: &Act) -> Halt
    ensures { result ≡ spec.halt_after plan.now halt (turns_of act.now) }
{
    let Halt::At(node) = halt else {
        return halt;
    };
    match (act.side, act.what) {
        (Side::Owner, Move::Card(_)) => halt_at(
            Halt::Ended(node),
            after_card(plan, Next::To(node)),
        ),
        (Side::Owner, Move::Go) => halt,
        (Side::Opponent, _) => halt_at(
            Halt::NoLine(node, act.what.letter()),
            place_after(plan, Next::To(node), act.what.letter()),
        ),
    }
}

// Returns where a plan is at its next place: at a node, or at the end for the reason `ended`.
fn halt_at(ended: Halt, next: Next) -> Halt
    ensures { result ≡ spec.halt_at ended next }
{
    match next {
        Next::End => ended,
        Next::To(node) => Halt::At(node),
    }
}

// Puts why a plan is stuck, by where it is.
fn put_halt<A: Allocator, P: Page>(
    page: &mut P,
    problem: &Problem,
    plan: &Plan<A>,
    acts: &[Act],
    halt: Halt,
)
    ensures { Prints (stuck_words plan.now (held_after problem.now acts.now) halt) (P.stand page.old)
        (P.stand page.new) }
{
    match halt {
        Halt::NoNode => page.put(b"The plan has no node.\n"),
        Halt::At(node) => {
            page.put(b"Node ");
            put_number(page, node as u32);
            put_stated(page, problem, acts, card_at(plan, Next::To(node)));
        }
        Halt::Ended(node) => {
            page.put(b"The plan ends at node ");
            put_number(page, node as u32);
            page.put(b".\n");
        }
        Halt::NoLine(node, letter) => {
            page.put(b"They show ");
            put_letter(page, letter);
            page.put(b", and node ");
            put_number(page, node as u32);
            page.put(b" has no line for it.\n");
        }
    }
}

// Puts what is wrong at a node that states this card, or none.
fn put_stated<P: Page>(page: &mut P, problem: &Problem, acts: &[Act], stated: Option<Card>)
    ensures { Prints (stated_words (held_after problem.now acts.now) stated) (P.stand page.old) (P.stand page.new) }
{
    let Some(card) = stated else {
        page.put(b" looks at what they show next, and it is your turn.\n");
        return;
    };
    page.put(b" states ");
    page.put(&card_text(card));
    if is_held(acts, &problem.hold(), card) {
        page.put(b", which doesn't fit.\n");
    } else {
        page.put(b", which you don't hold.\n");
    }
}

/// Puts the word for a letter: `K` or `go`.
pub fn put_letter<P: Page>(page: &mut P, letter: Letter)
    ensures { Prints (letter_word letter) (P.stand page.old) (P.stand page.new) }
{
    match letter {
        Letter::Seen(_) => page.put(&[letter_byte(letter.index() as usize)]),
        Letter::Go => page.put(b"go"),
    }
}

// Whether a card is among those of a hold that some acts don't play.
fn is_held(acts: &[Act], hold: &[Card], card: Card) -> bool
    ensures { result ≡ has (filter (is_left acts.now) hold.now) card }
{
    match hold {
        [] => false,
        [first, others @ ..] => {
            (is_left(acts, *first) && *first == card) || is_held(acts, others, card)
        }
    }
}
