//! The position in the middle of a play: the scores now, and the cards that the owner still holds.
ghost use Rattle.std.specs.Prelude.{◌≡◌, [], filter};
ghost use Rattle.std.specs.List.{list_any};
ghost use Rattle.crib_cards.specs.Sets.{has};
ghost use Rattle.crib_problem.specs.Played.{cards_played, cards_with};
ghost use Rattle.crib_run.specs.Pieces.{spaced_cards};
ghost use Rattle.crib_run.specs.Prints.{Prints};
ghost use Rattle.crib_plan_sheet.specs.PlanNow.{held_words, now_line, now_text};
ghost use Rattle.crib_plan_sheet.specs.PlanNow as spec;

use crib_cards::{Act, Card, Move, Scores};
use crib_know::Know;
use crib_problem::Problem;
use crib_run::{Page, put_card, put_other_score, put_small};

/// Puts the scores and the owner's cards after the opening, or none without an opening.
pub fn put_now<P: Page>(page: &mut P, problem: &Problem)
    ensures { Prints (now_text problem.now) (P.stand page.old) (P.stand page.new) }
{
    if problem.played().len() != 0 {
        put_line(page, problem);
    }
}

// Puts the scores and the owner's cards after the opening.
fn put_line<P: Page>(page: &mut P, problem: &Problem)
    ensures { Prints (now_line problem.now) (P.stand page.old) (P.stand page.new) }
{
    let scores = scores_now(problem);
    page.put(b"You are at ");
    put_small(page, scores.owner);
    page.put(b" now");
    put_other_score(page, problem.dealer(), scores.opponent);
    page.put(b". You still hold");
    put_held(page, problem);
    page.put(b".\n");
}

// Returns the scores after the opening.
fn scores_now(problem: &Problem) -> Scores
    ensures { result ≡ spec.scores_now problem.now }
{
    Know::start(problem).round().scores()
}

// Puts the cards that the owner still holds after the opening, or that there is none.
fn put_held<P: Page>(page: &mut P, problem: &Problem)
    ensures { Prints (held_words problem.now problem.now.played) (P.stand page.old) (P.stand page.new) }
{
    let played = problem.played();
    if is_any_left(played, &problem.hold()) {
        put_left(page, played, &problem.hold());
    } else {
        page.put(b" no card");
    }
}

// Whether one of the cards is left after some acts.
fn is_any_left(acts: &[Act], cards: &[Card]) -> bool
    ensures { result ≡ list_any (spec.is_left acts.now) cards.now }
{
    cards.iter().any(|card| is_left(acts, *card))
}

// Puts the cards that are left after some acts, each after a space.
fn put_left<P: Page>(page: &mut P, acts: &[Act], cards: &[Card])
    ensures { Prints (spaced_cards (filter (spec.is_left acts.now) cards.now)) (P.stand page.old)
        (P.stand page.new) }
{
    let Some((first, others)) = cards.split_first() else {
        return;
    };
    if is_left(acts, *first) {
        put_card(page, *first);
        put_left(page, acts, others);
    } else {
        put_left(page, acts, others);
    }
}

/// Whether a card is left after some acts: none of them plays it.
pub(crate) fn is_left(acts: &[Act], card: Card) -> bool
    ensures { result ≡ spec.is_left acts.now card }
{
    !is_played(acts, card)
}

// Whether one of some acts plays a card.
fn is_played(acts: &[Act], card: Card) -> bool
    ensures { result ≡ has (cards_played acts.now) card }
{
    match acts {
        [] => false,
        [first, others @ ..] => is_card(first, card) || is_played(others, card),
    }
}

// Whether an act plays a card.
fn is_card(act: &Act, card: Card) -> bool
    ensures { result ≡ has (cards_with act.now.what []) card }
{
    match act.what {
        Move::Card(played) => played == card,
        Move::Go => false,
    }
}
