//! A game act by act: the round, and the cards that each side has left.
ghost use Rattle.std.specs.Prelude.{◌≡◌, ◌≢◌, List, [], ◌∷◌};
ghost use Rattle.crib_cards.specs.Letters.{letter_of};
ghost use Rattle.crib_cards.specs.Sets.{set_of};
ghost use Rattle.crib_cards.specs.Start.{Start};
ghost use Rattle.crib_cards.specs.declared.letters.Letter.{Letter};
ghost use Rattle.crib_play.specs.Filled.{points_added};
ghost use Rattle.crib_play.specs.Record.{count_of};
ghost use Rattle.crib_play.specs.Score.{asks};
ghost use Rattle.crib_play.specs.Standing.{StandsFor};
ghost use Rattle.crib_problem.specs.Setup.{IsSetup, start_of};
ghost use Rattle.crib_game.specs.Replay.{count_with, move_fault_at, outcome_if_done, show_if_done, turn_fault};
ghost use Rattle.crib_game.specs.Private.Judging.{is_over, held_cards_of, held_cards_after, fault_at, full_at};
ghost use Rattle.crib_game.specs.Private.Judging.{MayShowAt};

use super::remark::Remark;
use super::replays::full_with;
use super::report::Row;
use crate::fault::GameFault;
use arrayvec::ArrayVec;
use crib_cards::{Act, Card, CardSet, Dealt, Move, Side};
use crib_play::{Round, Turn, any_fits, fits};
use crib_problem::Problem;
use crib_show::{Outcome, ShowRow, outcome_with, show_rows};

/// The cards that each side has left.
#[derive(Clone, Copy)]
pub(crate) struct HeldCards {
    pub(crate) owner: CardSet,
    pub(crate) opponent: CardSet,
}

impl HeldCards {
    pub(crate) fn of(&self, side: Side) -> CardSet
        ensures { result ≡ held_cards_of self.now side }
    {
        match side {
            Side::Owner => self.owner,
            Side::Opponent => self.opponent,
        }
    }

    // Removes a played card from both sets.
    fn play(&mut self, card: Card)
        ensures { self.new ≡ held_cards_after self.old (Move.Card card) }
    {
        self.owner = self.owner.without(card);
        self.opponent = self.opponent.without(card);
    }
}

/// A game after some of its acts, none of which is refused.
#[derive(Drop)]
pub(crate) struct JudgedGame {
    pub(crate) round: Round,
    pub(crate) held: HeldCards,
}

impl JudgedGame {
    // The game before its first act.
    pub(crate) fn new(problem: &Problem, dealt: &Dealt) -> JudgedGame
        requires { IsSetup problem.now }
        ensures stands { StandsFor result.round (start_of problem.now) [] }
        ensures held { result.held ≡ record { owner = set_of problem.now.hold; opponent = set_of dealt.now.hold } }
    {
        JudgedGame {
            round: Round::new(problem.dealer(), problem.scores(), problem.target()),
            held: HeldCards {
                owner: CardSet::new().with_all(&problem.hold()),
                opponent: CardSet::new().with_all(&dealt.hold),
            },
        }
    }

    // Whether the deal is done.
    pub(crate) fn is_over(&self) -> bool
        ensures { result ≡ is_over self.now.round.asked }
    {
        self.round.next() == Turn::Over
    }

    // The refusal of an act, if there is one. Its `number` is counted from 1. The first of these is returned: the
    // remark that the opening has another turn (47), an act after the end (45), the other side's turn (44), the remark
    // that the act strays from the plan (46), and what is wrong with the move (41 to 43).
    pub(crate) fn fault(&self, act: &Act, number: u8, remark: Remark) -> Option<GameFault>
        ensures { result ≡ fault_at remark self.now.round (held_cards_of self.now.held act.now.side) act.now number }
    {
        let turn = self.turn_fault(act, number);
        let wrong = move_fault(self.held.of(act.side), act.what, self.round.count(), number);
        match remark {
            Remark::NotPlayed => Some(GameFault::NotAsPlayed(number)),
            Remark::Astray => turn.or(Some(GameFault::Strays(number))),
            Remark::Fine => turn.or(wrong),
        }
    }

    // The refusal of an act after the end of the deal (45), or in the other side's turn (44).
    fn turn_fault(&self, act: &Act, number: u8) -> Option<GameFault>
        ensures { result ≡ turn_fault (is_over self.now.round.asked) (asks self.now.round.asked act.now.side) number }
    {
        if self.is_over() {
            Some(GameFault::AfterEnd(number))
        } else if self.round.next().asks(act.side) {
            None
        } else {
            Some(GameFault::NotTurn(number))
        }
    }

    // Makes an act of the side to move, and returns its row. The row's count includes the act's card, and 31 stays 31.
    // For a go it is the count at which the go is said. The points are those of the act and of the silent gos after it.
    // The scores are those after them.
    pub(crate) fn take(&mut self, act: &Act) -> Row
        requires asked { self.old.round.asked ≢ Turn.Over }
        requires may { MayShowAt act.now.what self.old.round }
        ensures stands { (start : Start) (seen : List Letter) → StandsFor self.old.round start seen →
            StandsFor self.new.round start (letter_of act.now.what ∷ seen) }
        ensures held { self.new.held ≡ held_cards_after self.old.held act.now.what }
        ensures act { result.act ≡ act.now }
        ensures count { result.count ≡ count_with (count_of self.old.round.pile) act.now.what }
        ensures points { (start : Start) (seen : List Letter) → StandsFor self.old.round start seen →
            result.points ≡ points_added start (letter_of act.now.what) seen }
        ensures scores { result.scores ≡ self.new.round.scores }
    {
        let count = count_at(&self.round, act.what);
        let points = show(&mut self.round, act.what);
        if let Move::Card(card) = act.what {
            self.held.play(card);
        }
        Row {
            act: *act,
            count,
            points,
            scores: self.round.scores(),
        }
    }

    // The hands that the show counts, and the outcome. Until the deal is done there are none.
    pub(crate) fn end(
        &self,
        problem: &Problem,
        dealt: &Dealt,
    ) -> (ArrayVec<ShowRow, 3>, Option<Outcome>)
        ensures show { result.0.items ≡
            show_if_done (is_over self.now.round.asked) (full_at problem.now dealt.now self.now.round) }
        ensures outcome { result.1 ≡
            outcome_if_done (is_over self.now.round.asked) (full_at problem.now dealt.now self.now.round) }
    {
        if !self.is_over() {
            return (ArrayVec::new(), None);
        }
        let full = full_with(problem, dealt, self.round.scores());
        let rows = show_rows(&full);
        let outcome = outcome_with(&full, &rows);
        (rows, Some(outcome))
    }
}

// The refusal of a move at this count, by a side that holds these cards. `number` is that of the act, from 1.
fn move_fault(cards: CardSet, what: Move, count: u8, number: u8) -> Option<GameFault>
    ensures { result ≡ move_fault_at count cards what number }
{
    match what {
        Move::Card(card) => {
            if !cards.has(card) {
                Some(GameFault::NotHeld(number))
            } else if !fits(card, count) {
                Some(GameFault::DoesNotFit(number))
            } else {
                None
            }
        }
        Move::Go if any_fits(cards, count) => Some(GameFault::MustPlay(number)),
        Move::Go => None,
    }
}

// The count with the card that is played, or the count at which a go is said.
fn count_at(round: &Round, what: Move) -> u8
    ensures { result ≡ count_with (count_of round.now.pile) what }
{
    match what {
        Move::Card(card) => round.count() + card.rank().value(),
        Move::Go => round.count(),
    }
}

// Makes the move of the side to move. Returns the points of the move and of the silent gos after it.
fn show(round: &mut Round, what: Move) -> u8
    requires asked { round.old.asked ≢ Turn.Over }
    requires may { MayShowAt what round.old }
    ensures stands { (start : Start) (seen : List Letter) → StandsFor round.old start seen →
        StandsFor round.new start (letter_of what ∷ seen) }
    ensures points { (start : Start) (seen : List Letter) → StandsFor round.old start seen →
        result ≡ points_added start (letter_of what) seen }
{
    match what {
        Move::Card(card) => round.play(card.rank()),
        Move::Go => round.say_go(),
    }
}
