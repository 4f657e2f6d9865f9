//! The state of the play before a refused act: the turns before it are replayed.
use crate::scene::{Scene, Section, is_line_feed, problem_len, word_in};
use crate::sentence::Held;
use arrayvec::ArrayVec;
use crib_cards::{Act, CardSet, Dealt, Move, Side, read_card};
use crib_game::read_game;
use crib_play::{Round, Turn};
use crib_problem::{Problem, read_problem};
use crib_text::Lines;

/// The state of the play before an act of an opening, of a game, or of the turns since.
#[derive(Drop)]
pub(crate) struct State {
    pub(crate) problem: Problem,
    /// The opponent's six cards. Only a game names them.
    pub(crate) dealt: Option<Dealt>,
    /// The refused act. If another line is refused, it is a go of the owner.
    pub(crate) act: Act,
    pub(crate) round: Round,
    /// The acts before the refused one.
    pub(crate) acts: ArrayVec<Act, 32>,
    // Their lines.
    lines: ArrayVec<u32, 32>,
    /// The line of the last act, or the one before the first.
    pub(crate) line: u32,
    /// The line of the last act before this count began, or 0.
    pub(crate) closed: u32,
    /// The count after the last card, before it may have begun again.
    pub(crate) reached: u8,
    /// The count and the line of the opponent's go that says the most of their cards: the one at the least count.
    pub(crate) told: (u8, u32),
}

impl State {
    /// Returns the state before the refused act, or after so many further acts. Returns `None` if the lines above are
    /// refused themselves.
    pub(crate) fn before(scene: &Scene<'_>, further: u32) -> Option<State> {
        let (opening, first) = match scene.spot.section {
            Section::Game => (8, scene.before().saturating_add(5)),
            Section::Turns => (problem_len(scene.input), scene.before().saturating_add(2)),
            _ => (8, 9),
        };
        let mut state = State::read(scene, first)?;
        let lines = scene.input.split(is_line_feed).zip(1..=scene.number);
        for (line, number) in lines.filter(|(_, n)| *n >= first || (9..=opening).contains(n)) {
            let act = act_in(line)?;
            if number < scene.number.saturating_add(further) {
                state.take(&act, number);
            }
            state.act = act;
        }
        Some(state)
    }

    // Reads the problem, and the opponent's cards if there is a game. The first act has the line `first`.
    fn read(scene: &Scene<'_>, first: u32) -> Option<State> {
        let text = text_of(scene);
        let mut lines = Lines::new(text.as_slice()).ok()?;
        let problem = read_problem(&mut lines).ok()?;
        let dealt = match scene.spot.section {
            Section::Game => Some(read_game(&mut lines).ok()?.opp),
            _ => None,
        };
        Some(State {
            round: Round::new(problem.dealer(), problem.scores(), problem.target()),
            problem,
            dealt,
            act: Act::default(),
            acts: ArrayVec::new(),
            lines: ArrayVec::new(),
            line: first.saturating_sub(1),
            closed: 0,
            reached: 0,
            told: (32, 0),
        })
    }

    /// Returns the cards that a side holds, if they are known.
    pub(crate) fn held(&self, side: Side) -> Option<Held> {
        let hold = match side {
            Side::Owner => self.problem.hold(),
            Side::Opponent => self.dealt?.hold,
        };
        let mut left = CardSet::new();
        for card in hold {
            if self.line_of(&Move::Card(card)).is_none() {
                left = left.with(card);
            }
        }
        Some(Held::of(left, self.round.count()))
    }

    /// Returns the line of the last act with this move.
    pub(crate) fn line_of(&self, what: &Move) -> Option<u32> {
        let index = self.acts.iter().rposition(|act| act.what == *what)?;
        self.lines.get(index).copied()
    }

    // Takes the next act, which is on this line. One that the rules don't allow changes nothing but the acts and their
    // lines.
    fn take(&mut self, act: &Act, line: u32) {
        let count = self.round.count();
        let _full = self.acts.try_push(*act);
        let _full = self.lines.try_push(line);
        self.line = line;
        match act.what {
            _ if self.round.next() == Turn::Over => return,
            Move::Card(card) if self.round.fits(card.rank()) => {
                self.round.play(card.rank());
                self.reached = count.saturating_add(card.rank().value());
            }
            Move::Go if count >= 22 => {
                self.round.say_go();
                if act.side == Side::Opponent && count < self.told.0 {
                    self.told = (count, self.line);
                }
            }
            _ => {}
        }
        if self.round.count() == 0 {
            self.closed = self.line;
        }
    }
}

// Returns the act on a line.
fn act_in(line: &[u8]) -> Option<Act> {
    let side = match word_in(line, 0) {
        b"own" => Side::Owner,
        _ => Side::Opponent,
    };
    let what = match word_in(line, 1) {
        b"go" => Move::Go,
        card => Move::Card(read_card(card)?),
    };
    Some(Act { side, what })
}

// Returns the first seven lines with an empty opening, and the lines from the section on, as far as there is room.
fn text_of(scene: &Scene<'_>) -> ArrayVec<u8, 512> {
    let mut text = ArrayVec::new();
    for (index, line) in scene.input.split_inclusive(is_line_feed).enumerate() {
        let _full = match index {
            7 if scene.is_second() => text.try_extend_from_slice(b"played 0\n"),
            _ if index < 7 || index >= scene.before() as usize => text.try_extend_from_slice(line),
            _ => Ok(()),
        };
    }
    text
}
