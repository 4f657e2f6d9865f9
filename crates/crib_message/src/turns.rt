//! Why an act may not be the next one, in an opening, in a game, or in the turns since.
use crate::explained::Explained;
use crate::scene::{Scene, mark_of, text_at};
use crate::sentence::{Held, Sentence, moved, named, side_and_go, typed};
use crate::state::State;
use crate::strays::add_stray;
use crib_cards::{Card, GAME_HOLE, Move, Scores, Side};
use crib_game::GameFault as Fault;
use crib_input::Cause;
use crib_input::Cause::{Game, Problem};
use crib_problem::ProblemCause as Rule;

/// Returns the explanation of a turn, or of a line of a game, that is refused for a cause.
pub(crate) fn explain_turn(scene: &Scene<'_>, cause: Cause) -> Option<Explained> {
    let is_over = cause == Problem(Rule::AlreadyOver);
    let state = State::before(scene, u32::from(is_over))?;
    let ((side, _), moved) = (side_and_go(state.act.side), moved(&state.act.what));
    let mut sentence = match cause {
        Problem(Rule::NotTurn) => Sentence::of(format_args!("{side} is {cause}: ")),
        Problem(Rule::AlreadyOver) => Sentence::of(format_args!("{cause}: with {moved} ")),
        Problem(Rule::DoesNotFit) | Game(_) => Sentence::of(format_args!("{cause}: ")),
        _ => Sentence::of(format_args!("{moved} is {cause}: ")),
    };
    add_reason(&mut sentence, &state, scene, cause)?;
    let mark = match cause {
        Game(Fault::NotAsPlayed(_)) => Some(mark_of(0, 6)),
        Game(Fault::NotUnseen(number @ 5..)) => Some(mark_of(3 * usize::from(number) - 9, 2)),
        Game(Fault::NotUnseen(number)) => Some(mark_of(3 * usize::from(number) + 2, 2)),
        Game(Fault::NotTurn(_)) | Problem(Rule::NotTurn) => Some(mark_of(0, 3)),
        _ => Some(mark_of(4, 2)),
    };
    Some(Explained { sentence, mark })
}

// Appends why an act may not be the next one.
fn add_reason(to: &mut Sentence, state: &State, scene: &Scene<'_>, cause: Cause) -> Option<()> {
    match (cause, state.act.what) {
        (Problem(Rule::NotTurn) | Game(Fault::NotTurn(_)), _) => add_not_turn(to, state),
        (Problem(Rule::DoesNotFit) | Game(Fault::DoesNotFit(_)), Move::Card(card)) => {
            add_too_high(to, state, card);
        }
        (Problem(Rule::NotHeld | Rule::SameCard) | Game(Fault::NotHeld(_)), Move::Card(card)) => {
            add_not_held(to, state, card);
        }
        (Problem(Rule::NoDeal), Move::Card(_)) => {
            let (count, line) = state.told;
            let least = 32u8.saturating_sub(count);
            to.add(format_args!(
                "the opponent said go at a count of {count} (line {line}), \
                so each of their cards counts {least} or more"
            ));
        }
        (Problem(Rule::MustPlay | Rule::NoDeal) | Game(Fault::MustPlay(_)), _) => add_go(to, state),
        (Problem(Rule::AlreadyOver) | Game(Fault::AfterEnd(_)), _) => add_end(to, state, cause),
        (Game(Fault::NotUnseen(number)), _) => add_seen(to, state, number)?,
        (Game(Fault::NotAsPlayed(number)), _) => {
            let line = u32::from(number).saturating_add(8);
            let turn = typed(text_at(scene.input, line));
            to.add(format_args!(
                "a game begins with the turns of the opening, and the next one is {turn} (line {line})"
            ));
        }
        (Game(Fault::Strays(_)), what) => {
            add_stray(to, scene.input, state.acts.as_slice());
            to.add(format_args!(", and the owner plays {}", moved(&what)));
        }
        _ => return None,
    }
    Some(())
}

// Appends why it isn't the turn of the act's side.
fn add_not_turn(to: &mut Sentence, state: &State) {
    let (side, _) = side_and_go(state.act.side);
    let is_go = state.act.what == Move::Go;
    let is_idle = is_go && state.round.cards_left(state.act.side) == 0;
    let line = state.line_of(&state.act.what).unwrap_or(0);
    let is_said = is_go && line > state.closed;
    match is_idle {
        _ if is_said => to.add(format_args!(
            "{side} said go already (line {line}), and each side says go once a count; "
        )),
        true => to.add(format_args!("{side} has no card left, and such a go isn't written; ")),
        false => add_closed(to, state),
    }
    let other = state.act.side.other();
    let (mover, go) = side_and_go(other);
    let count = state.round.count();
    to.add(format_args!("it is {mover}'s turn, and the count is {count}"));
    match state.held(other) {
        _ if is_idle || is_said => to.add("; leave this line out"),
        _ if line > 0 && !is_go => to.add(format_args!("; this card was played (line {line})")),
        _ if state.acts.is_empty() => to.add("; the pone leads, and line 2 says who deals"),
        Some(held) if held.fits => to.add(format_args!("; {mover} holds {}", held.text)),
        Some(Held { cards, .. }) => to.add(format_args!(
            "; none of {mover}'s cards fits ({cards}), so {go} is missing before this line"
        )),
        None if is_go => {}
        None if count < 22 => to.add("; a card of theirs is missing before this line"),
        None => to.add("; a card of theirs or \"opp go\" is missing before this line"),
    }
}

// Appends how the count before this one ended, if no card has been played since.
fn add_closed(to: &mut Sentence, state: &State) {
    let line = state.line;
    match state.reached {
        _ if state.closed < line => {}
        31 => to.add("the count was 31, where nobody says go, and begins again; "),
        _ => to.add(format_args!(
            "neither side could play after line {line}, so the count begins again; "
        )),
    }
}

// Appends which cards fit, instead of a go.
fn add_go(to: &mut Sentence, state: &State) {
    add_closed(to, state);
    let (side, _) = side_and_go(state.act.side);
    let count = state.round.count();
    to.add(format_args!("the count is {count}, so "));
    match 31u8.saturating_sub(count) {
        10.. => to.add("every card fits"),
        left => to.add(format_args!("a card fits if it counts {left} or less")),
    }
    match state.held(state.act.side) {
        Some(held) => to.add(format_args!("; {side} holds {}", held.text)),
        None => to.add("; a go is said at a count of 22 or more"),
    }
}

// Appends what fits, instead of a card that is too high.
fn add_too_high(to: &mut Sentence, state: &State, card: Card) {
    let name = named(card);
    let value = card.rank().value();
    let count = state.round.count();
    let left = 31u8.saturating_sub(count);
    to.add(format_args!("{name} counts {value}, the count is {count}, and {left} is left to 31; "));
    let (side, go) = side_and_go(state.act.side);
    match state.held(state.act.side) {
        Some(held) if held.fits => to.add(format_args!("{side} holds {}", held.text)),
        Some(_) => to.add(format_args!(
            "{side} holds no card that fits, so {go} is missing before this line"
        )),
        None if state.round.cards_left(Side::Owner) == 0 => {
            to.add("\"opp go\" may be missing before this line");
        }
        None => to.add("\"opp go\" would pass the turn to the owner"),
    }
}

// Returns where a card is that the lines above name, and the number of its line.
fn where_named(state: &State, card: Card) -> Option<(&'static str, u32)> {
    let problem = &state.problem;
    match state.line_of(&Move::Card(card)) {
        Some(line) => Some(("was played", line)),
        _ if problem.starter() == card => Some(("is the starter", 4)),
        _ if problem.hold().contains(&card) => Some(("is in the owner's hold", 5)),
        _ if problem.thrown().contains(&card) => Some(("is in the owner's throw", 6)),
        None => None,
    }
}

// Appends where a card is that the act's side doesn't hold, and what this side holds or whose turn it is.
fn add_not_held(to: &mut Sentence, state: &State, card: Card) {
    let (side, _) = side_and_go(state.act.side);
    let name = named(card);
    let is_held = state.dealt.is_some_and(|dealt| dealt.hold.contains(&card));
    let is_thrown = state.dealt.is_some_and(|dealt| dealt.throw.contains(&card));
    let mut joint = "; ";
    match where_named(state, card) {
        Some((_, 5)) => to.add(format_args!("the owner holds {name}")),
        Some((at, line)) => to.add(format_args!("{name} {at} (line {line})")),
        None if is_held => to.add(format_args!("the opponent holds {name}")),
        None if is_thrown => to.add(format_args!("{name} is in the opponent's throw")),
        None => joint = "",
    }
    match state.held(state.act.side) {
        Some(Held { cards, .. }) => to.add(format_args!("{joint}{side} still holds {cards}")),
        None if state.round.next().asks(Side::Owner) => {
            to.add(format_args!("{joint}it is the owner's turn"));
        }
        None => {}
    }
}

// Appends where a card of the opponent is before, from its number among the six.
fn add_seen(to: &mut Sentence, state: &State, number: u8) -> Option<()> {
    let dealt = state.dealt?;
    let at = usize::from(number).saturating_sub(1);
    let thrown = dealt.throw.get(at.saturating_sub(4));
    let card = *dealt.hold.get(at).or(thrown)?;
    let name = named(card);
    let line = state.line.saturating_sub(2);
    match where_named(state, card) {
        Some((at, line)) => to.add(format_args!("{name} {at} (line {line})")),
        None if number > 4 && dealt.hold.contains(&card) => {
            to.add(format_args!("{name} is in the opponent's hold (line {line})"));
        }
        None => to.add(format_args!("{name} stands twice in this line")),
    }
    Some(())
}

// Appends how the deal ended.
fn add_end(to: &mut Sentence, state: &State, cause: Cause) {
    let target = state.problem.target();
    let Scores { owner, opponent } = state.round.scores();
    match (owner >= target, opponent >= GAME_HOLE) {
        (true, _) => to.add(format_args!("the owner reached hole {target}")),
        (_, true) => to.add(format_args!("the opponent reached hole {GAME_HOLE}")),
        _ => to.add("all eight cards are played"),
    }
    match cause {
        Game(_) => to.add(format_args!(" (line {})", state.line)),
        _ => to.add("; an opening stops before such a turn"),
    }
}
