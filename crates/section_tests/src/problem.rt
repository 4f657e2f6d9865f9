use crate::inputs::{grows_once, lines, next_number, problem, same, same_for, writes};
use crib_cards::{Card, Rank, Scores, Side, card_text};
use crib_problem::*;
use crib_text::Lines;
use refusing_alloc::Refusing;
use std::process::Abort;

// A problem with tens and small clubs against a dealer: its version, and the lines of the opening. The goal is to win.
macro_rules! level {
    ($version:literal, $opening:literal) => {
        concat!(
            "problem ", $version,
            "\ndealer opponent\nscore 0 0\nstarter 3H\nhold TC 9C 2C 8C\nthrow 4S 6S\ngoal win\n", $opening
        )
    };
}

// A problem with four twos: its version, the dealer, the scores, the goal, and the lines of the opening.
macro_rules! twos {
    ($version:literal, $dealer:literal, $score:literal, $goal:literal, $opening:literal) => {
        concat!(
            "problem ", $version, "\ndealer ", $dealer, "\nscore ", $score,
            "\nstarter KD\nhold 2C 2D 2H 2S\nthrow 4C 6D\ngoal ", $goal, "\n", $opening
        )
    };
}

// The four twos with a goal of twelve holes: the lines of the opening.
macro_rules! twelve {
    ($opening:literal) => {
        twos!("2", "opponent", "0 0", "holes 12", $opening)
    };
}

// The beginning of a problem: the lines after the starter.
macro_rules! after_starter {
    ($lines:literal) => {
        concat!("problem 1\ndealer owner\nscore 0 0\nstarter 3H\n", $lines)
    };
}

// A problem whose owner deals: the owner's score, and the line of the goal.
macro_rules! goal_at {
    ($score:literal, $goal:literal) => {
        concat!(
            "problem 1\ndealer owner\nscore ", $score,
            " 0\nstarter 3H\nhold TC 9C 2C 8C\nthrow 4S 6S\n", $goal, "\n"
        )
    };
}

const LEVEL: &str = level!("1", "");

// The goal is twelve holes.
const TWOS: &str = twos!("1", "opponent", "0 0", "holes 12", "");

// The greatest number of holes that a goal can have at this score, in the longest lines. The owner deals.
const LAST_HOLE: &str = twos!("1", "owner", "119 120", "holes 2", "");

// The four twos after two turns.
const AFTER_TWO: &str = twelve!("played 2\nown 2C\nopp AC\n");

// The goal is to stop the opponent.
const TO_STOP: &str = twos!("2", "opponent", "0 0", "stop", "played 0\n");

// The opponent is near 121, and reaches it with the second turn.
const LOST: &str =
    "problem 2\ndealer opponent\nscore 100 119\nstarter KD\nhold AC 2C 2D 2H\nthrow 4C 6D\n\
    goal win\nplayed 2\nown AC\nopp AD\n";

// Returns the line and the number of the refusal, or (0, 0) if there is none.
fn refusal(rt: &impl Abort, text: &[u8]) -> (u32, u8) {
    assert!(rt; text.len() <= 1000);
    match Lines::new(text) {
        Err(fault) => (fault.line, fault.cause.number()),
        Ok(mut lines) => match read_problem(&mut lines) {
            Err(fault) => (fault.line, fault.cause.number()),
            Ok(_) => (0, 0),
        },
    }
}

// A text, and the line and the number of its refusal. They are 0 and 0 if it is read.
type Row = (&'static str, u32, u8);

fn are_refused(rt: &impl Abort, rows: &[Row]) {
    for (text, line, number) in rows {
        let refused = refusal(rt, text.as_bytes());
        same_for(rt, refused, (*line, *number), text);
    }
}

// Asserts that these are the cards of a text.
fn are_cards(rt: &impl Abort, cards: &[Card], text: &str) {
    for (card, word) in cards.iter().zip(text.split(' ')) {
        same(rt, card_text(*card).as_slice(), word.as_bytes());
    }
}

#[test]
fn knows_what_was_written(rt: HostRuntime) {
    let problem = problem(&rt, LEVEL);
    same(&rt, problem.dealer(), Side::Opponent);
    same(
        &rt,
        problem.scores(),
        Scores {
            owner: 0,
            opponent: 0,
        },
    );
    are_cards(&rt, &[problem.starter()], "3H");
    are_cards(&rt, &problem.hold(), "TC 9C 2C 8C");
    are_cards(&rt, &problem.thrown(), "4S 6S");
    same(&rt, problem.goal(), Goal::Win);
    same(&rt, problem.target(), 121);
    assert!(rt; problem.known().has(problem.starter()));
}

#[test]
fn aims_at_the_holes_asked(rt: HostRuntime) {
    let twelve = problem(&rt, TWOS);
    same(&rt, twelve.goal(), Goal::Holes(12));
    same(&rt, twelve.target(), 12);
    let last = problem(&rt, LAST_HOLE);
    same(&rt, last.dealer(), Side::Owner);
    same(&rt, last.target(), 121);
}

// The number of unseen cards of each rank in `TWOS`, from the ace to the king.
const LEFT: &[u8] = &[4, 0, 4, 3, 4, 3, 4, 4, 4, 4, 4, 4, 3];

// The pack has four cards of each rank. The seven known cards leave no two, three fours, three sixes and three kings,
// and four of each other rank.
#[test]
fn does_not_see_the_others(rt: HostRuntime) {
    let problem = problem(&rt, TWOS);
    let unseen = problem.unseen();
    assert!(rt; problem.known().has(problem.starter()));
    assert!(rt; !unseen.has(problem.starter()));
    for (i, left) in (1..14u8).zip(LEFT) {
        let rank = Rank::new(i).expect(&rt, "a rank");
        assert_eq!(rt; unseen.count_rank(rank), *left, "rank {i}");
    }
}

#[test]
fn writes_what_it_reads(rt: HostRuntime) {
    for text in [LEVEL, TWOS, LAST_HOLE] {
        writes(&rt, write_problem(rt.alloc(), &problem(&rt, text)), text);
    }
}

#[test]
fn a_refused_growth_is_want_of_memory(rt: HostRuntime) {
    let problem = problem(&rt, LEVEL);
    for served in 0..2 {
        let heap = Refusing::after(rt.alloc(), served);
        let written = write_problem(&heap, &problem);
        grows_once(&rt, &heap, served, written, LEVEL);
    }
}

const REFUSED: &[Row] = &[
    (LEVEL, 0, 0),
    (TWOS, 0, 0),
    ("", 1, 3),
    ("game 1\n", 1, 4),
    ("problem 3\n", 1, 7),
    ("problem 2\n", 2, 3),
    ("problem x\n", 1, 6),
    ("problem 1\r\n", 1, 1),
    ("problem 1\ndealer  opponent\n", 2, 4),
    ("problem 1\ndealer x\n", 2, 4),
    ("problem 1\ndealer owner\nscore 120 121\n", 3, 21),
    ("problem 1\ndealer owner\nscore 121 x\n", 3, 21),
    ("problem 1\ndealer owner\nscore 007 0\n", 3, 6),
    ("problem 1\ndealer owner\nscore 0\n", 3, 4),
    ("problem 1\ndealer owner\nstarter 3H\n", 3, 4),
    ("problem 1\ndealer owner\nscore 0 0\nstarter 3h\n", 4, 5),
    (after_starter!("hold TC 9C 2C 1S\n"), 5, 5),
    (after_starter!("hold TC 9C 3H 8C\n"), 5, 20),
    (after_starter!("hold TC 9C 2C 8C\nthrow 4S 2C\n"), 6, 20),
    (
        "problem 1\ndealer owner\nscore 0 0\nstarter KD\nhold 2C 2D 2H 2S\nthrow 4C 2S\n",
        6,
        20,
    ),
    (after_starter!("hold TC 9C 2C 8C\nthrow 4S 4S\n"), 6, 20),
];

#[test]
fn refuses_by_line_and_number(rt: HostRuntime) {
    are_refused(&rt, REFUSED);
}

// Goals at the scores 0 and 119.
const GOALS: &[Row] = &[
    (goal_at!("0", "goal holes 121"), 0, 0),
    (goal_at!("0", "goal holes 122"), 7, 22),
    (goal_at!("0", "goal holes 0"), 7, 22),
    (goal_at!("119", "goal holes 2"), 0, 0),
    (goal_at!("119", "goal holes 3"), 7, 22),
    (goal_at!("0", "goal holes x"), 7, 6),
    (goal_at!("0", "goal stop"), 7, 4),
    (goal_at!("0", "goal x 1"), 7, 4),
    (goal_at!("0", "goal"), 7, 4),
    (goal_at!("0", "goal win 1"), 7, 4),
];

#[test]
fn refuses_other_goals(rt: HostRuntime) {
    are_refused(&rt, GOALS);
}

// Each proper beginning of a text is refused as cut short, in the line of the cut.
#[test]
fn refuses_what_is_cut_short(rt: HostRuntime) {
    let text = TWOS.as_bytes();
    let mut line = 1u32;
    for (i, byte) in text.iter().enumerate() {
        assert_eq!(rt; refusal(&rt, &text[..i]), (line, 3), "at byte {i}");
        if *byte == b'\n' {
            line = line.saturating_add(1);
        }
    }
}

// A problem between two other sections.
const BETWEEN_GAMES: &str =
    "game 1\nproblem 1\ndealer owner\nscore 0 0\nstarter 3H\nhold TC 9C 2C 8C\nthrow 4S 6S\ngoal win\ngame 1\n";

#[test]
fn reads_on_after_a_refusal(rt: HostRuntime) {
    let mut lines = lines(&rt, BETWEEN_GAMES);
    assert!(rt; read_problem(&mut lines).is_err());
    same(&rt, next_number(&rt, &mut lines), 1);
    assert!(rt; read_problem(&mut lines).is_ok());
    let fault = read_problem(&mut lines).expect_err(&rt, "another section");
    same(&rt, (fault.line, fault.cause.number()), (9, 4));
    same(&rt, next_number(&rt, &mut lines), 9);
}

#[test]
fn begins_after_turns(rt: HostRuntime) {
    let begun = problem(&rt, AFTER_TWO);
    same(&rt, begun.version(), 2);
    let played = begun.played();
    assert!(rt; played.len() == 2);
    same(&rt, played[0].side, Side::Owner);
    same(&rt, played[1].side, Side::Opponent);
    writes(&rt, write_problem(rt.alloc(), &begun), AFTER_TWO);
    let first = problem(&rt, TWOS);
    same(&rt, first.version(), 1);
    assert!(rt; first.played().is_empty());
}

const TURNS: &[Row] = &[
    (
        level!(
            "2",
            "played 6\nown TC\nopp TD\nown 9C\nopp go\nown 2C\nopp 2D\n"
        ),
        14,
        23,
    ),
    (level!("2", "played 1\nown go\n"), 9, 43),
    (level!("2", "played 1\nopp TD\n"), 9, 44),
    (twelve!("played 2\nown 3C\nopp AC\n"), 9, 41),
    (
        level!("2", "played 4\nown TC\nopp TD\nown 9C\nopp 3C\n"),
        12,
        42,
    ),
    (
        level!("2", "played 4\nown TC\nopp AD\nown 9C\nopp AD\n"),
        12,
        20,
    ),
    (twelve!("played 2\nown 2C\nopp go\n"), 10, 23),
    (twelve!("played 2\nown 2C\nopp 2D\n"), 10, 20),
    (level!("2", "played 33\n"), 8, 6),
    (level!("2", "acts 0\n"), 8, 4),
    (level!("2", "played 1\nown 1C\n"), 9, 5),
    (level!("2", "played 1\n"), 9, 3),
    (level!("2", "played 0\n"), 0, 0),
    (LOST, 10, 24),
];

#[test]
fn refuses_turns_that_could_not_come(rt: HostRuntime) {
    are_refused(&rt, TURNS);
}

#[test]
fn stops_in_the_second_version_alone(rt: HostRuntime) {
    let problem = problem(&rt, TO_STOP);
    same(&rt, problem.goal(), Goal::Stop);
    same(&rt, problem.target(), 121);
    writes(&rt, write_problem(rt.alloc(), &problem), TO_STOP);
}
