//! Inputs that the commands refuse, with the line and the number.
use crate::tests::runs::{ONE_GAME, text_with, writes};
use crib_answer::Job;
use crib_run::Status;
use example_texts::changes::{CHANGED_GAMES, CHANGED_PLANS, Change};
use example_texts::games::*;
use example_texts::plans::*;
use example_texts::problems::*;
use std::process::Abort;

// Asserts that a run refuses some sections, each time with one line changed.
fn refuses(rt: &(impl Abort + AllocGlobal), job: Job, sections: &[&str], changes: &[Change]) {
    for (number, changed, wanted) in changes {
        let input = text_with(rt, sections, *number, changed);
        writes(rt, job, &[input.as_str()], wanted, Status::Refused);
    }
}

#[test]
fn board_refuses_what_replay_refuses(rt: HostRuntime) {
    refuses(&rt, Job::Board, &[TENS, LAST_CARD], &CHANGED_GAMES);
}

const OTHER_QUESTIONS: [Change; 7] = [
    (3, "score 007 0", "refused line 3: 6\n"),
    (7, "goal holes 0", "refused line 7: 22\n"),
    (7, "goal holes 122", "refused line 7: 22\n"),
    (7, "goal stop", "refused line 7: 4\n"),
    (6, "throw 4C 2S", "refused line 6: 20\n"),
    (1, "problem 1\r", "refused line 1: 1\n"),
    (10, "0 see 5A:1", "refused line 10: 31\n"),
];

#[test]
fn check_refuses_with_the_line(rt: HostRuntime) {
    refuses(&rt, Job::Check, &[TWELVE, TWOS], &CHANGED_PLANS);
    refuses(&rt, Job::Check, &[TWELVE, TWOS], &OTHER_QUESTIONS);
    writes(&rt, Job::Check, &[], "refused line 1: 3\n", Status::Refused);
}

// Openings between the problem and its plan, and the refusals.
const OPENINGS: [(&str, &str); 5] = [
    ("played 2\nown 2C\nopp go\n", "refused line 10: 23\n"),
    ("played 2\nown 2C\nopp 2D\n", "refused line 10: 20\n"),
    ("played 2\nown 3C\nopp AC\n", "refused line 9: 41\n"),
    ("played 2\nopp AC\nown 2C\n", "refused line 9: 44\n"),
    ("played 33\n", "refused line 8: 6\n"),
];

#[test]
fn check_refuses_turns_that_can_not_have_been_played(rt: HostRuntime) {
    for (played, wanted) in &OPENINGS {
        let version = [(1, "problem 2", *wanted)];
        refuses(&rt, Job::Check, &[TWELVE, played, TWOS], &version);
    }
}

const STRAYING: [Change; 5] = [
    (20, "own 2H", "refused line 20: 46\n"),
    (19, "own 2H", "refused line 19: 44\n"),
    (19, "opp go", "refused line 19: 43\n"),
    (25, "opp go", "refused line 25: 43\n"),
    (15, "hold AC AD AH 2S", "refused line 15: 40\n"),
];

const OTHER_PLANS: [Change; 15] = [
    (8, "plan 2", "refused line 8: 7\n"),
    (9, "nodes 65536", "refused line 9: 32\n"),
    (9, "nodes x", "refused line 9: 6\n"),
    (10, "1 play 2C 1", "refused line 10: 4\n"),
    (10, "0 play 2C x", "refused line 10: 6\n"),
    (10, "0 see A:end", "refused line 10: 30\n"),
    (10, "0 see 5A:1", "refused line 10: 31\n"),
    (10, "0 see 5A:1 x", "refused line 10: 31\n"),
    (10, "0 see A:1 A:2", "refused line 10: 31\n"),
    (10, "0 see A:1 2:1", "refused line 10: 31\n"),
    (10, "0 see 2:1 A:2", "refused line 10: 31\n"),
    (10, "0 see :1", "refused line 10: 31\n"),
    (10, "0 see A:", "refused line 10: 6\n"),
    (13, "3 play 2S 3", "refused line 13: 30\n"),
    (13, "3 play 2X end", "refused line 13: 5\n"),
];

#[test]
fn follow_refuses_cards_that_stray_and_other_plans(rt: HostRuntime) {
    refuses(&rt, Job::Follow, &ONE_GAME, &STRAYING);
    refuses(&rt, Job::Follow, &ONE_GAME, &OTHER_PLANS);
}

// Problems, games that are refused, and the refusals. In `FALSE_GO` the opponent says go at 29 though they hold a two.
// Whoever says go there holds no two. So if the same turns are the opening of a problem, no hidden deal agrees with the
// two that they play later.
const REFUSED: [(&str, &str, &str); 6] = [
    (TENS, PAST_31, "refused line 15: 42\n"),
    (CLOSE, PAIRED_AND_LATE, "refused line 14: 45\n"),
    (BEGUN, NO_ACTS, "refused line 14: 47\n"),
    (CLOSE_AND_LOST, PAIRED, "refused line 10: 24\n"),
    (TENS, FALSE_GO, "refused line 15: 43\n"),
    (TENS_AFTER_A_FALSE_GO, FALSE_GO, "refused line 14: 23\n"),
];

#[test]
fn replay_refuses_games(rt: HostRuntime) {
    for (problem, game, wanted) in &REFUSED {
        writes(&rt, Job::Replay, &[problem, game], wanted, Status::Refused);
    }
}

const OTHER_GAMES: [Change; 17] = [
    (3, "score 120 121", "refused line 3: 21\n"),
    (3, "score 007 0", "refused line 3: 6\n"),
    (7, "goal holes 0", "refused line 7: 22\n"),
    (7, "goal holes 122", "refused line 7: 22\n"),
    (7, "goal stop", "refused line 7: 4\n"),
    (2, "dealer x", "refused line 2: 4\n"),
    (2, "dealer  owner", "refused line 2: 4\n"),
    (6, "throw 4S 2C", "refused line 6: 20\n"),
    (5, "hold TC 9C 2C 1S", "refused line 5: 5\n"),
    (1, "problem 2", "refused line 8: 4\n"),
    (1, "problem 3", "refused line 1: 7\n"),
    (1, "problem 1\r", "refused line 1: 1\n"),
    (9, "hold TD 2D KH QS", "refused line 15: 43\n"),
    (11, "acts 33", "refused line 11: 6\n"),
    (12, "own 1C", "refused line 12: 5\n"),
    (12, "owner TC", "refused line 12: 4\n"),
    (12, "own KC", "refused line 12: 41\n"),
];

const OTHER_TURNS: [Change; 6] = [
    (10, "opp go", "refused line 10: 23\n"),
    (10, "opp 2D", "refused line 10: 20\n"),
    (9, "own 3C", "refused line 9: 41\n"),
    (16, "opp AD", "refused line 16: 47\n"),
    (15, "own 2D", "refused line 15: 47\n"),
    (12, "hold TC AD AH AS", "refused line 16: 41\n"),
];

#[test]
fn replay_refuses_other_lines(rt: HostRuntime) {
    refuses(&rt, Job::Replay, &[TENS, LAST_CARD], &CHANGED_GAMES);
    refuses(&rt, Job::Replay, &[TENS, LAST_CARD], &OTHER_GAMES);
    refuses(&rt, Job::Replay, &[BEGUN, OWNER_LEADS], &OTHER_TURNS);
}

const OTHER_PROBLEMS: [Change; 7] = [
    (1, "problem 3", "refused line 1: 7\n"),
    (3, "score 120 121", "refused line 3: 21\n"),
    (5, "hold 2C 2D 2H 1S", "refused line 5: 5\n"),
    (6, "throw 4C 2S", "refused line 6: 20\n"),
    (7, "goal holes 122", "refused line 7: 22\n"),
    (7, "goal holes 12\nx", "refused line 8: 8\n"),
    (7, "goal holes 12\nplan 1\nnodes 0", "refused line 8: 8\n"),
];

// Problems, and the refusals.
const UNSOLVED: &[(&str, &str)] = &[
    ("", "refused line 1: 3\n"),
    (CLOSE_AND_LOST, "refused line 10: 24\n"),
    (TENS_AFTER_A_FALSE_GO, "refused line 14: 23\n"),
];

#[test]
fn solve_refuses_with_the_line(rt: HostRuntime) {
    refuses(&rt, Job::Solve, &[TWELVE], &OTHER_PROBLEMS);
    for (problem, wanted) in UNSOLVED {
        writes(&rt, Job::Solve, &[problem], wanted, Status::Refused);
    }
}
