//! What comes next.
use crate::tests::runs::{Written, refuses, writes, written_of};
use crate::tests::same;
use crib_run::Status;
use crib_sheet::SheetJob;
use example_texts::changes::CHANGED_PLANS;
use example_texts::plans::{ACE, LOOKS, NO_KING, NO_PLAN, ONE_TWO, REST, TWICE, TWOS};
use example_texts::problems::{BEGUN, CLOSE, LAST_MAKES_31, LAST_TWO, TENS, TWELVE};
use std::process::Abort;

const NONE: &str = "turns 0\n";

// What is written for a problem, a plan and so many turns.
fn answer(
    rt: &(impl Abort + AllocGlobal),
    problem: &str,
    plan: &str,
    number: u32,
    turns: &str,
) -> Written {
    let input = format!(in rt.alloc(); "{problem}{plan}turns {number}\n{turns}");
    let input = input.expect(rt, "memory");
    written_of(rt, SheetJob::Next, &[input.as_str()])
}

// Asserts that before each act of a game the answer is this act, and `over` after the last.
fn walks(rt: &(impl Abort + AllocGlobal), problem: &str, plan: &str, acts: &str) {
    let mut played = 0usize;
    let mut number = 0u32;
    for act in acts.split_inclusive('\n') {
        let turns = acts.get(..played).unwrap_or("");
        let written = answer(rt, problem, plan, number, turns);
        same(rt, written.status, Status::Yes);
        same(rt, is_next(written.text(rt), act), true);
        played = played.saturating_add(act.len());
        number = number.saturating_add(1);
    }
    answer(rt, problem, plan, number, acts).is(rt, "over\n", Status::Yes);
}

// Whether an answer says that this act comes next.
fn is_next(answer: &str, act: &str) -> bool {
    match (answer, act.strip_prefix("own ")) {
        ("wait\n", played) => played.is_none(),
        ("say go\n", played) => played == Some("go\n"),
        (answer, played) => played.is_some() && answer.strip_prefix("play ") == played,
    }
}

const TENS_PLAN: &str = "plan 1\nnodes 4\n0 play TC 1\n1 play 9C 2\n2 play 2C 3\n3 play 8C end\n";

const MAKES_31_PLAN: &str =
    "plan 1\nnodes 4\n0 play TC 1\n1 play KC 2\n2 play 4C 3\n3 play 3C end\n";

// The acts of `LAST_CARD`, `MAKES_31`, `OWNER_LEADS` and `PAIRED`.
#[test]
fn says_each_act_of_a_game(rt: HostRuntime) {
    let last_card =
        "own TC\nopp TD\nown 9C\nopp go\nown 2C\nopp KD\nown 8C\nopp KH\nopp go\nopp QS\n";
    walks(&rt, TENS, TENS_PLAN, last_card);
    let makes_31 =
        "own TC\nopp QD\nown KC\nopp go\nown go\nopp 9D\nown 4C\nopp 7D\nown 3C\nopp 8D\n";
    walks(&rt, LAST_MAKES_31, MAKES_31_PLAN, makes_31);
    let aces = "own 2C\nopp AC\nown 2D\nopp AD\nown 2H\nopp AH\nown 2S\nopp AS\n";
    walks(&rt, TWELVE, TWOS, aces);
    walks(&rt, CLOSE, ACE, "own AC\nopp AD\n");
}

// The opening is the problem's, and the plan begins after it.
#[test]
fn begins_after_the_opening(rt: HostRuntime) {
    writes(
        &rt,
        SheetJob::Next,
        &[BEGUN, REST, NONE],
        "play 2D\n",
        Status::Yes,
    );
    walks(
        &rt,
        BEGUN,
        REST,
        "own 2D\nopp AD\nown 2H\nopp AH\nown 2S\nopp AS\n",
    );
}

// The plan looks at the card that they show.
#[test]
fn goes_along_the_branch(rt: HostRuntime) {
    for (turns, wanted) in [
        (NONE, "say go\n"),
        ("turns 2\nown go\nopp 9H\n", "play 9S\n"),
        ("turns 2\nown go\nopp 8H\n", "play 7S\n"),
        ("turns 2\nown go\nopp KH\n", "play 7S\n"),
    ] {
        writes(
            &rt,
            SheetJob::Next,
            &[LAST_TWO, LOOKS, turns],
            wanted,
            Status::Yes,
        );
    }
}

// Each reason why a plan has no card.
#[test]
fn says_why_the_plan_has_no_card(rt: HostRuntime) {
    let two = "turns 2\nown 2C\nopp KH\n";
    for (plan, turns, wanted) in [
        (NO_PLAN, NONE, "stuck\nThe plan has no node.\n"),
        (ONE_TWO, two, "stuck\nThe plan ends at node 0.\n"),
        (
            TWICE,
            two,
            "stuck\nNode 1 states 2C, which you don't hold.\n",
        ),
        (
            NO_KING,
            two,
            "stuck\nThey show K, and node 1 has no line for it.\n",
        ),
    ] {
        writes(
            &rt,
            SheetJob::Next,
            &[TWELVE, plan, turns],
            wanted,
            Status::No,
        );
    }
    let high = "plan 1\nnodes 3\n0 play TC 1\n1 play 9C 2\n2 play 8C end\n";
    let turns = "turns 4\nown TC\nopp TD\nown 9C\nopp go\n";
    let wanted = "stuck\nNode 2 states 8C, which doesn't fit.\n";
    writes(
        &rt,
        SheetJob::Next,
        &[TENS, high, turns],
        wanted,
        Status::No,
    );
}

// The refusals of the section of the turns, which begins at line 14.
#[test]
fn refuses_wrong_lines(rt: HostRuntime) {
    for (turns, wanted) in [
        ("", "refused line 14: 3\n"),
        ("game 1\n", "refused line 14: 4\n"),
        ("turns\n", "refused line 14: 4\n"),
        ("turns x\n", "refused line 14: 6\n"),
        ("turns 33\n", "refused line 14: 6\n"),
        ("turns 2\nown 2C\n", "refused line 16: 3\n"),
        ("turns 1\nown 2C\nopp AC\n", "refused line 16: 8\n"),
        ("turns 1\nme 2C\n", "refused line 15: 4\n"),
        ("turns 1\nown 2X\n", "refused line 15: 5\n"),
        ("turns 2\nown 2D\nopp 2X\n", "refused line 16: 5\n"),
    ] {
        writes(
            &rt,
            SheetJob::Next,
            &[TWELVE, TWOS, turns],
            wanted,
            Status::Refused,
        );
    }
    for change in CHANGED_PLANS.iter().take(7) {
        refuses(&rt, SheetJob::Next, &[TWELVE, TWOS, NONE], *change);
    }
}

// Wrong turns of `TWELVE` and `TWOS`.
const WRONG_TWOS: [(&str, &str); 9] = [
    ("turns 2\nown 2C\nopp 2C\n", "refused line 16: 20\n"),
    ("turns 2\nown 2C\nopp go\n", "refused line 16: 23\n"),
    ("turns 1\nown 9C\n", "refused line 15: 41\n"),
    ("turns 3\nown 2C\nopp AC\nown 2C\n", "refused line 17: 41\n"),
    ("turns 1\nown go\n", "refused line 15: 43\n"),
    ("turns 1\nopp AC\n", "refused line 15: 44\n"),
    ("turns 2\nown 2C\nown 2D\n", "refused line 16: 44\n"),
    ("turns 1\nown 2D\n", "refused line 15: 46\n"),
    ("turns 2\nown 2D\nown 9C\n", "refused line 15: 46\n"),
];

// Wrong turns of `TENS` and `TENS_PLAN`.
const WRONG_TENS: [(&str, &str); 3] = [
    (
        "turns 4\nown TC\nopp TD\nown 9C\nopp KD\n",
        "refused line 18: 42\n",
    ),
    (
        "turns 6\nown TC\nopp TD\nown 9C\nopp go\nown 2C\nown 8C\n",
        "refused line 20: 44\n",
    ),
    (
        "turns 7\nown TC\nopp TD\nown 9C\nopp go\nown 2C\nopp 2D\n",
        "refused line 21: 3\n",
    ),
];

// Turns are refused as in an opening, but one may end the deal.
#[test]
fn refuses_wrong_turns(rt: HostRuntime) {
    for (turns, wanted) in WRONG_TWOS {
        writes(
            &rt,
            SheetJob::Next,
            &[TWELVE, TWOS, turns],
            wanted,
            Status::Refused,
        );
    }
    for (turns, wanted) in WRONG_TENS {
        writes(
            &rt,
            SheetJob::Next,
            &[TENS, TENS_PLAN, turns],
            wanted,
            Status::Refused,
        );
    }
    let low = "turns 6\nown TC\nopp TD\nown 9C\nopp go\nown 2C\nopp 2D\n";
    writes(
        &rt,
        SheetJob::Next,
        &[TENS, TENS_PLAN, low],
        "refused line 20: 23\n",
        Status::Refused,
    );
    let late = "turns 3\nown AC\nopp AD\nown 2C\n";
    writes(
        &rt,
        SheetJob::Next,
        &[CLOSE, ACE, late],
        "refused line 14: 45\n",
        Status::Refused,
    );
}
