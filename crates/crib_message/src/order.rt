//! The order of lines and sections, and how many lines are announced.
use crate::cards::is_like_card;
use crate::grammar::Row;
use crate::scene::{Scene, Section, count_at, is_line_feed, text_at, word_in};
use crate::sentence::{Hint, tell};
use crate::spelling::{is_either, is_word};
use crib_input::Sections;

pub(crate) const COMMENT: &str = "Comments are not allowed.";

pub(crate) const TABLES: &str = "The command cribplan-many --rows reads tables.";

pub(crate) const NEEDS_PLAYED: &str =
    "In a problem 2 the line played follows the goal; at the first lead it is played 0.";

/// Whether a line looks like an act or a turn.
pub(crate) fn is_act(line: &[u8]) -> bool {
    is_word(word_in(line, 0), b"own") || is_word(word_in(line, 0), b"opp")
}

/// Whether a line looks like a node of a plan.
pub(crate) fn is_node(line: &[u8]) -> bool {
    is_word(word_in(line, 1), b"play") || is_word(word_in(line, 1), b"see")
}

/// Whether a word begins a comment of some language.
pub(crate) fn is_comment(word: &[u8]) -> bool {
    matches!(
        word,
        [b'#' | b';' | b'%' | b'*', ..] | [b'/', b'/' | b'*', ..] | [b'-', b'-', ..]
    )
}

/// Returns the hint of a wrong count above the refused line: the lines that are announced there are more or fewer than
/// there are.
pub(crate) fn count_hint(scene: &Scene<'_>) -> Hint {
    let lines = scene.input.split(is_line_feed).zip(1..scene.number);
    let (announcing, number) = lines.filter(|(line, _)| announces(line)).last()?;
    let row = Row::of_keyword(word_in(announcing, 0))?;
    let count = count_at(scene.input, number) as usize;
    let found = items_behind(scene.input, number, row);
    let keyword = row.keyword();
    let hint = tell(format_args!(
        "Line {number} says {keyword} {count}, but the number of lines for it is {found}."
    ));
    hint.filter(|_| count != found)
}

// Whether a line says how many lines of one kind follow.
fn announces(line: &[u8]) -> bool {
    let row = Row::of_keyword(word_in(line, 0));
    matches!(row, Some(Row::Played | Row::Nodes | Row::Acts | Row::Turns))
}

/// Returns how to write a line that says how many lines follow.
pub(crate) fn announcing_hint(scene: &Scene<'_>) -> Hint {
    let keyword = scene.row.keyword();
    let found = items_behind(scene.input, scene.number, scene.row);
    tell(format_args!("Write {keyword} {found}."))
}

// Returns how many lines that a row announces follow each other behind a line.
fn items_behind(input: &[u8], number: u32, row: Row) -> usize {
    let lines = input.split(is_line_feed).skip(number as usize);
    match row {
        Row::Nodes => lines.take_while(|line| is_node(line)).count(),
        _ => lines.take_while(|line| is_act(line)).count(),
    }
}

/// Whether a line has a keyword, or looks like an act or a node.
pub(crate) fn is_known(scene: &Scene<'_>) -> bool {
    let line = scene.text();
    Row::of_keyword(scene.word(0)).is_some() || is_act(line) || is_node(line)
}

/// Returns the hint for a line that is another one than was expected.
pub(crate) fn order_hint(scene: &Scene<'_>) -> Hint {
    let line = scene.text();
    let row = Row::of_keyword(scene.word(0));
    match (scene.row, row) {
        _ if is_comment(line) => tell(COMMENT),
        (Row::Act | Row::Node, row) => row.and(count_hint(scene)),
        _ if scene.spot.number == 1 => header_hint(scene, row),
        (Row::Played, _) if !is_act(line) => tell(NEEDS_PLAYED),
        _ if is_known(scene) => missing_or_moved(scene),
        _ => None,
    }
}

// A line in place of the first line of a section, or behind the last section.
fn header_hint(scene: &Scene<'_>, row: Option<Row>) -> Hint {
    let is_opening = row == Some(Row::Played) || is_act(scene.text());
    let is_none = scene.word(0) == b"none".as_slice() && scene.row != Row::End;
    let text = match (scene.row, row) {
        _ if is_none => "Where no plan is sure, solve writes none, and there is no plan to read.",
        (Row::Problem, None) if scene.word(0).iter().any(|byte| b",;".contains(byte)) => TABLES,
        (Row::Problem, None | Some(Row::Plan | Row::Game | Row::Turns)) =>
            "The problem comes first.",
        (Row::Problem, _) | (Row::Plan, Some(Row::Nodes)) => return order_of(scene.spot.section),
        (Row::Game, Some(Row::Hold | Row::Throw | Row::Acts)) => return order_of(Section::Game),
        (_, Some(Row::Problem)) => "An input has one problem.",
        (_, Some(Row::Plan | Row::Game | Row::Turns)) => return sections_hint(scene.sections),
        (Row::Turns, _) if is_opening || row == Some(Row::Acts) =>
            "Turns begin with the line turns N; without any it is turns 0.",
        _ if is_opening && !scene.is_second() =>
            "Turns that were played already need problem 2 on line 1.",
        (Row::End, None) if !is_like_card(scene.word(1)) && !is_like_card(scene.word(2)) =>
            "Leave this line out.",
        _ => return count_hint(scene).or(sections_hint(scene.sections)),
    };
    count_hint(scene).or(tell(text))
}

/// Returns what the command reads.
pub(crate) fn sections_hint(sections: Sections) -> Hint {
    tell(match sections {
        Sections::Problem => "This command reads a problem and nothing else.",
        Sections::Question => "This command reads a problem and then a plan.",
        Sections::Played => "This command reads a problem and then a game.",
        Sections::PlayedUnder => "This command reads a problem, then a plan and then a game.",
        Sections::Turns => "This command reads a problem, then a plan and then turns.",
    })
}

// Returns that the expected line is missing, or in which order the lines of the section are if it is later.
fn missing_or_moved(scene: &Scene<'_>) -> Hint {
    let keyword = scene.row.keyword();
    let above = scene.number.saturating_sub(1);
    let before = word_in(text_at(scene.input, above), 0);
    let found = items_behind(scene.input, above, scene.row);
    match is_below(scene) {
        _ if before == scene.word(0) => tell("This line stands twice: leave one out."),
        true => order_of(scene.spot.section),
        false if found > 0 && announces(keyword.as_bytes()) => tell(format_args!(
            "The line {keyword} {found} is missing."
        )),
        false => tell(format_args!("The line {keyword} is missing.")),
    }
}

/// Whether the expected line is below, with no plan or game before it.
pub(crate) fn is_below(scene: &Scene<'_>) -> bool {
    let keyword = scene.row.keyword().as_bytes();
    let lines = scene.input.split(is_line_feed).skip(scene.number as usize);
    let mut words = lines.map(|line| word_in(line, 0));
    words.find(|word| *word == keyword || is_either(word, b"plan", b"game")) == Some(keyword)
}

fn order_of(section: Section) -> Hint {
    tell(match section {
        Section::Plan => "A plan begins with the lines plan 1 and nodes N.",
        Section::Game =>
            "A game begins with the lines game 1, hold, throw and acts, in this order.",
        _ =>
            "The order is problem, dealer, score, starter, hold, throw, goal and, in a problem 2, played.",
    })
}
