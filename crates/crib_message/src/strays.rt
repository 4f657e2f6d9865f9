//! Where a plan is at an act that strays from it.
use crate::branches::branch_with;
use crate::scene::{count_at, problem_len, text_at, word_in};
use crate::sentence::{Sentence, named};
use crib_cards::{Act, Move, Side, read_card};
use crib_plan::LETTERS;
use crib_text::read_number;

/// Appends what the plan of an input states after some acts. Node 0 has the line `first`.
pub(crate) fn add_stray(to: &mut Sentence, input: &[u8], acts: &[Act]) {
    let first = problem_len(input).saturating_add(3);
    let nodes = count_at(input, first.saturating_sub(1));
    let node = node_after(input, first, acts).unwrap_or(nodes);
    if node >= nodes {
        return to.add("the plan is at its end there, and states no card");
    }
    let number = first.saturating_add(node);
    to.add(format_args!("node {node} of the plan (line {number}) "));
    match read_card(word_in(text_at(input, number), 2)) {
        Some(card) => to.add(format_args!("states {}", named(card))),
        None => to.add("is a see node, and states no card"),
    }
}

// Returns the node of the plan after some acts, or `None` at its end. The plan begins after the opening.
fn node_after(input: &[u8], first: u32, acts: &[Act]) -> Option<u32> {
    let mut node = 0;
    for act in acts.iter().skip(first.saturating_sub(11) as usize) {
        let line = text_at(input, first.saturating_add(node));
        let is_play = word_in(line, 1) == b"play".as_slice();
        match (act.side, act.what) {
            (Side::Owner, Move::Card(_)) if is_play => node = read_number(word_in(line, 3))?,
            (Side::Opponent, what) if !is_play => {
                let letter = *LETTERS.get(usize::from(what.letter().index()))?;
                node = read_number(branch_with(line, usize::MAX, letter)?.target().bytes)?;
            }
            _ => {}
        }
    }
    Some(node)
}
