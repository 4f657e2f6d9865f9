//! The section of the turns since a problem, read from its lines.
ghost use Rattle.std.specs.Prelude.{◌≡◌, ◌≤◌, ◌++◌, ℕ, List, map, Ok, IfOk, OnErr};
ghost use Rattle.crib_cards.specs.declared.moves.Act.{Act};
ghost use Rattle.crib_text.specs.Lines.{rest_of};
ghost use Rattle.crib_text.specs.Reading.{Reads, value_at};
ghost use Rattle.crib_text.specs.Forms.{values_at};
ghost use Rattle.crib_text.specs.Private.Reading.{Takes};
ghost use Rattle.crib_text.specs.Refusals.{text_refusal};
ghost use Rattle.crib_text.specs.Spelling.{line_bytes};
ghost use Rattle.crib_problem.specs.Reading.{most_acts, act_in};
ghost use Rattle.crib_next.specs.Section.{AreTurns, turns_at, turns_lines};

use arrayvec::ArrayVec;
use crib_cards::Act;
use crib_problem::{act_of, acts_count_of};
use crib_text::{Lines, TextFault, fault_in, in_line};

/// Turns in the order of play, at most 32.
pub type Turns = ArrayVec<Act, 32>;

/// Reads the turns since a problem (docs/FORMATS.md, "What comes next"): their number after `turns`, and one line for
/// each. If they are read, the lines that are left are those after them.
///
/// A refusal names the first line that is wrong, and leaves the lines as they were. Its number is 3 for a missing line,
/// 4 for a wrong keyword or a wrong number of words, 5 for a word that is not a card, and 6 for a word that is not a
/// number or for more than 32 turns.
pub fn read_turns(lines: &mut Lines<'_>) -> Result<Turns, TextFault>
    // If turns are read, the lines are their spelling, and then those that are left.
    ensures found { IfOk result (λ turns. AreTurns turns.items
        × ((rest_of lines.old).lines ≡ map line_bytes (turns_lines turns.items) ++ (rest_of lines.new).lines)) }
    // If the lines begin with the spelling of turns, these turns are read.
    ensures only { (turns : List Act) (rest : List (List ℕ)) → AreTurns turns
        → (rest_of lines.old).lines ≡ map line_bytes (turns_lines turns) ++ rest
        → result ≡ Ok (record { items = turns }) }
    // Which turns are read, and which refusal is returned.
    ensures exact { Reads (λ turns. turns.items) text_refusal turns_at (rest_of lines.old) (rest_of lines.new) result }
    ensures err { OnErr result (lines.new ≡ lines.old) }
{
    let mut ahead = *lines;
    let turns = turns_of(&mut ahead)?;
    *lines = ahead;
    Ok(turns)
}

fn read_turn(lines: &mut Lines<'_>) -> Result<Act, TextFault>
    ensures { Takes (λ act. act) text_refusal (value_at act_in (rest_of lines.old)) (rest_of lines.new) result }
{
    let line = lines.next_line()?;
    match act_of(&line) {
        Ok(act) => Ok(act),
        Err(cause) => Err(fault_in(&line, cause)),
    }
}

// Reads `count` turns, one from each line.
fn read_each(lines: &mut Lines<'_>, count: u32) -> Result<Turns, TextFault>
    requires { count ≤ most_acts }
    ensures { Takes (λ turns. turns.items) text_refusal
        (values_at (λ number. act_in) 0 count (rest_of lines.old)) (rest_of lines.new) result }
{
    let mut turns = ArrayVec::new();
    for _ in 0..count {
        turns.push(read_turn(lines)?);
    }
    Ok(turns)
}

// Reads the number of turns, and the turns.
#[tactic(auto, unfolding(crate::specs::Section::turns_at, crib_text::specs::Reading::value_at))]
fn turns_of(lines: &mut Lines<'_>) -> Result<Turns, TextFault>
    ensures { Takes (λ turns. turns.items) text_refusal (turns_at (rest_of lines.old)) (rest_of lines.new) result }
{
    let line = lines.next_line()?;
    let count = in_line(&line, acts_count_of(&line, b"turns"))?;
    let turns = read_each(lines, count)?;
    Ok(turns)
}
