//! Reading a game section.
ghost use Rattle.std.specs.Prelude.{◌≡◌, ◌≤◌, ◌++◌, ℕ, List, map, Ok, Err, MatchResult, IfOk, OnErr};
ghost use Rattle.crib_text.specs.Lines.{rest_of};
ghost use Rattle.crib_text.specs.Reading.{Reads, value_at};
ghost use Rattle.crib_text.specs.Forms.{values_at};
ghost use Rattle.crib_text.specs.Private.Reading.{Takes};
ghost use Rattle.crib_text.specs.Refusals.{text_refusal};
ghost use Rattle.crib_text.specs.Spelling.{line_bytes};
ghost use Rattle.crib_game.specs.Spelling.{IsGame, game_lines};
ghost use Rattle.crib_problem.specs.Reading.{most_acts, act_in};
ghost use Rattle.crib_game.specs.Reading.{game_at};
ghost use Rattle.crib_game.specs.Private.Reading.{acts_at};

use super::game::Game;
use super::words_of_lines::read_cards;
use arrayvec::ArrayVec;
use crib_cards::{Act, Card, Dealt};
use crib_problem::{act_of, acts_count_of};
use crib_text::{Lines, TextFault, fault_in, in_line, read_header};

/// Reads a game section (docs/FORMATS.md, "A game"): `game 1`, the opponent's four cards after `hold` and two after
/// `throw`, the number of acts after `acts`, and one line for each act. If a game is read, the lines that are left are
/// those after the section.
///
/// A refusal names the first line that is wrong, and leaves the lines as they were. Its number is 3 for a missing line,
/// 4 for a wrong keyword or a wrong number of words, 5 for a word that is not a card, 6 for a word that is not a number
/// or for more than 32 acts, and 7 for a version other than 1.
pub fn read_game(lines: &mut Lines<'_>) -> Result<Game, TextFault>
    // If a game is read, the lines are its spelling, and then those that are left.
    ensures found { IfOk result (λ game. IsGame game
        × ((rest_of lines.old).lines ≡ map line_bytes (game_lines game) ++ (rest_of lines.new).lines)) }
    // If the lines begin with the spelling of a game, this game is read.
    ensures only { (game : Game) (rest : List (List ℕ)) → IsGame game
        → (rest_of lines.old).lines ≡ map line_bytes (game_lines game) ++ rest → result ≡ Ok game }
    // Which game is read, and which refusal is returned.
    ensures exact { Reads (λ game. game) text_refusal game_at (rest_of lines.old) (rest_of lines.new) result }
    ensures err { OnErr result (lines.new ≡ lines.old) }
{
    let mut ahead = *lines;
    let game = game_of(&mut ahead)?;
    *lines = ahead;
    Ok(game)
}

fn read_act(lines: &mut Lines<'_>) -> Result<Act, TextFault>
    ensures { Takes (λ act. act) text_refusal (value_at act_in (rest_of lines.old)) (rest_of lines.new) result }
{
    let line = lines.next_line()?;
    match act_of(&line) {
        Ok(act) => Ok(act),
        Err(cause) => Err(fault_in(&line, cause)),
    }
}

// Reads `count` acts, one from each line.
fn read_acts(lines: &mut Lines<'_>, count: u32) -> Result<ArrayVec<Act, 32>, TextFault>
    requires { count ≤ most_acts }
    ensures { Takes (λ acts. acts.items) text_refusal
        (values_at (λ number. act_in) 0 count (rest_of lines.old)) (rest_of lines.new) result }
{
    let mut acts = ArrayVec::new();
    for _ in 0..count {
        acts.push(read_act(lines)?);
    }
    Ok(acts)
}

// Reads the lines before the acts: the header, and the opponent's hold and throw.
#[tactic(auto, unfolding(crate::specs::Reading::game_at, crib_text::specs::Reading::value_at, crate::specs::Private::Reading::acts_at))]
fn read_dealt(lines: &mut Lines<'_>) -> Result<Dealt, TextFault>
    ensures { MatchResult result
        (λ dealt. game_at (rest_of lines.old) ≡ acts_at dealt (rest_of lines.new))
        (λ fault. game_at (rest_of lines.old) ≡ Err (text_refusal fault)) }
{
    let line = lines.next_line()?;
    in_line(&line, read_header(&line, b"game"))?;
    let mut hold = [Card::default(); 4];
    let line = lines.next_line()?;
    in_line(&line, read_cards(&line, b"hold", &mut hold))?;
    let mut throw = [Card::default(); 2];
    let line = lines.next_line()?;
    in_line(&line, read_cards(&line, b"throw", &mut throw))?;
    Ok(Dealt { hold, throw })
}

// Reads the opponent's cards, the number of acts, and the acts.
#[tactic(auto, unfolding(crate::specs::Private::Reading::acts_at, crib_text::specs::Reading::value_at))]
fn game_of(lines: &mut Lines<'_>) -> Result<Game, TextFault>
    ensures { Takes (λ game. game) text_refusal (game_at (rest_of lines.old)) (rest_of lines.new) result }
{
    let opp = read_dealt(lines)?;
    let line = lines.next_line()?;
    let count = in_line(&line, acts_count_of(&line, b"acts"))?;
    let acts = read_acts(lines, count)?;
    Ok(Game { opp, acts })
}
