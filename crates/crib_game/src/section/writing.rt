//! Writing a game section.
ghost use Rattle.std.specs.Prelude.{◌≡◌, ◌≤◌, length, IfOk, IfErr};
ghost use Rattle.crib_text.specs.Refusals.{no_memory, text_refusal};
ghost use Rattle.crib_game.specs.Spelling.{game_text};

use super::game::Game;
use crib_problem::{append_acts, append_cards};
use crib_text::{TextCause, TextFault, append};
use std::alloc::Allocator;

// The most bytes of a game's text: four lines of 7, 17, 12 and at most 8 bytes, and 32 acts of at most 7 bytes each.
const LONGEST: usize = 268;

/// Returns the text of a game section (docs/FORMATS.md, "A game"), at most 268 bytes. The cards keep the order of
/// `game`. It fails only if its allocation fails (number 11, line 0). It allocates once, before it writes the first
/// byte.
pub fn write_game<A: Allocator + Copy>(alloc: A, game: &Game) -> Result<Vec<u8, A>, TextFault>
    ensures text { IfOk result (λ text. text.items ≡ game_text game.now) }
    ensures short { IfOk result (λ text. length text.items ≤ 268) }
    ensures err { IfErr result (λ fault. text_refusal fault ≡ record { line = 0; number = no_memory }) }
{
    let Ok(mut text) = Vec::with_capacity(alloc, LONGEST) else {
        return Err(TextFault::of_input(TextCause::NoMemory));
    };
    append(&mut text, b"game 1\n");
    append_cards(&mut text, b"hold", &game.opp.hold);
    append_cards(&mut text, b"throw", &game.opp.throw);
    append_acts(&mut text, b"acts", game.acts.as_slice());
    Ok(text)
}
