//! The answer of `check`.
ghost use Rattle.std.specs.Prelude.{◌≡◌, ◌≢◌, ◌⊎◌, ◌≤◌, IfErr, None, length};
ghost use Rattle.crib_text.specs.Refusals.{no_memory};
ghost use Rattle.crib_game.specs.Spelling.{game_text};
ghost use Rattle.crib_answer.specs.Answer.{verdict_reply};
ghost use Rattle.crib_input.specs.Refusals.{FitsFault};
ghost use Rattle.crib_run.specs.Reply.{IsOutcome, fault_reply, reply_of};

use crate::ending::add_ending;
use crib_check::Verdict;
use crib_game::{Ending, Game, write_game};
use crib_input::{FaultCause, Reason};
use crib_run::{Answer, ShortText, Status, Text, add, line_answer};
use std::alloc::Allocator;

/// Returns the answer to a verdict (docs/FORMATS.md, "check"): `holds` with the status `Yes`, or `fails`, the ending
/// and the first failing game with the status `No`. Only the text of the game is allocated. If that fails, so does the
/// answer.
#[tactic(auto, using(crate::proofs::Lines::verdicts))]
pub(crate) fn verdict_answer<A: Allocator + Copy>(
    alloc: A,
    verdict: &Verdict,
) -> Result<Answer<A>, Reason>
    ensures outcome { IsOutcome reply_of (λ reply. (reply ≡ verdict_reply verdict.now)
        ⊎ ((verdict.now ≢ Verdict.Holds) × (reply ≡ fault_reply no_memory))) result }
    ensures told { IfErr result (FitsFault None) }
{
    match verdict {
        Verdict::Holds => Ok(line_answer(b"holds\n", Status::Yes)),
        Verdict::Fails(ending, game) => match write_game(alloc, game) {
            Ok(section) => Ok(failure_answer(*ending, game, section.as_slice())),
            Err(_) => Err(Reason::Fault(FaultCause::NoMemory)),
        },
    }
}

// The answer to a plan that fails: `fails` with the ending, and then the section of the game.
#[tactic(auto, using(crate::proofs::Lines::verdicts), unfolding(crib_run::specs::Reply::reply_of, crib_run::specs::Text::text_bytes))]
fn failure_answer<A: Allocator>(ending: Ending, game: &Game, section: &[u8]) -> Answer<A>
    requires spelled { section.now ≡ game_text game.now }
    requires short { length section.now ≤ 268 }
    ensures { reply_of result ≡ verdict_reply (Verdict.Fails ending game.now) }
{
    let mut text = ShortText::new();
    add(&mut text, b"fails ");
    add_ending(&mut text, ending);
    add(&mut text, section);
    Answer {
        text: Text::Short(text),
        status: Status::No,
    }
}
