//! The answer of `follow`.
ghost use Rattle.std.specs.Prelude.{◌≡◌, ◌+◌, ◌≤◌, [], ◌∷◌, ◌++◌};
ghost use Rattle.arrayvec.specs.ArrayVec.{array_vec_len};
ghost use Rattle.crib_text.specs.Spelling.{line_text};
ghost use Rattle.crib_game.specs.Words.{ending_word};
ghost use Rattle.crib_answer.specs.Answer.{ending_reply, ending_status};
ghost use Rattle.crib_run.specs.Reply.{reply_of};

use crib_game::Ending;
use crib_run::{Answer, ShortText, Status, Text, add};
use std::alloc::Allocator;

/// Returns the answer to a game with this ending under a plan (docs/FORMATS.md, "follow"): the word of the ending. The
/// status is `Yes` for `reached`, and `No` for every other ending.
#[tactic(auto, unfolding(crib_run::specs::Reply::reply_of, crib_run::specs::Text::text_bytes))]
pub(crate) fn ending_answer<A: Allocator>(ending: Ending) -> Answer<A>
    ensures { reply_of result ≡ ending_reply ending }
{
    let mut text = ShortText::new();
    add_ending(&mut text, ending);
    Answer {
        text: Text::Short(text),
        status: status_of(ending),
    }
}

/// Appends the line with the word of an ending, at most 8 bytes with its LF.
#[tactic(auto, using(crate::proofs::Lines::words))]
pub(crate) fn add_ending(text: &mut ShortText, ending: Ending)
    requires { array_vec_len text.old + 8 ≤ 282 }
    ensures items { text.new.items ≡ text.old.items ++ line_text (ending_word ending ∷ []) }
    ensures len { array_vec_len text.new ≤ array_vec_len text.old + 8 }
{
    add(text, ending.word());
    add(text, b"\n");
}

// The status of an ending: `Yes` if the owner reached the goal, and `No` otherwise.
fn status_of(ending: Ending) -> Status
    ensures { result ≡ ending_status ending }
{
    match ending {
        Ending::Reached => Status::Yes,
        Ending::Open | Ending::Stuck | Ending::Lost | Ending::Short => Status::No,
    }
}
