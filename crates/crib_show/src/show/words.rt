//! The words of outcomes, and of what is counted in a show.
ghost use Rattle.std.specs.Prelude.{◌≡◌, ◌≤◌, length};
ghost use Rattle.crib_show.specs.Words.{outcome_word, show_word};

use crate::show::outcomes::{Outcome, ShowRow};

impl Outcome {
    /// Returns the word of the outcome of a deal: `reached`, `lost` or `short`. It is `open` if the deal is not done.
    pub fn word_of(over: Option<Outcome>) -> &'static [u8]
        ensures word { result.now ≡ outcome_word over }
        ensures short { length result.now ≤ 7 }
    {
        match over {
            None => b"open",
            Some(Outcome::Reached) => b"reached",
            Some(Outcome::Lost) => b"lost",
            Some(Outcome::Short) => b"short",
        }
    }
}

impl ShowRow {
    /// Returns the word for what is counted: `crib` or `hand`.
    pub fn word(&self) -> &'static [u8]
        ensures word { result.now ≡ show_word self.now.crib }
        ensures len { length result.now ≡ 4 }
    {
        if self.crib { b"crib" } else { b"hand" }
    }
}
