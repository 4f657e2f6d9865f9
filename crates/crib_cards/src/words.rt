//! The words of the two sides.
ghost use Rattle.std.specs.Prelude.{◌≡◌, ◌≤◌, length};
ghost use Rattle.crib_cards.specs.Words.{side_word};

use crate::sides::Side;

impl Side {
    /// Returns the word of the side: `owner` or `opponent`.
    pub fn word(self) -> &'static [u8]
        ensures word { result.now ≡ side_word self }
        ensures short { length result.now ≤ 8 }
    {
        match self {
            Side::Owner => b"owner",
            Side::Opponent => b"opponent",
        }
    }
}
