//! The lines of a sheet.
ghost use Rattle.std.specs.Prelude.{◌≡◌, ◌+◌, ◌≤◌, ◌++◌, length};

use arrayvec::ArrayVec;
use crib_cards::Scores;

/// Bytes of a line.
pub type Text = ArrayVec<u8, 512>;

/// A line: the play of one or more games as far as it reads the same, and the columns beside it.
#[derive(Debug, Drop)]
pub struct WhyLine {
    /// The names of turns, after the blanks of its level.
    pub play: Text,
    /// What is beside it, if the line is a row and its games are not refused.
    pub columns: Option<Columns>,
}

/// What is beside the play of a row.
#[derive(Debug, Drop)]
pub struct Columns {
    /// What the opponent held, each card after a space.
    pub held: Text,
    /// The scores at the end.
    pub spread: Spread,
}

/// The least and the most scores of some games.
#[derive(Clone, Copy, Debug, PartialEq, Eq)]
pub struct Spread {
    /// The least score of each side.
    pub least: Scores,
    /// The greatest score of each side.
    pub most: Scores,
}

// Appends bytes that fit.
pub(crate) fn append(text: &mut Text, bytes: &[u8])
    requires { length text.old.items + length bytes.now ≤ 512 }
    ensures items { text.new.items ≡ text.old.items ++ bytes.now }
    ensures len { length text.new.items ≡ length text.old.items + length bytes.now }
{
    text.try_extend_from_slice(bytes).unwrap();
}

// Returns a text with these bytes.
pub(crate) fn text_of(bytes: &[u8]) -> Text
    requires { length bytes.now ≤ 512 }
    ensures { result.items ≡ bytes.now }
{
    let mut text = Text::new();
    append(&mut text, bytes);
    text
}
