//! What a card or a go of the play counts points for.
ghost use Rattle.std.specs.Prelude.{◌≡◌};
ghost use Rattle.crib_game_sheet.specs.GamePlay.{reason_points};
ghost use Rattle.crib_game_sheet.specs.declared.game.reason.PlayReason.TheVariants as reason;

/// Why an act of the play counts points.
#[derive(Clone, Copy, PartialEq, Eq, Debug)]
pub enum PlayReason {
    /// The count is 15.
    Fifteen,
    /// The count is 31.
    ThirtyOne,
    /// The last cards are of one rank: their number, at least 2.
    Alike(u8),
    /// The last cards are a run: their number, at least 3.
    Run(u8),
    /// Neither side can play, below 31.
    Go,
    /// It is the eighth card of the play, and the count is not 31.
    LastCard,
}

impl Default for PlayReason {
    ghost is_default = { λ it. it ≡ reason.Go };

    /// Returns a go. It fills the unused entries of a list.
    fn default() -> Self {
        PlayReason::Go
    }
}

impl PlayReason {
    /// Returns its points: 2 for a count of 15 or 31, 2, 6 or 12 for cards alike, one for each card of a run, and 1 for
    /// a go or the last card.
    pub fn points(self) -> u8
        ensures { result ≡ reason_points self }
    {
        match self {
            PlayReason::Fifteen | PlayReason::ThirtyOne | PlayReason::Alike(2) => 2,
            PlayReason::Alike(0 | 1) => 0,
            PlayReason::Alike(3) => 6,
            PlayReason::Alike(_) => 12,
            PlayReason::Run(cards) => cards,
            PlayReason::Go | PlayReason::LastCard => 1,
        }
    }
}
