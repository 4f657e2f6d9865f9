//! Games.

// A game in which the opponent holds four aces. The macro takes their throw, and the lines of the acts.
macro_rules! aces {
    ($throw:literal, $acts:literal) => {
        concat!("game 1\nhold AC AD AH AS\nthrow ", $throw, "\nacts ", $acts)
    };
}

// The whole game of the aces and the twos, in which the owner leads. The macro takes the opponent's throw.
macro_rules! owner_leads {
    ($throw:literal) => {
        aces!($throw, "8\nown 2C\nopp AC\nown 2D\nopp AD\nown 2H\nopp AH\nown 2S\nopp AS\n")
    };
}

// The whole game of the aces and the twos, in which the opponent leads. The macro takes their throw.
macro_rules! opponent_leads {
    ($throw:literal) => {
        aces!($throw, "8\nopp AC\nown 2C\nopp AD\nown 2D\nopp AH\nown 2H\nopp AS\nown 2S\n")
    };
}

// A game for `CLOSE`. The macro takes the lines of the acts.
macro_rules! close {
    ($acts:literal) => {
        concat!("game 1\nhold AD AH AS 2S\nthrow 3C 3D\nacts ", $acts)
    };
}

// A game for `TENS`. The macro takes the opponent's hold, and the lines of the acts.
macro_rules! tens {
    ($hold:literal, $acts:literal) => {
        concat!("game 1\nhold ", $hold, "\nthrow 5H 7D\nacts ", $acts)
    };
}

/// The owner leads. All twos and aces are played.
pub const OWNER_LEADS: &str = owner_leads!("3C 3D");

/// `OWNER_LEADS`, with a throw that makes the opponent's crib of sixteen.
pub const OWNER_LEADS_TO_SIXTEEN: &str = owner_leads!("5C 5D");

/// The opponent leads. All twos and aces are played.
pub const OPPONENT_LEADS: &str = opponent_leads!("3C 3D");

/// `OPPONENT_LEADS`, with the first throw that leaves the owner's crib without a point.
pub const OPPONENT_LEADS_TO_NOTHING: &str = opponent_leads!("3C 7C");

/// `OWNER_LEADS`, with the opponent's ace of diamonds before that of clubs.
pub const DIAMOND_FIRST: &str = aces!(
    "3C 3D",
    "8\nown 2C\nopp AD\nown 2D\nopp AC\nown 2H\nopp AH\nown 2S\nopp AS\n"
);

/// `OWNER_LEADS`, with the third two before the second. `TWOS` states the second.
pub const STRAYS: &str = aces!(
    "3C 3D",
    "8\nown 2C\nopp AC\nown 2H\nopp AD\nown 2D\nopp AH\nown 2S\nopp AS\n"
);

/// The opponent holds aces, and nothing is played.
pub const NO_ACTS: &str = aces!("3C 3D", "0\n");

/// The owner has led a two.
pub const ONE_PLAYED: &str = aces!("3C 3D", "1\nown 2C\n");

/// The opponent has led an ace.
pub const ONE_ACE: &str = aces!("3C 3D", "1\nopp AC\n");

/// The owner has led a two, and the opponent has answered with an ace.
pub const TWO_AND_ACE: &str = aces!("3C 3D", "2\nown 2C\nopp AC\n");

/// `TWO_AND_ACE`, with the ace of diamonds.
pub const TWO_AND_DIAMOND: &str = aces!("3C 3D", "2\nown 2C\nopp AD\n");

/// The owner leads a nine that they do not hold.
pub const NOT_HELD: &str = aces!("3C 3D", "1\nown 9C\n");

/// The owner plays their first two again.
pub const PLAYED_TWICE: &str = aces!("3C 3D", "3\nown 2C\nopp AC\nown 2C\n");

/// The owner plays twice in a row.
pub const OUT_OF_TURN: &str = aces!("3C 3D", "2\nown 2C\nown 2H\n");

/// The opponent pairs an ace, and pegs the two holes that they need to reach 121.
pub const PAIRED: &str = close!("2\nown AC\nopp AD\n");

/// `PAIRED`, with a third act, which is too late.
pub const PAIRED_AND_LATE: &str = close!("3\nown AC\nopp AD\nown 2C\n");

/// The opponent answers the first two with a king.
pub const KING: &str = "game 1\nhold AC AD AH KC\nthrow AS 3C\nacts 2\nown 2C\nopp KC\n";

/// `KING`, before the answer.
pub const BEFORE_THE_KING: &str = "game 1\nhold AC AD AH KC\nthrow AS 3C\nacts 1\nown 2C\n";

/// The opponent says go at 22, so they hold only tens.
pub const GO_AT_22: &str =
    "game 1\nhold 6C TC TD TH\nthrow AC AD\nacts 6\nown 2C\nopp 6C\nown 2D\nopp TC\nown 2H\nopp go\n";

/// A game of `TENS`. The opponent says go at 29, the owner makes 31, two gos close the count at 28, and the opponent
/// plays the last card.
pub const LAST_CARD: &str = tens!(
    "TD KD KH QS",
    "10\nown TC\nopp TD\nown 9C\nopp go\nown 2C\nopp KD\nown 8C\nopp KH\nopp go\nopp QS\n"
);

/// The answer of `replay` to `TENS` and `LAST_CARD`.
pub const LAST_CARD_ANSWER: &str =
    "play 2 4\nhand owner 9 11 4\nhand opponent 2 11 6\ncrib opponent 9 11 15\nshort\n";

/// A game of `TENS` without acts.
pub const NO_TEN_PLAYED: &str = tens!("TD KD KH QS", "0\n");

/// A game of `TENS` in which the opponent leads in place of the owner.
pub const TAKES_THE_LEAD: &str = tens!("TD KD KH QS", "1\nopp TD\n");

/// A game of `TENS` in which the owner leads a king that they do not hold.
pub const LEADS_A_KING: &str = tens!("TD KD KH QS", "1\nown KC\n");

/// A game of `TENS` in which the opponent's king makes 39.
pub const PAST_31: &str = tens!("TD KD KH QS", "4\nown TC\nopp TD\nown 9C\nopp KD\n");

/// A game of `TENS` in which the opponent says go at 29, but their two fits.
pub const FALSE_GO: &str = tens!(
    "TD 2D KH QS",
    "6\nown TC\nopp TD\nown 9C\nopp go\nown 2C\nopp 2D\n"
);

/// A game of `LAST_MAKES_31` that is played to the end.
pub const MAKES_31: &str = "game 1\nhold QD 9D 7D 8D\nthrow AH JD\nacts 10\n\
    own TC\nopp QD\nown KC\nopp go\nown go\nopp 9D\nown 4C\nopp 7D\nown 3C\nopp 8D\n";

/// A game of `LAST_TWO`. The opponent leads a nine, the owner plays the seven, and the opponent's eight makes a run of
/// three. The owner's nine does not fit, and the last card gives the opponent their fourth hole.
pub const RUN_LOST: &str = "game 1\nhold 8D 9C KD KS\nthrow AC AD\nacts 10\n\
    opp KD\nown 3D\nopp KS\nown 6H\nopp go\nown go\nopp 9C\nown 7S\nopp 8D\nown go\n";
