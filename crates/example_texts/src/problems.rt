//! Problems.

// A problem with four twos. The macro takes the dealer, the scores, the goal and, in version 2, the lines of the
// opening.
macro_rules! twos {
    ($dealer:literal, $score:literal, $goal:literal) => {
        twos!("1", $dealer, $score, $goal, "")
    };
    ($dealer:literal, $score:literal, $goal:literal, $opening:literal) => {
        twos!("2", $dealer, $score, $goal, $opening)
    };
    ($version:literal, $dealer:literal, $score:literal, $goal:literal, $opening:literal) => {
        concat!(
            "problem ", $version, "\ndealer ", $dealer, "\nscore ", $score,
            "\nstarter KD\nhold 2C 2D 2H 2S\nthrow 4C 6D\ngoal ", $goal, "\n", $opening
        )
    };
}

// A problem in which the opponent is two holes from 121. The macro takes the version, and the lines of the opening.
macro_rules! close {
    ($version:literal, $opening:literal) => {
        concat!(
            "problem ", $version,
            "\ndealer opponent\nscore 100 119\nstarter KD\nhold AC 2C 2D 2H\nthrow 4C 6D\ngoal win\n", $opening
        )
    };
}

// A problem with a ten and small clubs. The macro takes the version, and the lines of the opening.
macro_rules! tens {
    ($version:literal, $opening:literal) => {
        concat!(
            "problem ", $version,
            "\ndealer opponent\nscore 0 0\nstarter 3H\nhold TC 9C 2C 8C\nthrow 4S 6S\ngoal win\n", $opening
        )
    };
}

// The owner deals, says go at 29 and pegs one hole for the last card. The opponent, who is four holes from 121, leads
// their last two cards. Both are threes or higher, since neither fitted at 29. The macro takes the owner's score, and
// the goal.
macro_rules! last_two {
    ($score:literal, $goal:literal) => {
        concat!(
            "problem 2\ndealer owner\nscore ", $score,
            " 117\nstarter 2C\nhold 7S 3D 9S 6H\nthrow 8C 2H\ngoal ", $goal,
            "\nplayed 5\nopp KD\nown 3D\nopp KS\nown 6H\nopp go\n"
        )
    };
}

/// Four twos of the pone. The goal is twelve holes, which the owner's hand makes.
pub const TWELVE: &str = twos!("opponent", "0 0", "holes 12");

/// `TWELVE`, with a goal of one hole more, which is too many.
pub const THIRTEEN: &str = twos!("opponent", "0 0", "holes 13");

/// The four twos of the dealer, who is one hole from 121.
pub const NEAR: &str = twos!("owner", "120 0", "win");

/// The four twos of the dealer. The goal is thirteen holes, which the dealer makes in every game.
pub const DEALERS_THIRTEEN: &str = twos!("owner", "100 0", "holes 13");

/// `DEALERS_THIRTEEN`, with a goal of one hole more, which is too many.
pub const DEALERS_FOURTEEN: &str = twos!("owner", "100 0", "holes 14");

/// The four twos of the dealer. The opponent counts first, and is twelve holes from 121.
pub const RACE: &str = twos!("owner", "108 109", "win");

/// `TWELVE`, after an opening of a two and an ace.
pub const BEGUN: &str = twos!("opponent", "0 0", "holes 12", "played 2\nown 2C\nopp AC\n");

/// `BEGUN`, with a goal of one hole more, which is too many, and the ace of diamonds in the opening.
pub const BEGUN_SHORT: &str = twos!("opponent", "0 0", "holes 13", "played 2\nown 2C\nopp AD\n");

/// The four twos of the pone. The goal is to stop the opponent, who is far from 121.
pub const STOP_FAR: &str = twos!("opponent", "0 0", "stop", "played 0\n");

/// `STOP_FAR`, with the opponent one hole from 121.
pub const STOP_NEAR: &str = twos!("opponent", "0 120", "stop", "played 0\n");

/// `STOP_FAR`, with the opponent 29 holes from 121. The opponent's hand and crib decide.
pub const STOP_SHOW: &str = twos!("opponent", "0 92", "stop", "played 0\n");

/// The opponent is two holes from 121.
pub const CLOSE: &str = close!("1", "");

/// `CLOSE`, with an opening after which the opponent is at 121.
pub const CLOSE_AND_LOST: &str = close!("2", "played 2\nown AC\nopp AD\n");

/// The pone has a ten and small clubs.
pub const TENS: &str = tens!("1", "");

/// `TENS`, after the first six turns of `LAST_CARD`.
pub const TENS_BEGUN: &str = tens!(
    "2",
    "played 6\nown TC\nopp TD\nown 9C\nopp go\nown 2C\nopp KD\n"
);

/// `TENS`, after an opening in which the opponent says go at 29 and plays a two later.
pub const TENS_AFTER_A_FALSE_GO: &str = tens!(
    "2",
    "played 6\nown TC\nopp TD\nown 9C\nopp go\nown 2C\nopp 2D\n"
);

/// The eighth card of `MAKES_31` makes 31.
pub const LAST_MAKES_31: &str =
    "problem 1\ndealer opponent\nscore 0 0\nstarter 2H\nhold TC KC 4C 3C\nthrow 5S 6S\ngoal win\n";

/// The owner's second card depends on what the opponent shows.
pub const NINES: &str =
    "problem 1\ndealer opponent\nscore 0 0\nstarter 8C\nhold 9S 9D TD QC\nthrow 2H 5C\ngoal holes 5\n";

/// The owner's hole for the last card brings them to one hole from 121. The opponent leads their last two cards.
pub const LAST_TWO: &str = last_two!("119", "win");

/// `LAST_TWO`, with the goal to stop the opponent.
pub const LAST_TWO_STOP: &str = last_two!("119", "stop");

/// `LAST_TWO`, with one hole less for the owner, which leaves them two holes from 121. Against a king and then a queen
/// the owner makes only one. The owner answers the king with the seven or the nine, and the count is 17 or 19. The
/// queen makes it 27 or 29, and the owner's other card does not fit. The opponent gets one hole for the last card. The
/// owner leads their eighth card and gets one hole. Nothing else scores. The opponent counts first, needs three holes,
/// and gets six for three kings.
pub const LAST_TWO_BEHIND: &str = last_two!("118", "win");

/// The dealer's goal is three holes in a whole play.
pub const WHOLE_PLAY: &str =
    "problem 1\ndealer owner\nscore 100 100\nstarter AH\nhold 8H 4S QS 7D\nthrow 7H JH\ngoal holes 3\n";
