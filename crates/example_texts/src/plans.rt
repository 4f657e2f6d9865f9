//! Plans.

/// Plays the four twos one after another.
pub const TWOS: &str = "plan 1\nnodes 4\n0 play 2C 1\n1 play 2D 2\n2 play 2H 3\n3 play 2S end\n";

/// Plays the three twos that are left after the opening of `BEGUN`.
pub const REST: &str = "plan 1\nnodes 3\n0 play 2D 1\n1 play 2H 2\n2 play 2S end\n";

/// States no card.
pub const NO_PLAN: &str = "plan 1\nnodes 0\n";

/// Plays the first two and states nothing more.
pub const ONE_TWO: &str = "plan 1\nnodes 1\n0 play 2C end\n";

/// `TWOS`, with the first card again in place of the second.
pub const TWICE: &str = "plan 1\nnodes 4\n0 play 2C 1\n1 play 2C 2\n2 play 2H 3\n3 play 2S end\n";

/// Looks at what the opponent shows after the first two. A two or a go leads to the end. The opponent can show neither.
pub const LOOK: &str =
    "plan 1\nnodes 5\n0 play 2C 1\n1 see A3456789TJQK:2\n2 play 2D 3\n3 play 2H 4\n4 play 2S end\n";

/// `LOOK`, in which a king leads to the end, too.
pub const NO_KING: &str =
    "plan 1\nnodes 5\n0 play 2C 1\n1 see A3456789TJQ:2\n2 play 2D 3\n3 play 2H 4\n4 play 2S end\n";

/// Looks at what the opponent shows after three twos. A two or a go leads to the end.
pub const LATE_LOOK: &str =
    "plan 1\nnodes 5\n0 play 2C 1\n1 play 2D 2\n2 play 2H 3\n3 see A3456789TJQK:4\n4 play 2S end\n";

/// Plays the ace of `CLOSE`.
pub const ACE: &str = "plan 1\nnodes 1\n0 play AC end\n";

/// For `LAST_TWO`. After a seven or an eight, the owner's seven scores at once. After a nine, the owner's nine does.
/// The seven would let an eight make a run, and then the nine would not fit and the opponent would get the hole for the
/// last card. After each other card the owner plays the seven and then the nine, and gets the hole for the last card at
/// the latest. The opponent makes three holes at most.
pub const LOOKS: &str =
    "plan 1\nnodes 4\n0 see 3456TJQK:2 78:1 9:3\n1 play 7S end\n2 play 7S 3\n3 play 9S end\n";

/// For `LAST_TWO`. Plays the seven first, whatever the opponent shows.
pub const SEVEN_FIRST: &str = "plan 1\nnodes 2\n0 play 7S 1\n1 play 9S end\n";
