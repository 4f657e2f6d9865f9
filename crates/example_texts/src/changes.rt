//! Lines that are changed in an input, so that it is refused.

/// The number of a line, counted from 1, what is put in its place, and the answer.
pub type Change = (usize, &'static str, &'static str);

/// Changes of the input `TWELVE` and `TWOS`, one for each kind of refusal.
pub const CHANGED_PLANS: [Change; 8] = [
    (1, "problem 3", "refused line 1: 7\n"),
    (1, "problem 2", "refused line 8: 4\n"),
    (2, "dealer  opponent", "refused line 2: 4\n"),
    (5, "hold 2C 2D 2H 1S", "refused line 5: 5\n"),
    (3, "score 120 121", "refused line 3: 21\n"),
    (13, "3 play 2S 3", "refused line 13: 30\n"),
    (9, "nodes 65536", "refused line 9: 32\n"),
    (13, "3 play 2S end\nx", "refused line 14: 8\n"),
];

/// Changes of the input `TENS` and `LAST_CARD`, one for each kind of refusal.
pub const CHANGED_GAMES: [Change; 5] = [
    (12, "opp TD", "refused line 12: 44\n"),
    (9, "hold TC KD KH QS", "refused line 9: 40\n"),
    (8, "game 2", "refused line 8: 7\n"),
    (11, "acts 9", "refused line 21: 8\n"),
    (11, "acts 11", "refused line 22: 3\n"),
];
