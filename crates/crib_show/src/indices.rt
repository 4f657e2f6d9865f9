//! The index of four ranks among all choices of four.
ghost use Rattle.std.specs.Prelude.{◌≡◌, ◌+◌, ◌*◌, ◌<◌, ◌≤◌, length};
ghost use Rattle.crib_show.specs.Indices.{AreFour, below, index_among, many};

use crib_cards::RankCounts;

/// How many choices of four ranks there are.
pub const CHOICES: usize = 1820;

/// The index of a choice of four ranks among all, in the order of ranks, the ace first.
#[inline]
pub fn choice_index(counts: &RankCounts) -> usize
    requires { AreFour counts.now }
    ensures index { result ≡ index_among 4 counts.now }
    ensures few { result < 1820 }
{
    index_among(counts.as_slice(), 4)
}

// The index of some rank counts among all choices of this number of cards.
fn index_among(counts: &[u8], cards: usize) -> usize
    requires counts { length counts.now ≤ 13 }
    requires cards { cards ≤ 4 }
    ensures index { result ≡ index_among cards counts.now }
    ensures range { result ≤ 1000 * length counts.now }
{
    match counts {
        [] => 0,
        [count, others @ ..] => {
            let left = cards.saturating_sub(*count as usize);
            below(others.len(), left) + index_among(others, left)
        }
    }
}

// How many choices of fewer cards there are among this number of ranks.
fn below(ranks: usize, cards: usize) -> usize
    requires ranks { ranks < 13 }
    requires cards { cards ≤ 4 }
    ensures value { result ≡ below (many ranks) cards }
    ensures range { result ≤ 1000 }
{
    FEWER[5 * ranks + cards]
}

// How many choices of fewer cards there are: five numbers for each of 0 to 12 ranks, for 0 to 4 cards.
const FEWER: [usize; 65] = [
    0, 1, 1, 1, 1, 0, 1, 2, 3, 4, 0, 1, 3, 6, 10, 0, 1, 4, 10, 20, 0, 1, 5, 15, 35, 0, 1, 6, 21,
    56, 0, 1, 7, 28, 84, 0, 1, 8, 36, 120, 0, 1, 9, 45, 165, 0, 1, 10, 55, 220, 0, 1, 11, 66, 286,
    0, 1, 12, 78, 364, 0, 1, 13, 91, 455,
];
