//! Choices of four ranks.
ghost use Rattle.std.specs.Prelude.{◌≡◌, ◌<◌, ◌+◌};
ghost use Rattle.crib_deals.specs.Choices.{are_in_order, ranks_of_number};

use crib_cards::Rank;

/// The four ranks with a number below 28,561. Ranks that come first have smaller numbers.
pub fn ranks_at(number: u16) -> [Rank; 4]
    requires { number < 28561 }
    ensures { result ≡ ranks_of_number number }
{
    [
        rank_of(number / 2197),
        rank_of(number / 169 % 13),
        rank_of(number / 13 % 13),
        rank_of(number % 13),
    ]
}

pub(crate) fn rank_of(digit: u16) -> Rank
    requires { digit < 13 }
    ensures { result ≡ digit + 1 }
{
    let Some(rank) = Rank::new(digit as u8 + 1) else {
        unreachable!()
    };
    rank
}

/// Whether the ranks are in order, the ace first. There are 1,820 such choices of four.
pub fn are_in_order(ranks: &[Rank; 4]) -> bool
    ensures { result ≡ are_in_order ranks.now }
{
    let [first, second, third, fourth] = *ranks;
    first.number() <= second.number()
        && second.number() <= third.number()
        && third.number() <= fourth.number()
}
