//! Where a walk is, and the places at which a card is fixed.
ghost use Rattle.std.specs.Prelude.{◌≡◌, ◌↔◌, ◌+◌, ◌*◌, ◌<◌, ◌≤◌, [], ◌∷◌, IsTrue, length};
ghost use Rattle.crib_cards.specs.declared.letters.Letter.{Letter};
ghost use Rattle.crib_cards.specs.declared.letters.Letter.TheVariants as letter;
ghost use Rattle.crib_bound.specs.Private.Cases.{IsAllowedAt, letter_number};

use arrayvec::ArrayVec;
use crib_cards::{Letter, Rank};
use crib_search::{Guide, Spot};
use std::alloc::Allocator;

/// The turns since the opening, the last one first. The digit of a turn is twice the number of its letter, and one more
/// if it is the owner's. That of a go is 0, and that of a card one more than its rank's.
pub(crate) type TurnTrail = ArrayVec<u8, 28>;

/// A place of the owner at which a card is fixed: its trail, and the rank of the card.
#[derive(Drop)]
pub(crate) struct Fixed {
    pub(crate) trail: TurnTrail,
    pub(crate) rank: Rank,
}

/// Where a walk is: the spot of its guide, and its trail.
#[derive(Drop)]
pub(crate) struct Path {
    pub(crate) spot: Spot,
    pub(crate) trail: TurnTrail,
}

impl Path {
    /// The path after the opening.
    pub(crate) fn start<A: Allocator + Copy>(guide: &Guide<'_, A>) -> Path
        ensures { result.trail.items ≡ [] }
    {
        Path {
            spot: guide.start(),
            trail: ArrayVec::new(),
        }
    }

    /// The path after a letter of the opponent.
    pub(crate) fn after_letter(&self, letter: &Letter) -> Path
        requires { length self.now.trail.items < 28 }
        ensures { result.trail.items ≡ (2 * letter_number letter.now) ∷ self.now.trail.items }
    {
        Path {
            spot: self.spot.after_letter(*letter),
            trail: with_digit(&self.trail, 2 * number_of(letter)),
        }
    }

    /// The path after a card of the owner.
    pub(crate) fn after_card<A: Allocator + Copy>(&self, guide: &Guide<'_, A>, rank: Rank) -> Path
        requires { length self.now.trail.items < 28 }
        ensures { result.trail.items ≡ (2 * letter_number (letter.Seen rank) + 1) ∷ self.now.trail.items }
    {
        Path {
            spot: guide.after_card(&self.spot, rank),
            trail: with_digit(&self.trail, 2 * number_of(&Letter::Seen(rank)) + 1),
        }
    }

    /// The path after a go of the owner.
    pub(crate) fn after_go(&self) -> Path
        requires { length self.now.trail.items < 28 }
        ensures { result.trail.items ≡ 1 ∷ self.now.trail.items }
    {
        Path {
            spot: self.spot,
            trail: with_digit(&self.trail, 1),
        }
    }
}

/// The number of a letter.
pub(crate) fn number_of(letter: &Letter) -> u8
    ensures value { result ≡ letter_number letter.now }
    ensures small { result ≤ 14 }
{
    match letter {
        Letter::Seen(rank) => rank.number() + 1,
        Letter::Go => 0,
    }
}

// A trail with one more digit.
fn with_digit(trail: &TurnTrail, digit: u8) -> TurnTrail
    requires { length trail.now.items < 28 }
    ensures { result.items ≡ digit ∷ trail.now.items }
{
    let mut longer = ArrayVec::new();
    longer.push(digit);
    longer.try_extend_from_slice(trail.as_slice()).unwrap();
    longer
}

/// Whether a card of a rank may be played where a trail leads, by what is fixed there.
pub(crate) fn is_allowed(fixed: &[Fixed], trail: &TurnTrail, rank: Rank) -> bool
    ensures { IsTrue result ↔ IsAllowedAt fixed.now trail.now.items rank }
{
    match fixed {
        [one, others @ ..] => {
            if !lets(one, trail, rank) {
                return false;
            }
            is_allowed(others, trail, rank)
        }
        [] => true,
    }
}

// Whether a card of a rank may be played where a trail leads, by what is fixed at one place.
fn lets(one: &Fixed, trail: &TurnTrail, rank: Rank) -> bool
    ensures { IsTrue result ↔ (one.now.trail.items ≡ trail.now.items → rank ≡ one.now.rank) }
{
    if one.rank == rank {
        return true;
    }
    !is_same(&one.trail, trail)
}

// Whether two trails have the same digits.
fn is_same(one: &TurnTrail, other: &TurnTrail) -> bool
    ensures { IsTrue result ↔ (one.now.items ≡ other.now.items) }
{
    one.as_slice() == other.as_slice()
}
