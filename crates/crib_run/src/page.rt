//! A page: what bytes are put on piece by piece.
ghost use Rattle.std.specs.Prelude.{◌≤◌, length, decimal};
ghost use Rattle.crib_input.specs.Input.{most_bytes};
ghost use Rattle.crib_problem.specs.Spelling.{move_word};
ghost use Rattle.crib_run.specs.Pieces.{other_score, role_word, spaced_card, spaced_cards};
ghost use Rattle.crib_run.specs.Prints.{Prints, Stand};

use crib_cards::{Card, Move, Side, card_text};
use crib_text::{Sink, put};
use itoa::Buffer;

/// What bytes are put on piece by piece. After a failure it takes nothing more.
pub trait Page {
    // Its state.
    ghost stand: { Self → Stand };

    /// Puts bytes.
    fn put(&mut self, bytes: &[u8])
        requires { length bytes.now ≤ most_bytes }
        ensures { Prints bytes.now (stand self.old) (stand self.new) };
}

/// A page on a device.
#[derive(Drop)]
pub struct Printer<'a, W> {
    /// The device.
    pub sink: &'a mut W,
    /// Whether it failed.
    pub is_cut: bool,
}

impl<W: Sink> Page for Printer<'_, W> {
    ghost stand = { λ p. record {
      name = p.sink.ghost_name;
      contents = W.contents p.sink.now;
      faults = W.faults p.sink.now;
      is_cut = p.is_cut;
    } };

    fn put(&mut self, bytes: &[u8]) {
        if !self.is_cut {
            self.is_cut = matches!(put(self.sink, bytes), Err(_));
        }
    }
}

/// Puts the decimal digits of a number.
pub fn put_small<P: Page>(page: &mut P, number: u8)
    ensures { Prints (decimal number) (P.stand page.old) (P.stand page.new) }
{
    put_number(page, number as u32);
}

/// Puts the decimal digits of a larger number: of a node, or of deals.
pub fn put_number<P: Page>(page: &mut P, number: u32)
    ensures { Prints (decimal number) (P.stand page.old) (P.stand page.new) }
{
    page.put(Buffer::new().format(number).as_bytes());
}

/// Puts a card after a space.
pub fn put_card<P: Page>(page: &mut P, card: Card)
    ensures { Prints (spaced_card card) (P.stand page.old) (P.stand page.new) }
{
    page.put(b" ");
    page.put(&card_text(card));
}

/// Puts cards, each after a space.
pub fn put_cards<P: Page>(page: &mut P, cards: &[Card])
    ensures { Prints (spaced_cards cards.now) (P.stand page.old) (P.stand page.new) }
{
    for card in cards {
        put_card(page, *card);
    }
}

/// Puts a card, or `go`.
pub fn put_move<P: Page>(page: &mut P, what: Move)
    ensures { Prints (move_word what) (P.stand page.old) (P.stand page.new) }
{
    match what {
        Move::Card(card) => page.put(&card_text(card)),
        Move::Go => page.put(b"go"),
    }
}

/// Puts `dealer` or `pone`, the word for a side in a deal of this dealer.
pub fn put_role<P: Page>(page: &mut P, dealer: Side, side: Side)
    ensures { Prints (role_word dealer side) (P.stand page.old) (P.stand page.new) }
{
    page.put(if dealer == side { b"dealer" } else { b"pone" });
}

/// Puts the opponent's part in a deal of this dealer, and score.
pub fn put_other_score<P: Page>(page: &mut P, dealer: Side, score: u8)
    ensures { Prints (other_score dealer score) (P.stand page.old) (P.stand page.new) }
{
    page.put(b", and the ");
    put_role(page, dealer, Side::Opponent);
    page.put(b" is at ");
    put_small(page, score);
}
