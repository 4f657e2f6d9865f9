//! How many deals beat a plan that is not sure, in words.
ghost use Rattle.std.specs.Prelude.{◌≡◌, ◌≤◌, ◌+◌, ◌*◌, ◌++◌, ◌∷◌, [], false, codes, length, count_by};
ghost use Rattle.std.specs.List.{list_all};
ghost use Rattle.arrayvec.specs.ArrayVec.{array_vec_len};
ghost use Rattle.crib_run.specs.Prints.{Prints};
ghost use Rattle.crib_sheet.specs.PlanBeaten.{fewest_text, deals_word, grouped, hands_text, deals_line};
ghost use Rattle.crib_sheet.specs.PlanBeaten.{beating_text, best_text, found_text, least_text, others_line};
ghost use Rattle.crib_sheet.specs.PlanBeaten.{row_lines, rows_lines, slot_part, term_text, with_commas};

use crate::verdict::beaten::Best;
use arrayvec::ArrayVec;
use crib_beaten::{Row, Rows, Slot, Tally, Term};
use crib_plan_sheet::label_of;
use crib_run::{Page, add};
use itoa::Buffer;
use std::alloc::Allocator;

// The columns of the ranks in a row, with a space before them, and those of its number.
const TERM_COLUMNS: usize = 25;

const DEALS_COLUMNS: usize = 11;

// A number with commas.
type Figure = ArrayVec<u8, 20>;

// The slots of a term, each after a space.
type TermText = ArrayVec<u8, 128>;

/// Puts how many deals beat a plan that is not sure, and which hands they have, unless more than a tenth of all deals
/// do.
pub(crate) fn put_beating<A: Allocator, P: Page>(
    page: &mut P,
    tally: &Tally<A>,
    hands: &Option<Rows>,
)
    ensures { Prints (beating_text tally.now.open_deals tally.now.beaten hands.now) (P.stand page.old)
        (P.stand page.new) }
{
    page.put(b"This plan is not sure. It reaches your goal with ");
    put_grouped(page, tally.open_deals.saturating_sub(tally.beaten));
    page.put(b" of the\n");
    put_grouped(page, tally.open_deals);
    page.put(b" deals that they may have, whatever they play. With the other\n");
    put_grouped(page, tally.beaten);
    page.put(b" they can beat it.");
    put_hands(page, hands);
}

/// Puts how few deals beat a plan, beside how many beat this one.
pub(crate) fn put_best<P: Page>(page: &mut P, beaten: u32, best: Best)
    ensures { Prints (best_text beaten best) (P.stand page.old) (P.stand page.new) }
{
    if beaten <= best.least {
        page.put(fewest_words(best.is_for_all));
    } else {
        put_found(page, best.found);
        put_least(page, best.least);
    }
}

// That no plan is beaten by fewer deals, or no player.
fn fewest_words(is_for_all: bool) -> &'static [u8]
    ensures value { result.now ≡ fewest_text is_for_all }
    ensures short { length result.now ≤ 60 }
{
    if is_for_all {
        b"No player is beaten by fewer deals, whatever they look at.\n"
    } else {
        b"No plan is beaten by fewer deals.\n"
    }
}

// Puts how many deals beat the best plan that was found, if one was.
fn put_found<P: Page>(page: &mut P, found: Option<u32>)
    ensures { Prints (found_text found) (P.stand page.old) (P.stand page.new) }
{
    match found {
        None => {},
        Some(0) => page.put(b"Another plan is sure.\n"),
        Some(found) => {
            page.put(b"The best plan found is beaten by ");
            put_deals(page, found);
        },
    }
}

// Puts how many deals beat each plan at least. It puts nothing if that is no deal.
fn put_least<P: Page>(page: &mut P, least: u32)
    ensures { Prints (least_text least) (P.stand page.old) (P.stand page.new) }
{
    if least > 0 {
        page.put(b"Every plan is beaten by at least ");
        put_deals(page, least);
    }
}

// Puts a number of deals at the end of a sentence.
fn put_deals<P: Page>(page: &mut P, deals: u32)
    ensures { Prints (grouped deals ++ deals_word deals ++ codes ".\n") (P.stand page.old) (P.stand page.new) }
{
    put_grouped(page, deals);
    page.put(deals_word(deals));
    page.put(b".\n");
}

// Puts which hands beat the plan, if there are rows for them, or the end of the line.
fn put_hands<P: Page>(page: &mut P, hands: &Option<Rows>)
    ensures { Prints (hands_text hands.now) (P.stand page.old) (P.stand page.new) }
{
    match hands {
        None => page.put(b"\n"),
        Some(hands) => {
            page.put(b" They then hold, at least:\n\n");
            put_all_rows(page, hands.rows.as_slice());
            put_others(page, hands.others);
            page.put(
                b"\nIn brackets: one card of these ranks. Hands of two rows are in the first.\n",
            );
        },
    }
}

// Puts the lines of all rows.
fn put_all_rows<P: Page>(page: &mut P, rows: &[Row])
    ensures { Prints (rows_lines rows.now) (P.stand page.old) (P.stand page.new) }
{
    match rows {
        [] => {}
        [row, _others @ ..] => put_rows(page, deals_word(row.deals), rows),
    }
}

// Puts the lines of rows, with a word in the first one.
fn put_rows<P: Page>(page: &mut P, word: &[u8], rows: &[Row])
    requires { length word.now ≤ 6 }
    ensures { Prints (row_lines word.now rows.now) (P.stand page.old) (P.stand page.new) }
{
    match rows {
        [] => {}
        [row, others @ ..] => {
            put_line(page, term_text(&row.term).as_slice(), row.deals, word);
            put_rows(page, b"", others);
        }
    }
}

// Puts the line of the deals that no row has, if there are any.
fn put_others<P: Page>(page: &mut P, others: u32)
    ensures { Prints (others_line others) (P.stand page.old) (P.stand page.new) }
{
    if others != 0 {
        put_line(page, b" and others", others, b"");
    }
}

// Puts a line with a number of deals in its column.
fn put_line<P: Page>(page: &mut P, front: &[u8], deals: u32, word: &[u8])
    requires front { length front.now ≤ 128 }
    requires word { length word.now ≤ 6 }
    ensures { Prints (deals_line front.now deals word.now) (P.stand page.old) (P.stand page.new) }
{
    let figure = grouped(deals);
    page.put(b"   ");
    page.put(front);
    page.put(&[b' '; TERM_COLUMNS][..TERM_COLUMNS.saturating_sub(front.len())]);
    page.put(&[b' '; DEALS_COLUMNS][..DEALS_COLUMNS.saturating_sub(figure.len())]);
    page.put(figure.as_slice());
    page.put(word);
    page.put(b"\n");
}

// Returns the word behind a number of deals.
fn deals_word(deals: u32) -> &'static [u8]
    ensures value { result.now ≡ deals_word deals }
    ensures short { length result.now ≤ 6 }
{
    if deals == 1 { b" deal" } else { b" deals" }
}

/// Puts a number with commas.
pub(crate) fn put_grouped<P: Page>(page: &mut P, number: u32)
    ensures { Prints (grouped number) (P.stand page.old) (P.stand page.new) }
{
    page.put(grouped(number).as_slice());
}

// Returns a number with commas.
fn grouped(number: u32) -> Figure
    ensures items { result.items ≡ grouped number }
    ensures len { array_vec_len result ≡ length result.items }
{
    let mut text = Figure::new();
    let mut buffer = Buffer::new();
    add_digits(&mut text, buffer.format(number).as_bytes());
    text
}

// Adds digits with commas.
fn add_digits(text: &mut Figure, digits: &[u8])
    requires room { array_vec_len text.old + 2 * length digits.now ≤ 20 }
    ensures items { text.new.items ≡ text.old.items ++ with_commas digits.now }
{
    match digits {
        [] => {}
        [digit, others @ ..] => {
            add(text, &[*digit]);
            if 0 < others.len() && others.len() % 3 == 0 {
                add(text, b",");
            }
            add_digits(text, others);
        }
    }
}

// Returns the slots of a term, each after a space.
fn term_text(term: &Term) -> TermText
    ensures { result.items ≡ term_text term.now }
{
    let [first, second, third, fourth] = term;
    let mut text = TermText::new();
    add_slot(&mut text, first);
    add_slot(&mut text, second);
    add_slot(&mut text, third);
    add_slot(&mut text, fourth);
    text
}

// Adds a slot after a space, unless any card is in it.
fn add_slot(text: &mut TermText, slot: &Slot)
    requires { array_vec_len text.old ≤ 96 }
    ensures items { text.new.items ≡ text.old.items ++ slot_part slot.now }
    ensures len { array_vec_len text.new ≤ array_vec_len text.old + 31 }
{
    if is_any(slot) {
        return;
    }
    let label = label_of(&letters_of(slot));
    if count(slot) == 1 {
        add(text, b" ");
        add(text, label.as_slice());
    } else {
        add(text, b" (");
        add(text, label.as_slice());
        add(text, b")");
    }
}

// Whether any card is in a slot.
fn is_any(slot: &Slot) -> bool
    ensures { result ≡ list_all (λ flag. flag) slot.now }
{
    slot.iter().all(|flag| *flag)
}

// Returns how many ranks are in a slot.
fn count(slot: &Slot) -> usize
    ensures { result ≡ count_by (λ flag. flag) slot.now }
{
    slot.iter().filter(|flag| **flag).count()
}

// Returns the ranks of a slot as letters. A go is none of them.
fn letters_of(slot: &Slot) -> [bool; 14]
    ensures { result ≡ slot.now ++ false ∷ [] }
{
    let mut letters = [false; 14];
    letters[..13].copy_from_slice(slot);
    letters
}
