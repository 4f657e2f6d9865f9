//! Cards and acts as text: the words and lines that the sections of problems and games share.
ghost use Rattle.std.specs.Prelude.{◌≡◌, ◌+◌, ◌*◌, ◌≤◌, ◌++◌, ◌∷◌, [], length, map, decimal, IfOk, if◌then◌else◌};
ghost use Rattle.crib_cards.specs.Sides.{same_side};
ghost use Rattle.crib_cards.specs.declared.sides.Side.TheVariants.{Owner};
ghost use Rattle.std.specs.Prelude.{vec_len, vec_capacity};
ghost use Rattle.std.specs.List.{flat_map};
ghost use Rattle.crib_cards.specs.CardText.{card_text};
ghost use Rattle.crib_text.specs.Lines.{line_of};
ghost use Rattle.crib_text.specs.Refusals.{cause_number};
ghost use Rattle.crib_text.specs.Reading.{Gives};
ghost use Rattle.crib_text.specs.Spelling.{line_text};
ghost use Rattle.crib_text.specs.Private.Writing.{Appended};
ghost use Rattle.crib_problem.specs.Reading.{act_in, acts_count_in, card_in, most_acts, move_in, side_called};
ghost use Rattle.crib_problem.specs.Spelling.{act_line, acts_lines};
ghost use Rattle.crib_problem.specs.Private.Spelling.{spaced_card};

use crib_cards::{Act, Card, Move, Side, card_text, read_card};
use crib_text::{Line, TextCause, append, append_number, check_keyword, number_of, word_at};
use std::alloc::Allocator;

// The greatest number of acts in a section.
const MOST_ACTS: u32 = 32;

/// Returns the card that a word spells. A word that is no card is refused with 5.
#[tactic(auto, unfolding(crate::specs::Reading::card_in))]
pub fn card_of(word: &[u8]) -> Result<Card, TextCause>
    ensures { Gives (λ card. card) cause_number result (card_in word.now) }
{
    read_card(word).ok_or(TextCause::BadCard)
}

/// Returns the number of acts that a line states: the keyword, and then a number up to 32. The line is refused with 4
/// for another keyword or another number of words. It is refused with 6 if the second word is not a number up to 32.
#[tactic(auto, using(crate::proofs::LineLemmas::words_after), unfolding(crate::specs::Reading::acts_count_in))]
pub fn acts_count_of(line: &Line<'_>, keyword: &[u8]) -> Result<u32, TextCause>
    ensures count { Gives (λ count. count) cause_number result (acts_count_in keyword.now (line_of line.now).words) }
    ensures range { IfOk result (λ count. count ≤ most_acts) }
{
    check_keyword(line, keyword, 1)?;
    let count = number_of(word_at(line, 1))?;
    if count > MOST_ACTS {
        return Err(TextCause::BadNumber);
    }
    Ok(count)
}

// Returns the side that a word names, given the name of each side.
pub(crate) fn side_of(word: &[u8], owner: &[u8], opponent: &[u8]) -> Result<Side, TextCause>
    ensures { Gives (λ side. side) cause_number result
        (side_called (λ side. if same_side side Owner then owner.now else opponent.now) word.now) }
{
    if word == owner {
        Ok(Side::Owner)
    } else if word == opponent {
        Ok(Side::Opponent)
    } else {
        Err(TextCause::BadLine)
    }
}

#[tactic(auto, unfolding(crate::specs::Reading::move_in))]
fn move_of(word: &[u8]) -> Result<Move, TextCause>
    ensures { Gives (λ what. what) cause_number result (move_in word.now) }
{
    if word == b"go".as_slice() {
        return Ok(Move::Go);
    }
    Ok(Move::Card(card_of(word)?))
}

/// Returns the act of a line such as `own 2C` or `opp go`. The line is refused with 4 if it has not two words or the
/// first is neither `own` nor `opp`. It is refused with 5 if the second word is neither `go` nor a card.
#[tactic(auto, using(crate::proofs::ActLemmas::two_in_act))]
pub fn act_of(line: &Line<'_>) -> Result<Act, TextCause>
    ensures { Gives (λ act. act) cause_number result (act_in (line_of line.now).words) }
{
    if line.word_count() != 2 {
        return Err(TextCause::BadLine);
    }
    let side = side_of(word_at(line, 0), b"own", b"opp")?;
    let what = move_of(word_at(line, 1))?;
    Ok(Act { side, what })
}

/// Appends the line of a keyword and the number of acts, and then a line for each act. The text must have room for the
/// keyword, for four bytes more, and for seven bytes for each act.
pub fn append_acts<A: Allocator>(text: &mut Vec<u8, A>, keyword: &[u8], acts: &[Act])
    requires few { length acts.now ≤ most_acts }
    requires fits { vec_len text.old + length keyword.now + 4 + 7 * length acts.now ≤ vec_capacity text.old }
    ensures items { text.new.items ≡ text.old.items ++ flat_map line_text (acts_lines keyword.now acts.now) }
    ensures len { vec_len text.new ≤ vec_len text.old + length keyword.now + 4 + 7 * length acts.now }
{
    append_count(text, keyword, acts.len() as u32);
    for act in acts {
        append_act(text, act);
    }
}

fn append_count<A: Allocator>(text: &mut Vec<u8, A>, keyword: &[u8], count: u32)
    requires few { count ≤ most_acts }
    requires fits { vec_len text.old + length keyword.now + 4 ≤ vec_capacity text.old }
    ensures items { text.new.items ≡ text.old.items ++ line_text (keyword.now ∷ decimal count ∷ []) }
    ensures room { vec_capacity text.old ≤ vec_capacity text.new }
    ensures len { vec_len text.new ≤ vec_len text.old + length keyword.now + 4 }
{
    append(text, keyword);
    append(text, b" ");
    append_number(text, count);
    append(text, b"\n");
}

fn append_act<A: Allocator>(text: &mut Vec<u8, A>, act: &Act)
    requires { vec_len text.old + 7 ≤ vec_capacity text.old }
    ensures { Appended text.old text.new (line_text (act_line act.now)) 7 }
{
    let actor = match act.side {
        Side::Owner => b"own",
        Side::Opponent => b"opp",
    };
    match act.what {
        Move::Card(card) => append_cards(text, actor, &[card]),
        Move::Go => {
            append(text, actor);
            append(text, b" go\n");
        }
    }
}

/// Appends the line of a keyword and some cards. The text must have room for the keyword, for three bytes for each
/// card, and for LF.
#[tactic(auto, using(crate::proofs::WrittenIsSpelled::cards_line))]
pub fn append_cards<A: Allocator>(text: &mut Vec<u8, A>, keyword: &[u8], cards: &[Card])
    requires { vec_len text.old + length keyword.now + 3 * length cards.now + 1 ≤ vec_capacity text.old }
    ensures items { text.new.items ≡ text.old.items ++ line_text (keyword.now ∷ map card_text cards.now) }
    ensures room { vec_capacity text.old ≤ vec_capacity text.new }
    ensures len { vec_len text.new ≡ vec_len text.old + length keyword.now + 3 * length cards.now + 1 }
{
    append(text, keyword);
    append_card_words(text, cards);
    append(text, b"\n");
}

// Appends each card's text after a space.
fn append_card_words<A: Allocator>(text: &mut Vec<u8, A>, cards: &[Card])
    requires { vec_len text.old + 3 * length cards.now ≤ vec_capacity text.old }
    ensures items { text.new.items ≡ text.old.items ++ flat_map spaced_card cards.now }
    ensures room { vec_capacity text.old ≤ vec_capacity text.new }
    ensures len { vec_len text.new ≡ vec_len text.old + 3 * length cards.now }
{
    for card in cards {
        append(text, b" ");
        append(text, &card_text(*card));
    }
}
