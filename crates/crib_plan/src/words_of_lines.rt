//! Reading the lines of a plan, one by one.
ghost use Rattle.std.specs.Prelude.{◌≤◌, ◌<◌, length};
ghost use Rattle.crib_text.specs.Lines.{line_of};
ghost use Rattle.crib_text.specs.Reading.{Gives};
ghost use Rattle.crib_plan.specs.Refusals.{plan_cause_number};
ghost use Rattle.crib_plan.specs.Reading.{own_number_in, play_in, see_in, node_from, count_in};

use crate::branches::branches_of;
use crate::fault::{BAD_LINE, PlanCause};
use crate::next::next_of;
use crate::plan::Node;
use crib_cards::read_card;
use crib_text::{Line, TextCause, check_keyword, number_of, word_at};

// The number of nodes in the `nodes` line. It refuses a wrong keyword or number of words (4), a word that is no number
// (6), and a number above 65,535 (32).
#[tactic(auto, using(crate::proofs::LineLemmas::words_after), unfolding(crate::specs::Reading::count_in))]
pub(crate) fn count_of(line: &Line<'_>) -> Result<u16, PlanCause>
    ensures { Gives (λ count. count) plan_cause_number result (count_in (line_of line.now).words) }
{
    check_keyword(line, b"nodes", 1)?;
    let count = number_of(word_at(line, 1))?;
    if count > 65_535 {
        return Err(PlanCause::TooMany);
    }
    Ok(count as u16)
}

// The node of a line, with this number in a plan of `count` nodes. The second word states the kind of node. A line with
// another second word is refused (4).
#[tactic(auto, using(crate::proofs::LineLemmas::in_node))]
pub(crate) fn read_node_line(line: &Line<'_>, number: u16, count: u16) -> Result<Node, PlanCause>
    ensures { Gives (λ node. node) plan_cause_number result (node_from number count (line_of line.now).words) }
{
    if line.word_count() < 2 {
        return Err(BAD_LINE);
    }
    let kind = word_at(line, 1);
    if kind == b"play".as_slice() {
        play_of(line, number, count)
    } else if kind == b"see".as_slice() {
        see_of(line, number, count)
    } else {
        Err(BAD_LINE)
    }
}

#[tactic(auto, using(crate::proofs::LineLemmas::in_play))]
fn play_of(line: &Line<'_>, number: u16, count: u16) -> Result<Node, PlanCause>
    requires { 2 ≤ length (line_of line.now).words }
    ensures { Gives (λ node. node) plan_cause_number result (play_in number count (line_of line.now).words) }
{
    if line.word_count() != 4 {
        return Err(BAD_LINE);
    }
    check_own_number(number, word_at(line, 0))?;
    let card = read_card(word_at(line, 2)).ok_or(PlanCause::Text(TextCause::BadCard))?;
    let next = next_of(number, count, word_at(line, 3))?;
    Ok(Node::Play { card, next })
}

#[tactic(auto, using(crate::proofs::LineLemmas::in_see))]
fn see_of(line: &Line<'_>, number: u16, count: u16) -> Result<Node, PlanCause>
    requires { 2 ≤ length (line_of line.now).words }
    ensures { Gives (λ node. node) plan_cause_number result (see_in number count (line_of line.now).words) }
{
    check_own_number(number, word_at(line, 0))?;
    let next = branches_of(line, number, count)?.next;
    Ok(Node::See { next })
}

// Checks that a line begins with the number of its node. It refuses a word that is no number (6) and another number
// (4).
#[tactic(auto, unfolding(crate::specs::Reading::own_number_in))]
fn check_own_number(number: u16, word: &[u8]) -> Result<(), PlanCause>
    ensures { Gives (λ _. tt) plan_cause_number result (own_number_in number word.now) }
{
    let own = number_of(word)?;
    if own != u32::from(number) {
        return Err(BAD_LINE);
    }
    Ok(())
}
