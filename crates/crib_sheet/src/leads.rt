//! What may be played next, and what is after it, as text.
ghost use Rattle.std.specs.Prelude.{◌≡◌, ◌∷◌, [], flat_map};
ghost use Rattle.std.specs.List.{list_all, list_any};
ghost use Rattle.crib_run.specs.Prints.{Prints};
ghost use Rattle.crib_sheet.specs.Leads.{below_text, leads_reply};
ghost use Rattle.crib_sheet.specs.LeadsText.{after_of, after_words, begins_words, best_line, best_of, has_sure};
ghost use Rattle.crib_sheet.specs.LeadsText.{is_mostly_beaten, leads_status, little_lines, nodes_words, own_line};
ghost use Rattle.crib_sheet.specs.LeadsText.{own_lines, own_words, short_words, stop_figure, stop_words, their_line};
ghost use Rattle.crib_sheet.specs.LeadsText.{their_lines, their_name};

use crate::answer::{LeadsSheet, TriedPlan};
use crate::refutation::put_len;
use crate::verdict::{put_beating, put_grouped};
use crib_cards::{Letter, Move};
use crib_leads::{Lead, LeadVerdict};
use crib_plan::Node;
use crib_plan_sheet::{put_letter, put_now};
use crib_run::{Page, Status, put_card, put_move};
use std::alloc::Allocator;

// A verdict that half of the deals are against.
const HALF: LeadVerdict = LeadVerdict::Beaten {
    beaten: 1,
    open_deals: 2,
};

/// Puts the turns that may come next, with what is after each.
pub(crate) fn put_leads<A: Allocator, P: Page>(page: &mut P, sheet: &LeadsSheet<A>)
    ensures { Prints (leads_reply sheet.now).output (P.stand page.old) (P.stand page.new) }
{
    put_now(page, &sheet.problem);
    put_own(page, sheet.leads.own.as_slice(), sheet.stops.as_slice());
    put_little(page, sheet.leads.own.as_slice(), sheet.stops.as_slice());
    put_all_theirs(page, sheet.leads.theirs.as_slice());
    put_below(page, &sheet.below);
}

/// Returns `Yes` if a card of the owner is sure, or on the opponent's turn each of theirs, otherwise `No`.
pub(crate) fn leads_status(own: &[Lead], theirs: &[Lead]) -> Status
    ensures { result ≡ leads_status own.now theirs.now }
{
    let is_good = match own {
        [] => are_all_sure(theirs),
        [_, ..] => is_any_sure(own),
    };
    if is_good { Status::Yes } else { Status::No }
}

/// Whether the verdict of an entry says that the goal is reached.
pub(crate) fn has_sure(lead: &Lead) -> bool
    ensures { result ≡ has_sure lead.now }
{
    lead.verdict.is_sure()
}

/// Whether the verdict of some entry does.
pub(crate) fn is_any_sure(leads: &[Lead]) -> bool
    ensures { result ≡ list_any has_sure leads.now }
{
    leads.iter().any(has_sure)
}

// Whether the verdict of each entry does.
fn are_all_sure(leads: &[Lead]) -> bool
    ensures { result ≡ list_all has_sure leads.now }
{
    leads.iter().all(has_sure)
}

// Puts the lines of the owner's turns.
fn put_own<P: Page>(page: &mut P, leads: &[Lead], stops: &[Lead])
    ensures { Prints (own_lines leads.now stops.now) (P.stand page.old) (P.stand page.new) }
{
    match leads {
        [] => {}
        [lead, others @ ..] => match stops {
            [] => {
                put_own_line(page, lead, &None);
                put_own(page, others, &[]);
            }
            [stop, more @ ..] => {
                put_own_line(page, lead, &Some(*stop));
                put_own(page, others, more);
            }
        },
    }
}

// Puts the line of a turn of the owner.
fn put_own_line<P: Page>(page: &mut P, lead: &Lead, stop: &Option<Lead>)
    ensures { Prints (own_line lead.now stop.now) (P.stand page.old) (P.stand page.new) }
{
    put_move(page, lead.act.what);
    page.put(b": ");
    put_own_words(page, &lead.verdict);
    put_stop(page, stop);
    page.put(b"\n");
}

// Puts a verdict on a card of the owner.
fn put_own_words<P: Page>(page: &mut P, verdict: &LeadVerdict)
    ensures { Prints (own_words verdict.now) (P.stand page.old) (P.stand page.new) }
{
    match *verdict {
        LeadVerdict::Sure { nodes } => {
            page.put(b"sure");
            put_nodes(page, nodes);
        }
        LeadVerdict::Reached => page.put(b"sure: reaches the goal at once"),
        LeadVerdict::Missed | LeadVerdict::Beaten { .. } => put_short(page, &None, verdict),
    }
}

// Puts the nodes of a sure plan.
fn put_nodes<P: Page>(page: &mut P, nodes: usize)
    ensures { Prints (nodes_words nodes) (P.stand page.old) (P.stand page.new) }
{
    if nodes == 0 {
        page.put(b": nothing is left to decide");
    } else if nodes == 1 {
        page.put(b", 1 node");
    } else {
        page.put(b", ");
        put_len(page, nodes);
        page.put(b" nodes");
    }
}

// Puts the second column of a card.
fn put_stop<P: Page>(page: &mut P, stop: &Option<Lead>)
    ensures { Prints (stop_words stop.now) (P.stand page.old) (P.stand page.new) }
{
    if let Some(lead) = stop {
        page.put(b"; stop: ");
        put_stop_figure(page, &lead.verdict);
    }
}

// Puts that a plan is sure for the goal `stop`, or with how many deals one fails.
fn put_stop_figure<P: Page>(page: &mut P, verdict: &LeadVerdict)
    ensures { Prints (stop_figure verdict.now) (P.stand page.old) (P.stand page.new) }
{
    match *verdict {
        LeadVerdict::Sure { .. } | LeadVerdict::Reached => page.put(b"sure"),
        LeadVerdict::Missed => page.put(b"some"),
        LeadVerdict::Beaten { beaten, .. } => put_grouped(page, beaten),
    }
}

// Puts that a plan is sure, or how many deals beat one.
fn put_short<P: Page>(page: &mut P, after: &Option<Move>, verdict: &LeadVerdict)
    ensures { Prints (short_words after.now verdict.now) (P.stand page.old) (P.stand page.new) }
{
    match *verdict {
        LeadVerdict::Sure { .. } | LeadVerdict::Reached => page.put(b"sure"),
        LeadVerdict::Missed => {
            page.put(b"not sure; ");
            put_after(page, after);
            page.put(b"some deals miss the goal");
        }
        LeadVerdict::Beaten { beaten, open_deals } => {
            page.put(b"not sure; ");
            put_after(page, after);
            page.put(b"a plan fails with ");
            put_grouped(page, beaten);
            page.put(b" of ");
            put_grouped(page, open_deals);
            page.put(b" deals");
        }
    }
}

// Puts after which card a plan is made, if it is named.
fn put_after<P: Page>(page: &mut P, after: &Option<Move>)
    ensures { Prints (after_words after.now) (P.stand page.old) (P.stand page.new) }
{
    if let Some(what) = after {
        page.put(b"after ");
        put_move(page, *what);
        page.put(b" ");
    }
}

// Puts that the figures say little, and what is best to stop them, if more than half of the deals beat each of several
// cards.
fn put_little<P: Page>(page: &mut P, leads: &[Lead], stops: &[Lead])
    ensures { Prints (little_lines leads.now stops.now) (P.stand page.old) (P.stand page.new) }
{
    match leads {
        [] | [_] => {}
        [_, _, ..] => {
            if are_mostly_beaten(leads) {
                page.put(
                    b"More than half of the deals beat each of them, so their order says little.\n",
                );
                put_best(page, stops);
            }
        }
    }
}

// Puts the best card of the second column, if less than half of the deals are against it.
fn put_best<P: Page>(page: &mut P, stops: &[Lead])
    ensures { Prints (best_line stops.now) (P.stand page.old) (P.stand page.new) }
{
    if let [stop, others @ ..] = stops {
        let best = best_of(*stop, others);
        if HALF.is_worse(&best.verdict) {
            page.put(b"To stop them, the fewest deals beat a plan after ");
            put_move(page, best.act.what);
            page.put(b".\n");
        }
    }
}

// Returns the entry that the fewest deals are against, the first of equals.
fn best_of(best: Lead, leads: &[Lead]) -> Lead
    ensures { result ≡ best_of best leads.now }
{
    match leads {
        [] => best,
        [lead, others @ ..] => {
            if best.verdict.is_worse(&lead.verdict) {
                best_of(*lead, others)
            } else {
                best_of(best, others)
            }
        }
    }
}

// Whether more than half of the deals are against each verdict.
fn are_mostly_beaten(leads: &[Lead]) -> bool
    ensures { result ≡ list_all is_mostly_beaten leads.now }
{
    leads.iter().all(is_mostly_beaten)
}

// Whether more than half of the deals are against a verdict.
fn is_mostly_beaten(lead: &Lead) -> bool
    ensures { result ≡ is_mostly_beaten lead.now }
{
    lead.verdict.is_worse(&HALF)
}

// Puts the lines of the opponent's turns, below a heading.
fn put_all_theirs<P: Page>(page: &mut P, leads: &[Lead])
    ensures { Prints (their_lines leads.now) (P.stand page.old) (P.stand page.new) }
{
    match leads {
        [] => {}
        [_, ..] => {
            page.put(b"It is their turn. After what they may play:\n");
            put_theirs(page, leads);
        }
    }
}

// Puts the lines of the opponent's turns.
fn put_theirs<P: Page>(page: &mut P, leads: &[Lead])
    ensures { Prints (flat_map their_line leads.now) (P.stand page.old) (P.stand page.new) }
{
    for lead in leads {
        put_their_line(page, lead);
    }
}

// Puts the line of a rank or a card that the opponent may show, or of a go.
fn put_their_line<P: Page>(page: &mut P, lead: &Lead)
    ensures { Prints (their_line lead.now) (P.stand page.old) (P.stand page.new) }
{
    put_name(page, lead.is_rank, lead.act.what);
    page.put(b": ");
    put_short(page, &after_of(lead), &lead.verdict);
    page.put(b"\n");
}

// Puts the name of an entry.
fn put_name<P: Page>(page: &mut P, is_rank: bool, what: Move)
    ensures { Prints (their_name is_rank what) (P.stand page.old) (P.stand page.new) }
{
    if is_rank && let Move::Card(card) = what {
        put_letter(page, Letter::Seen(card.rank()));
    } else {
        put_move(page, what);
    }
}

// Returns the card after which a plan is made, if the entry is that of its rank.
fn after_of(lead: &Lead) -> Option<Move>
    ensures { result ≡ after_of lead.now }
{
    if lead.is_rank {
        Some(lead.act.what)
    } else {
        None
    }
}

// Puts how many deals beat the plan to try, if no plan is sure.
fn put_below<A: Allocator, P: Page>(page: &mut P, below: &Option<TriedPlan<A>>)
    ensures { Prints (below_text below.now) (P.stand page.old) (P.stand page.new) }
{
    if let Some(tried) = below {
        page.put(b"\nThe plan of cribsheet try");
        put_begins(page, tried.plan.nodes());
        page.put(b":\n");
        put_beating(page, &tried.tally, &tried.hands);
    }
}

// Puts the card with which a plan begins.
fn put_begins<P: Page>(page: &mut P, nodes: &[Node])
    ensures { Prints (begins_words nodes.now) (P.stand page.old) (P.stand page.new) }
{
    match nodes {
        [] => {}
        [first, ..] => put_first(page, first),
    }
}

// Puts the card that the first node plays.
fn put_first<P: Page>(page: &mut P, first: &Node)
    ensures { Prints (begins_words (first.now ∷ [])) (P.stand page.old) (P.stand page.new) }
{
    match *first {
        Node::Play { card, .. } => {
            page.put(b" begins with");
            put_card(page, card);
        }
        Node::See { .. } => {}
    }
}
