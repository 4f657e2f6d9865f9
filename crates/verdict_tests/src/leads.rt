//! What may be played next, and what is after each such turn.
use crate::same;
use crate::sections::problem;
use crib_cards::{Act, Move, Side};
use crib_leads::{LeadVerdict, leads_of};
use std::process::Abort;

/// The owner has three eights, and the opponent is eleven holes from 121.
const EIGHTS: &str =
    "problem 1\ndealer opponent\nscore 109 110\nstarter 5S\nhold 2S 8D 8H 8S\nthrow KS QS\ngoal win\n";

/// A hole is left to the owner, and 8C and 7D make fifteen.
const AT_120: &str =
    "problem 2\ndealer owner\nscore 120 100\nstarter KC\nhold AC 7D 9H JS\nthrow 2C QD\ngoal win\nplayed 1\nopp 8C\n";

/// The count is 28 after 9H TD 8S AC, and 7S and 9D are left to the owner.
const AT_28: &str =
    "problem 2\ndealer owner\nscore 118 100\nstarter 9C\nhold AC 7S 9D TD\nthrow JH KD\ngoal win\n\
     played 4\nopp 9H\nown TD\nopp 8S\nown AC\n";

/// The number of a card, or 52 for a go.
fn number_of(act: &Act) -> u8 {
    match act.what {
        Move::Card(card) => card.number(),
        Move::Go => 52,
    }
}

/// Asserts which turns of a side may come next, with what is after each.
fn leads(rt: &(impl Abort + AllocGlobal), of: &str, side: Side, wanted: &[(u8, LeadVerdict)]) {
    let Ok(found) = leads_of(rt.alloc(), &problem(rt, of), &mut None) else {
        panic!(rt; "memory");
    };
    let (some, none) = match side {
        Side::Owner => (&found.own, &found.theirs),
        Side::Opponent => (&found.theirs, &found.own),
    };
    same(rt, none.len(), 0);
    same(rt, some.len(), wanted.len());
    for (lead, (number, verdict)) in some.iter().zip(wanted.iter()) {
        assert!(rt; lead.act.side == side);
        same(rt, number_of(&lead.act), *number);
        same(rt, lead.verdict, *verdict);
    }
}

#[test]
fn each_eight_is_sure(rt: HostRuntime) {
    let two = LeadVerdict::Beaten {
        beaten: 39_360,
        open_deals: 122_175_900,
    };
    let eight = LeadVerdict::Sure { nodes: 10 };
    leads(
        &rt,
        EIGHTS,
        Side::Owner,
        &[(7, two), (29, eight), (30, eight), (31, eight)],
    );
}

#[test]
fn the_seven_reaches_the_goal(rt: HostRuntime) {
    let sure = |nodes| LeadVerdict::Sure { nodes };
    let wanted = [
        (0, sure(18)),
        (25, LeadVerdict::Reached),
        (34, sure(16)),
        (43, sure(14)),
    ];
    leads(&rt, AT_120, Side::Owner, &wanted);
}

#[test]
fn the_opponent_plays_a_low_card_or_says_go(rt: HostRuntime) {
    let played = LeadVerdict::Sure { nodes: 2 };
    let go = (52, LeadVerdict::Sure { nodes: 4 });
    let wanted = [(1, played), (4, played), (8, played), go];
    leads(&rt, AT_28, Side::Opponent, &wanted);
}
