use crate::asserts::{ensure, same, same_at};
use crate::reading::{card, counted, dealt, four, number, parts, set, two};
use crib_cards::{CardSet, Scores, Side};
use crib_show::*;
use std::process::Abort;

mod counts;
mod kept;
mod totals;

const ACES: &str = "AC AD AH AS";

fn row(crib: bool, side: Side, points: u8, owner: u8, opponent: u8) -> ShowRow {
    ShowRow {
        crib,
        side,
        points,
        scores: Scores { owner, opponent },
    }
}

// checks rows, each with the four cards of a hand, the starter, and the points
fn hands_count(rt: &impl Abort, rows: &str) {
    for row in rows.lines() {
        let (cards, points) = parts(rt, row, ": ");
        let (hand, starter) = parts(rt, cards, ", ");
        let found = hand_points(&four(rt, hand), card(rt, starter));
        same_at(rt, row, found, number(rt, points));
    }
}

#[test]
fn counts_hands(rt: HostRuntime) {
    // the best hand, and four fives with a jack as the starter
    hands_count(&rt, "5C 5D 5S JH, 5H: 29\n5C 5D 5S 5H, JC: 28");
    // the jack counts only in the starter's suit
    hands_count(&rt, "5C 5D 5S JH, 4C: 14\n5C 5D 5S JH, 4H: 15");
    let hands_of_24 = "4C 5D 5H 6S, 6C: 24\n4C 4D 5H 5S, 6C: 24\n7C 7D 8H 8S, 9C: 24\n\
        6C 7D 7H 8S, 8C: 24\n3C 3D 3H 3S, 9C: 24";
    hands_count(&rt, hands_of_24);
    // double double, triple, double of four, double of three, and one of five
    let runs = "TC TD JH JS, QC: 16\nJC JD JH QS, KS: 15\nTC JD QH KS, KC: 10\n\
        TC JD QH QS, AC: 8\n2C 3D 4H 5S, 6C: 9";
    hands_count(&rt, runs);
    // three of a kind, with fifteens of three cards
    hands_count(&rt, "3C 3D 6H 6S, 6C: 20\nAC AD 7H 7S, 8C: 12");
    // no points, and no run from the king to the ace
    hands_count(&rt, "2C 4D 6H 8S, KC: 0\nQC KD AH 2S, 8C: 0");
}

fn flush_counts(rt: &impl Abort, starter: &str, hand: u8, crib: u8) {
    let cards = four(rt, "2C 4C 6C 8C");
    same(rt, hand_points(&cards, card(rt, starter)), hand);
    same(rt, crib_points(&cards, card(rt, starter)), crib);
}

#[test]
fn counts_flushes(rt: HostRuntime) {
    flush_counts(&rt, "TD", 4, 0);
    flush_counts(&rt, "TC", 5, 5);
}

// a deal of the opponent's with the target 121
fn full(rt: &impl Abort, owner: u8, opponent: u8, starter: &str, own: &str, opp: &str) -> Full {
    let (hold, throw) = parts(rt, own, ", ");
    Full {
        dealer: Side::Opponent,
        scores: Scores { owner, opponent },
        target: 121,
        starter: card(rt, starter),
        own_hold: four(rt, hold),
        own_throw: two(rt, throw),
        opp: dealt(rt, opp),
        stop: false,
    }
}

// the owner holds four twos
fn twos_and(rt: &impl Abort, dealer: Side, owner: u8, opponent: u8, target: u8, opp: &str) -> Full {
    Full {
        dealer,
        target,
        ..full(rt, owner, opponent, "KD", "2C 2D 2H 2S, 4C 6D", opp)
    }
}

// checks the rows and the outcome of a deal
fn shows(rt: &impl Abort, full: &Full, rows: &[ShowRow], outcome: Outcome) {
    same(rt, show_rows(full).as_slice(), rows);
    same(rt, settle(full), outcome);
}

#[test]
fn stops_at_the_hand_that_decides(rt: HostRuntime) {
    let full = twos_and(&rt, Side::Owner, 109, 109, 121, "AC AD AH AS, 3C 3D");
    let rows = [row(false, Side::Opponent, 12, 109, 121)];
    shows(&rt, &full, &rows, Outcome::Lost);

    let full = twos_and(&rt, Side::Opponent, 0, 1, 12, "AC AD AH AS, 3C 3D");
    let rows = [row(false, Side::Owner, 12, 12, 1)];
    shows(&rt, &full, &rows, Outcome::Reached);
}

#[test]
fn counts_both_throws_in_the_crib(rt: HostRuntime) {
    let full = twos_and(&rt, Side::Owner, 101, 0, 114, "AC AD AH AS, 3C 7C");
    let rows = [
        row(false, Side::Opponent, 12, 101, 12),
        row(false, Side::Owner, 12, 113, 12),
        row(true, Side::Owner, 0, 113, 12),
    ];
    shows(&rt, &full, &rows, Outcome::Short);

    let full = twos_and(&rt, Side::Owner, 101, 0, 114, "AC AD AH AS, 3C 3D");
    same(&rt, settle(&full), Outcome::Reached);
}

// checks a deal in which the owner falls short: the points of the owner's hand, the opponent's hand and the crib, each
// with the scores after it
fn falls_short(rt: &impl Abort, full: &Full, counted: [(u8, u8, u8); 3]) {
    let [own, opp, crib] = counted;
    let rows = [
        row(false, Side::Owner, own.0, own.1, own.2),
        row(false, Side::Opponent, opp.0, opp.1, opp.2),
        row(true, Side::Opponent, crib.0, crib.1, crib.2),
    ];
    shows(rt, full, &rows, Outcome::Short);
}

#[test]
fn shows_both_hands_and_the_crib(rt: HostRuntime) {
    let full = full(&rt, 2, 4, "3H", "TC 9C 2C 8C, 4S 6S", "TD KD KH QS, 5H 7D");
    falls_short(&rt, &full, [(9, 11, 4), (2, 11, 6), (9, 11, 15)]);
}

#[test]
fn counts_a_flush_of_the_hand_in_the_show(rt: HostRuntime) {
    let full = full(&rt, 1, 2, "2H", "TC KC 4C 3C, 5S 6S", "QD 9D 7D 8D, AH JD");
    falls_short(&rt, &full, [(11, 12, 2), (9, 12, 11), (2, 12, 13)]);
}

#[test]
fn counts_nothing_where_the_scores_decide(rt: HostRuntime) {
    let full = twos_and(&rt, Side::Opponent, 100, 121, 121, "AC AD AH AS, 3C 3D");
    shows(&rt, &full, &[], Outcome::Lost);

    let full = twos_and(&rt, Side::Opponent, 12, 4, 12, "AC AD AH AS, 3C 3D");
    shows(&rt, &full, &[], Outcome::Reached);
}

// the owner holds four twos. The opponent holds four cards of these ranks, and some of them may be fixed
fn twos_against(
    rt: &impl Abort,
    starter: &str,
    throw: &str,
    ranks: &str,
    fixed: &str,
) -> WorstShow {
    let starter = card(rt, starter);
    let own_hold = four(rt, "2C 2D 2H 2S");
    let own_throw = two(rt, throw);
    let unseen = CardSet::full()
        .without(starter)
        .without_all(&own_hold)
        .without_all(&own_throw);
    WorstShow {
        dealer: Side::Opponent,
        scores: Scores {
            owner: 0,
            opponent: 0,
        },
        target: 121,
        starter,
        own_hold,
        own_throw,
        ranks: counted(rt, ranks),
        unseen,
        fixed: set(rt, fixed),
        stop: false,
    }
}

// the same cards with the dealer, the owner's score, the opponent's and the target of a row
fn at_scores(rt: &impl Abort, worst: &WorstShow, row: &str) -> WorstShow {
    let (dealer, numbers) = parts(rt, row, " ");
    let (owner, numbers) = parts(rt, numbers, " ");
    let (opponent, target) = parts(rt, numbers, " ");
    let mut other = *worst;
    other.dealer = if dealer == "owner" {
        Side::Owner
    } else {
        Side::Opponent
    };
    other.scores.owner = number(rt, owner);
    other.scores.opponent = number(rt, opponent);
    other.target = number(rt, target);
    other
}

// checks the first failure of a row, which is after the colon
fn fails_first(rt: &impl Abort, worst: &WorstShow, row: &str) {
    let (scores, failure) = parts(rt, row, ": ");
    let other = at_scores(rt, worst, scores);
    ensure(rt, other.has_deal());
    if failure == "none" {
        ensure(rt, other.first_failure().is_none());
    } else {
        same(rt, other.first_failure(), Some(dealt(rt, failure)));
    }
}

#[test]
fn finds_the_first_failure(rt: HostRuntime) {
    let worst = twos_against(&rt, "KD", "4C 6D", ACES, "");

    // the pone has twelve points, whatever is hidden
    fails_first(&rt, &worst, "opponent 0 0 12: none");
    fails_first(&rt, &worst, "opponent 0 0 13: AC AD AH AS, 3C 3D");

    // the dealer needs a point of the crib, and each throw before this one makes a pair or a run
    fails_first(&rt, &worst, "owner 101 0 114: AC AD AH AS, 3C 7C");
    fails_first(&rt, &worst, "owner 101 0 113: none");

    // the pone's hand is counted first
    fails_first(&rt, &worst, "owner 108 109 121: AC AD AH AS, 3C 3D");
}

#[test]
fn finds_the_first_failure_of_cards_that_are_known(rt: HostRuntime) {
    let worst = twos_against(&rt, "KD", "4C 6D", "AC 3C 5C 9C", "5S");
    fails_first(&rt, &worst, "opponent 0 0 121: AC 3C 5S 9C, AD AH");
    let worst = twos_against(&rt, "KD", "4C 6D", "AC 3C 5C 9C", "7S");
    ensure(&rt, !worst.has_deal());
}

#[test]
fn finds_the_first_deal_that_is_not_stopped(rt: HostRuntime) {
    let mut worst = twos_against(&rt, "KD", "4C 6D", ACES, "");
    worst.stop = true;
    // the opponent gets twelve points for the hand and sixteen for the crib
    fails_first(&rt, &worst, "opponent 0 93 121: AC AD AH AS, 5C 5D");
    fails_first(&rt, &worst, "opponent 0 0 121: none");
}

#[test]
fn finds_the_first_failure_of_a_dealer(rt: HostRuntime) {
    let mut worst = twos_against(&rt, "KD", "4C 6D", ACES, "");

    // the pone reaches 121 with a hand of twelve, or falls short and the owner's crib scores nothing
    fails_first(&rt, &worst, "owner 101 109 114: AC AD AH AS, 3C 3D");
    fails_first(&rt, &worst, "owner 101 108 114: AC AD AH AS, 3C 7C");

    // if the goal is only to stop the opponent, the owner needs no crib
    worst.stop = true;
    fails_first(&rt, &worst, "owner 101 109 121: AC AD AH AS, 3C 3D");
    fails_first(&rt, &worst, "owner 101 108 121: none");
}

#[test]
fn finds_no_failure_where_each_crib_does(rt: HostRuntime) {
    // a pair of fives and two fifteens with the starter make six points whatever the opponent throws
    let worst = twos_against(&rt, "KD", "5C 5D", ACES, "");
    fails_first(&rt, &worst, "owner 100 0 118: none");
    let short = at_scores(&rt, &worst, "owner 100 0 119");
    ensure(&rt, short.has_deal());
    ensure(&rt, short.first_failure().is_some());
}

fn worst_hand_is(rt: &impl Abort, starter: &str, ranks: &str, fixed: &str, points: u8) {
    let worst = twos_against(rt, starter, "4C 6D", ranks, fixed);
    ensure(rt, worst.has_deal());
    same(rt, worst.worst_hand(), points);
}

fn least_crib_is(rt: &impl Abort, starter: &str, throw: &str, points: u8) {
    let worst = twos_against(rt, starter, throw, ACES, "");
    ensure(rt, worst.has_deal());
    same(rt, worst.least_crib(), points);
}

#[test]
fn counts_the_worst_hand_and_the_least_crib(rt: HostRuntime) {
    let odd = "AC 3C 5C 9C";
    let fives = "5C 5C 5C JC";
    worst_hand_is(&rt, "KD", ACES, "", 12);
    // two fifteens, and five diamonds, or four cards of another suit
    worst_hand_is(&rt, "KD", odd, "", 9);
    worst_hand_is(&rt, "KD", odd, "AC", 8);
    worst_hand_is(&rt, "KD", odd, "AC 3D", 4);
    worst_hand_is(&rt, "KD", fives, "", 21);
    worst_hand_is(&rt, "5H", fives, "", 29);
    least_crib_is(&rt, "KD", "4C 6D", 0);
    least_crib_is(&rt, "5H", "5C 5D", 8);
}
