use crate::check::is_verdict;
use crate::check::rows::{
    BEGUN_ROWS, FOUR_TWOS, LOST, Row, SHORT, STATED_TWICE, STOPPING, STUCK, SURE,
};
use crate::same;
use crate::sections::{lines, plan, problem};
use crib_cards::{Card, Rank};
use crib_check::*;
use crib_know::Know;
use crib_plan::{Next, read_plan, start};
use crib_play::Turn;
use crib_problem::Problem;
use example_texts::plans::TWOS;
use example_texts::problems::TWELVE;
use refusing_alloc::Refusing;
use std::alloc::{Allocator, Global};
use std::cell::RefCell;
use std::process::Abort;

/// The position at the start of the four twos.
fn first_key(rt: &(impl Abort + AllocGlobal)) -> Key {
    Key {
        know: Know::start(&problem(rt, TWELVE)),
        place: start(&plan(rt, TWOS)),
    }
}

/// Asserts that a key can be put, and whether the table then has it.
fn puts<T: Settled>(rt: &impl Abort, table: &mut T, key: &Key, is_kept: bool) {
    same(rt, table.put(copied(key)), Ok(()));
    same(rt, table.has(key), is_kept);
}

#[test]
fn keeps_keys(rt: HostRuntime) {
    let key = first_key(&rt);
    let mut set = KeySet::new(rt.alloc());
    same(&rt, set.has(&key), false);
    puts(&rt, &mut set, &key, true);
    set.clear();
    same(&rt, set.has(&key), false);
    come_out_with(&rt, &FOUR_TWOS, &mut set);
    same(&rt, set.has(&key), true);
}

/// A table that refuses none of the puts, every second one, or all. It notices a key that is put twice, or that was put
/// before it was looked up.
#[derive(Drop)]
struct Watched {
    set: KeySet<Global>,
    asked: RefCell<KeySet<Global>>,
    refuses: Refuses,
    puts: u32,
    refused: bool,
    twice: bool,
    unasked: bool,
}

#[derive(Clone, Copy, PartialEq, Eq)]
enum Refuses {
    None,
    EverySecond,
    All,
}

impl Watched {
    fn new(alloc: Global, refuses: Refuses) -> Watched {
        Watched {
            set: KeySet::new(alloc),
            asked: RefCell::new(KeySet::new(alloc)),
            refuses,
            puts: 0,
            refused: false,
            twice: false,
            unasked: false,
        }
    }
}

impl Settled for Watched {
    ghost holds = { λ table key. ⟦<KeySet<Global> as Settled>⟧.holds table.set key };

    fn has(&self, key: &Key) -> bool {
        if self.refuses == Refuses::None
            && let Ok(mut asked) = self.asked.try_borrow_mut()
        {
            let _ = asked.put(copied(key));
        }
        self.set.has(key)
    }

    fn put(&mut self, key: Key) -> Result<(), NoMemory> {
        self.puts = self.puts.saturating_add(1);
        self.refused = match self.refuses {
            Refuses::None => false,
            Refuses::EverySecond => !self.refused,
            Refuses::All => true,
        };
        if self.refused {
            return Err(NoMemory);
        }
        let watches = self.refuses == Refuses::None;
        let was_asked = self.asked.get_mut().has(&key);
        let is_held = self.set.has(&key);
        self.unasked |= watches && !was_asked;
        self.twice |= watches && is_held;
        self.set.put(key)
    }

    fn clear(&mut self) {
        self.set.clear();
    }
}

/// The number of positions of the four twos whose deal is not done. In 1,575 of them the owner is to move. The walk of
/// `bench/positions`, which shares no code with this one, visits as many.
const POSITIONS: u32 = 3470;

#[test]
fn settles_each_position_after_it_was_asked_for_and_once(rt: HostRuntime) {
    let mut table = Watched::new(rt.alloc(), Refuses::None);
    come_out_with(&rt, &FOUR_TWOS, &mut table);
    same(&rt, table.twice, false);
    same(&rt, table.unasked, false);
    same(&rt, table.puts, POSITIONS);
}

/// Checks the verdict of each row with this table.
fn come_out_with<T: Settled>(rt: &(impl Abort + AllocGlobal), rows: &[Row], table: &mut T) {
    for row in rows {
        let (of, by, _) = *row;
        let verdict = check_with(&problem(rt, of), &plan(rt, by), table);
        is_verdict(rt, *row, &verdict);
    }
}

/// Checks the verdicts of all rows with this one table, row after row.
fn all_come_out_with<T: Settled>(rt: &(impl Abort + AllocGlobal), table: &mut T) {
    come_out_with(rt, &SURE, table);
    come_out_with(rt, &SHORT, table);
    come_out_with(rt, &LOST, table);
    come_out_with(rt, &STUCK, table);
    come_out_with(rt, &BEGUN_ROWS, table);
    come_out_with(rt, &STOPPING, table);
}

#[test]
fn names_the_game_that_falls_short_with_a_set_of_keys(rt: HostRuntime) {
    come_out_with(&rt, &SHORT, &mut KeySet::new(rt.alloc()));
}

#[test]
fn forgets_the_keys_of_another_plan(rt: HostRuntime) {
    let mut table = KeySet::new(rt.alloc());
    come_out_with(&rt, &FOUR_TWOS, &mut table);
    come_out_with(&rt, &STATED_TWICE, &mut table);
}

#[test]
fn answers_the_same_with_a_set_of_keys(rt: HostRuntime) {
    all_come_out_with(&rt, &mut KeySet::new(rt.alloc()));
}

#[test]
fn answers_the_same_with_the_opponents_turns_alone(rt: HostRuntime) {
    all_come_out_with(&rt, &mut OpponentTurns::new(rt.alloc()));
}

#[test]
fn answers_the_same_where_every_second_put_is_refused(rt: HostRuntime) {
    all_come_out_with(&rt, &mut Watched::new(rt.alloc(), Refuses::EverySecond));
}

#[test]
fn answers_the_same_where_every_put_is_refused(rt: HostRuntime) {
    all_come_out_with(&rt, &mut Watched::new(rt.alloc(), Refuses::All));
}

/// A table that keeps every key, and counts how often one of them is put.
#[derive(Drop)]
struct Counting {
    set: KeySet<Global>,
    wanted: Key,
    met: u32,
}

impl Settled for Counting {
    ghost holds = { λ table key. ⟦<KeySet<Global> as Settled>⟧.holds table.set key };

    fn has(&self, key: &Key) -> bool {
        self.set.has(key)
    }

    fn put(&mut self, key: Key) -> Result<(), NoMemory> {
        let met = if key == self.wanted { 1 } else { 0 };
        self.met = self.met.saturating_add(met);
        self.set.put(key)
    }

    fn clear(&mut self) {
        self.set.clear();
    }
}

/// The owner, who is to move, plays a card of theirs that fits.
fn own_play(rt: &impl Abort, know: &mut Know, card: Card) {
    assert!(rt; know.turn() == Turn::Owner);
    assert!(rt; know.own_left().has(card) && know.round().fits(card.rank()));
    know.own_play(card);
}

/// The opponent plays a card of the rank with this number, as they can.
fn opponent_plays(rt: &impl Abort, know: &mut Know, number: u8) {
    let rank = Rank::new(number).expect(rt, "a rank");
    assert!(rt; know.can_play(rank));
    know.saw_play(rank);
}

/// The position of `TWELVE` after three twos of the owner, each answered by a card of the opponent.
fn after_three(rt: &impl Abort, answers: [u8; 3]) -> Key {
    let problem = problem(rt, TWELVE);
    let mut know = Know::start(&problem);
    let [first, second, third, _] = problem.hold();
    let [to_first, to_second, to_third] = answers;
    own_play(rt, &mut know, first);
    opponent_plays(rt, &mut know, to_first);
    own_play(rt, &mut know, second);
    opponent_plays(rt, &mut know, to_second);
    own_play(rt, &mut know, third);
    opponent_plays(rt, &mut know, to_third);
    Key {
        know,
        place: Next::To(3),
    }
}

#[test]
fn settles_a_position_once_however_it_is_reached(rt: HostRuntime) {
    let wanted = after_three(&rt, [10, 9, 6]);
    assert!(rt; wanted == after_three(&rt, [9, 10, 6]));
    assert!(rt; wanted != after_three(&rt, [9, 10, 5]));
    let mut table = Counting {
        set: KeySet::new(rt.alloc()),
        wanted,
        met: 0,
    };
    come_out_with(&rt, &FOUR_TWOS, &mut table);
    same(&rt, table.met, 1);
}

// An equal key.
fn copied(key: &Key) -> Key {
    Key {
        know: key.know.copy(),
        place: key.place,
    }
}

/// The first position of the problem, at this node of a plan.
fn key_at(of: &Problem, node: u16) -> Key {
    Key {
        know: Know::start(of),
        place: Next::To(node),
    }
}

#[test]
fn keeps_the_opponents_turns_and_drops_the_others(rt: HostRuntime) {
    let mut table = OpponentTurns::new(rt.alloc());
    let mut key = after_three(&rt, [10, 9, 6]);
    puts(&rt, &mut table, &key, false);
    let [_, _, _, last] = problem(&rt, TWELVE).hold();
    own_play(&rt, &mut key.know, last);
    assert!(rt; key.know.turn() == Turn::Opponent);
    same(&rt, table.has(&key), false);
    puts(&rt, &mut table, &key, true);
    table.clear();
    same(&rt, table.has(&key), false);
}

/// Puts the key of a node after those of the nodes before it. A put that is refused leaves them as they were, and the
/// key can be put again.
fn put_next<A: Allocator + Copy>(
    rt: &impl Abort,
    set: &mut KeySet<A>,
    heap: &Refusing<Global>,
    of: &Problem,
    node: u16,
) {
    if set.put(key_at(of, node)).is_err() {
        same(rt, heap.has_refused(), true);
        for other in 0..40u16 {
            same(rt, set.has(&key_at(of, other)), other < node);
        }
        same(rt, set.put(key_at(of, node)), Ok(()));
    }
    same(rt, set.has(&key_at(of, node)), true);
}

#[test]
fn a_refused_put_leaves_the_keys_as_they_were(rt: HostRuntime) {
    let problem = problem(&rt, TWELVE);
    for served in 0..50 {
        let heap = Refusing::after(rt.alloc(), served);
        let mut set = KeySet::new(&heap);
        for node in 0..40u16 {
            put_next(&rt, &mut set, &heap, &problem, node);
        }
        if !heap.has_refused() {
            assert!(rt; served > 2);
            return;
        }
    }
    panic!(rt; "more growths than 50")
}

// The plan takes one allocation. The next one is for the table.
#[test]
fn asks_for_memory_for_a_table_of_its_own(rt: HostRuntime) {
    let problem = problem(&rt, TWELVE);
    let heap = Refusing::after(rt.alloc(), 1);
    let plan = read_plan(&heap, &mut lines(&rt, TWOS)).expect(&rt, "a plan");
    same(&rt, heap.has_refused(), false);
    assert!(rt; verdict_on(&heap, &problem, &plan) == Verdict::Holds);
    same(&rt, heap.has_refused(), true);
}
