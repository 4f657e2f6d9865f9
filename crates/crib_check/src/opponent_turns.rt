//! A table that keeps the positions in which the opponent is to move.
ghost use Rattle.std.specs.Prelude.{◌≡◌, ◌⊎◌, ◌↔◌, IsTrue, OnOk, OnErr};
ghost use Rattle.crib_play.specs.declared.turns.Turn.TheVariants as turns;
ghost use Rattle.crib_know.specs.Hidden.{IsKnown};
ghost use Rattle.crib_sure.specs.declared.keys.Key.{Key};

use crate::key_sets::KeySet;
use crate::tables::{NoMemory, Settled};
use crib_play::Turn;
use crib_sure::Key;
use std::alloc::{Allocator, Global};

/// A table that keeps the keys in which the opponent is to move, unless an allocation fails. It drops the others.
///
/// Where the owner is to move, the plan has one way on. So a walk from there soon meets a position that the table has,
/// if it was there before. It takes little longer than with a [`KeySet`], and the table has fewer keys.
#[derive(Drop)]
pub struct OpponentTurns<A: Allocator = Global> {
    kept: KeySet<A>,
}

impl<A: Allocator + Copy> OpponentTurns<A> {
    /// Returns an empty table. It allocates no memory before the first key is put.
    pub fn new(alloc: A) -> OpponentTurns<A>
        ensures { (key : Key) → ⟦<OpponentTurns<A> as Settled>⟧.holds result key → ⊥ }
    {
        OpponentTurns {
            kept: KeySet::new(alloc),
        }
    }
}

impl<A: Allocator + Copy> Settled for OpponentTurns<A> {
    ghost holds = { λ table key. (key.know.round.asked ≡ turns.Opponent)
        × ⟦<KeySet<A> as Settled>⟧.holds table.kept key };

    /// Whether the key is held. The table holds only keys in which the opponent is to move.
    fn has(&self, key: &Key) -> bool
        ensures { IsTrue result ↔ ⟦<OpponentTurns<A> as Settled>⟧.holds self.now key.now }
    {
        key.know.turn() == Turn::Opponent && self.kept.has(key)
    }

    /// Puts a key in which the opponent is to move, and drops another one. A put that fails changes nothing.
    fn put(&mut self, key: Key) -> Result<(), NoMemory>
        ensures held { IsKnown key.know → (other : Key) → IsKnown other.know
            → ⟦<OpponentTurns<A> as Settled>⟧.holds self.new other
            → ⟦<OpponentTurns<A> as Settled>⟧.holds self.old other ⊎ (other ≡ key) }
        ensures refused { OnErr result ((other : Key) → ⟦<OpponentTurns<A> as Settled>⟧.holds self.new other
            ↔ ⟦<OpponentTurns<A> as Settled>⟧.holds self.old other) }
        ensures stays { (other : Key) → ⟦<OpponentTurns<A> as Settled>⟧.holds self.old other
            → ⟦<OpponentTurns<A> as Settled>⟧.holds self.new other }
        ensures kept { OnOk result (key.know.round.asked ≡ turns.Opponent
            → ⟦<OpponentTurns<A> as Settled>⟧.holds self.new key) }
    {
        if key.know.turn() == Turn::Opponent {
            self.kept.put(key)
        } else {
            Ok(())
        }
    }

    /// Drops every key.
    fn clear(&mut self) {
        self.kept.clear();
    }
}
