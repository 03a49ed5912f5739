//! The state: its journal is its meaning, and the table of slots follows from the journal.

ghost use Rattle.std.specs.Prelude.{◌≡◌, ◌<◌, ◌≤◌, ◌↔◌, ℕ, [], ◌∷◌, ◌++◌, IfOk, IfSome, IsTrue, MatchOption, None, length, slice_get, slice_index_or, vec_capacity};
ghost use Rattle.std.specs.Arc.{arc_value};
ghost use Rattle.drm_talk.specs.Limits.{full};
ghost use Rattle.drm_talk.specs.History.{shape_in};
ghost use Rattle.drm_cellmap.specs.Roadmap.{IsElement};
ghost use Rattle.drm_after.specs.After.{IsCountAfter, IsSnapAfter};
ghost use Rattle.drm_state.specs.Edit.{IsTaken, takes, after};

use crate::Op;
use crate::covered::covered_among;
use drm_cellmap::{Counts, Map, Snap};
use drm_foot::covered_cells;
use drm_outside::Memory;
use drm_shape::Shape;
use drm_talk::{Element, Entry, FULL, SLOTS};
use std::alloc::Global;
use std::marker::Model;
use std::sync::Arc;

/// A map with the journal of all edits accepted so far, and one optional obstacle in each slot.
#[derive(Debug, Drop)]
pub struct State {
    map: Arc<Map>,
    journal: Vec<Entry>,
    /// What each slot holds, up to the highest that was ever used.
    slots: Vec<Option<Shape>>,
}

impl Model for State {
    ghost use Rattle.std.specs.Prelude.{vec_capacity};
    ghost use Rattle.std.specs.Arc.{arc_value};
    ghost use Rattle.drm_state.specs.Scene.{Scene, IsKept};

    ghost Value = { Scene };

    ghost view = { λ state. record { map = arc_value state.map; journal = state.journal.items } };

    ghost invariant = { λ state. IsKept state.journal.items state.slots.items
        (vec_capacity state.journal) (vec_capacity state.slots) };
}

impl State {
    /// The state of a map before the first edit: all slots are empty. It takes the room for all edits at once.
    pub fn new(alloc: Global, map: Arc<Map>) -> Result<State, Memory>
        ensures map { IfOk result (λ state. state.map ≡ arc_value map) }
        ensures journal { IfOk result (λ state. state.journal ≡ []) }
    {
        let journal = Vec::with_capacity(alloc, FULL as usize)?;
        let slots = Vec::with_capacity(alloc, SLOTS as usize)?;
        Ok(State {
            map,
            journal,
            slots,
        })
    }

    /// Adds the edit to the journal. Where the journal is full, the slot is `SLOTS` or more, or the footprint is of
    /// another grid, nothing changes. It takes no memory.
    pub fn apply(&mut self, op: &Op)
        ensures map { self.new.map ≡ self.old.map }
        ensures taken { IsTaken self.old op.now → self.new.journal ≡ self.old.journal ++ op.now.entry ∷ [] }
        ensures refused { ¬ IsTaken self.old op.now → self.new.journal ≡ self.old.journal }
        ensures after { self.new ≡ after self.old op.now }
    {
        if self.takes(op) {
            let place = op.entry.slot as usize;
            lengthen(&mut self.slots, place);
            self.slots[place] = op.entry.shape;
            self.journal.push_reserved(op.entry);
        }
    }

    /// How many cells of the element's stored sweep are occupied after the journal. `None` exactly where the map lacks
    /// the element. It takes no memory.
    pub fn count(&self, e: Element) -> Option<u32>
        ensures there { MatchOption result (¬ IsElement self.now.map e) (λ _. IsElement self.now.map e) }
        ensures count { IfSome result (IsCountAfter self.now.map self.now.journal e) }
    {
        match self.map.index(e) {
            Some(_) => Some(covered_among(self.map.grid(), &self.slots, self.map.stored(e))),
            None => None,
        }
    }

    /// The length of the journal.
    pub fn number(&self) -> u32
        ensures exact { result ≡ length self.now.journal }
        ensures within { result ≤ full }
    {
        self.journal.len() as u32
    }

    /// What a slot holds. `None` exactly where it is empty or no slot.
    pub fn slot(&self, s: u16) -> Option<Shape>
        ensures { result ≡ shape_in self.now.journal s }
    {
        let place = s as usize;
        if place < self.slots.len() {
            self.slots[place]
        } else {
            None
        }
    }

    /// The entry at a place of the journal, from 0. `None` exactly where the journal is shorter.
    pub fn entry(&self, i: u32) -> Option<Entry>
        ensures { result ≡ slice_get self.now.journal i }
    {
        self.journal.get(i as usize).copied()
    }

    /// A copy of the journal.
    pub fn journal(&self, alloc: Global) -> Result<Vec<Entry>, Memory>
        ensures { IfOk result (λ journal. journal.items ≡ self.now.journal) }
    {
        Ok(self.journal.as_slice().to_vec(alloc)?)
    }

    /// The journal's length, the cells that are occupied after it, and the elements that these bar.
    pub fn snap(&self, alloc: Global) -> Result<Snap, Memory>
        ensures { IfOk result (IsSnapAfter self.now.map self.now.journal) }
    {
        let occupied = covered_cells(alloc, self.map.grid(), &self.slots)?;
        let counts = Counts::of(alloc, &self.map, &occupied)?;
        Snap::of(alloc, &self.map, self.number(), occupied, &counts)
    }

    fn takes(&self, op: &Op) -> bool
        ensures taken { IsTrue result ↔ IsTaken self.now op.now }
        ensures test { result ≡ takes self.now op.now }
    {
        let fits = match &op.foot {
            Some(foot) => foot.grid() == *self.map.grid(),
            None => true,
        };
        fits && self.number() < FULL && op.entry.slot < SLOTS
    }
}

/// Lengthens the table with empty slots until it has this place. It takes no memory.
fn lengthen(table: &mut Vec<Option<Shape>>, place: usize)
    requires { place < vec_capacity table.old }
    ensures reached { place < length table.new.items }
    ensures same { (slot : ℕ) → slice_index_or table.new.items slot None ≡ slice_index_or table.old.items slot None }
    ensures capacity { vec_capacity table.new ≡ vec_capacity table.old }
{
    while table.len() <= place {
        table.push_reserved(None);
    }
}
