//! The core.

ghost use Rattle.std.specs.Prelude.{◌≡◌, ◌+◌, ◌<◌, ◌≤◌, ◌↔◌, ℕ, [], ◌∷◌, ◌++◌, All, IfErr, IfOk, IfSome, None, OnErr, OnOk, length, take, ◌==◌, if◌then◌else◌};
ghost use Rattle.std.specs.Arc.{arc_value};
ghost use Rattle.drm_shape.specs.Validity.{IsValid};
ghost use Rattle.drm_talk.specs.History.{shape_in};
ghost use Rattle.drm_talk.specs.Limits.{full};
ghost use Rattle.drm_after.specs.After.{IsSnapAfter};
ghost use Rattle.drm_core.specs.Limits.{most_callers};
ghost use Rattle.drm_core.specs.Machine.{beginning, added, refusal, may_see, answer, after, answers, MayCome, IsRefusal};

use crate::table::table_of;
use crate::{CoreFault, Event, Told};
use drm_cellmap::{Counts, Map, Snap};
use drm_foot::covered_cells;
use drm_outside::{List, Memory};
use drm_shape::Shape;
use drm_talk::{Entry, FULL, SLOTS};
use std::alloc::Global;
use std::marker::Model;
use std::sync::Arc;

/// A history of edits, and for each caller how many of them it has seen. Nothing is counted ahead: every snapshot is
/// made anew from the shapes that stand.
#[derive(Debug, Drop)]
pub struct Core {
    map: Arc<Map>,
    history: Vec<Entry>,
    seen: Vec<u32>,
}

impl Model for Core {
    ghost use Rattle.std.specs.Arc.{arc_value};
    ghost use Rattle.drm_core.specs.Machine.{Machine, IsKept};

    ghost Value = { Machine };

    ghost view = { λ core. record { map = arc_value core.map; history = core.history.items; seen = core.seen.items } };

    ghost invariant = { λ core. IsKept core.history.items };
}

impl Core {
    /// A core over the map with an empty history, of which each of so many callers, from one to eight, has seen nothing.
    pub fn new(alloc: Global, map: Arc<Map>, callers: u32) -> Result<Core, Memory>
        requires some { 0 < callers }
        requires few { callers ≤ most_callers }
        ensures { IfOk result (λ core. core ≡ beginning (arc_value map) callers) }
    {
        let mut seen = Vec::new(alloc);
        for _i in 0..callers {
            seen.push(0)?;
        }
        Ok(Core {
            map,
            history: Vec::new(alloc),
            seen,
        })
    }

    /// Adds the entry to the history. Ok is the new length.
    ///
    /// The entry is refused where its slot is 1,024 or more, then where the history has 65,536 entries, then where it
    /// deletes from a slot that is empty; the last two name the history's length. A refusal changes nothing.
    pub fn edit(&mut self, entry: Entry) -> Result<u32, CoreFault>
        requires { IfSome entry.shape IsValid }
        ensures ok { IfOk result (λ n. (self.new ≡ added self.old entry) × (n ≡ length self.new.history)) }
        ensures none_broken { IfOk result (λ _. refusal self.old.history entry ≡ None) }
        ensures fault { IfErr result (λ fault. IsRefusal self.old.history entry fault) }
        ensures unchanged { OnErr result (self.new ≡ self.old) }
    {
        if entry.slot >= SLOTS {
            return Err(CoreFault::Slot);
        }
        let number = self.history.len() as u32;
        if number >= FULL {
            return Err(CoreFault::Full(number));
        }
        if entry.shape.is_none() && held(&self.history, entry.slot).is_none() {
            return Err(CoreFault::Empty(number));
        }
        match self.history.push(entry) {
            Ok(()) => Ok(number + 1),
            Err(_) => Err(CoreFault::Memory),
        }
    }

    /// Says that the caller looks at n entries: true, and it has now seen n, exactly where n is at least what it had seen
    /// and at most the history's length. Else nothing changes. It takes no memory.
    pub fn see(&mut self, caller: u32, n: u32) -> bool
        requires { caller < length self.old.seen }
        ensures answer { result ≡ may_see self.old caller n }
        ensures after { self.new ≡ after self.old (Event.See caller n) }
    {
        let place = caller as usize;
        let sees = self.seen[place] <= n && n as usize <= self.history.len();
        if sees {
            self.seen[place] = n;
        }
        sees
    }

    /// The occupied cells after the first n entries of the history, and the elements that these bar, recounted from the
    /// shapes that stand then.
    pub fn snap(&self, alloc: Global, n: u32) -> Result<Snap, Memory>
        requires { n ≤ length self.now.history }
        ensures number { IfOk result (λ snap. snap.number ≡ n) }
        ensures after { IfOk result (IsSnapAfter self.now.map (take n self.now.history)) }
    {
        let table = table_of(alloc, &self.history[..n as usize])?;
        let occupied = covered_cells(alloc, self.map.grid(), &table)?;
        let counts = Counts::of(alloc, &self.map, &occupied)?;
        Snap::of(alloc, &self.map, n, occupied, &counts)
    }
}

/// Takes the event, and answers it.
fn answer_to(core: &mut Core, event: &Event) -> Result<Told, Memory>
    requires { MayCome (length core.old.seen) event.now }
    ensures answer { IfOk result (λ told. told ≡ answer core.old event.now) }
    ensures after { OnOk result (core.new ≡ after core.old event.now) }
{
    match *event {
        Event::Edit(entry) => match core.edit(entry) {
            Ok(n) => Ok(Told::Number(n)),
            Err(CoreFault::Slot) => Ok(Told::Slot),
            Err(CoreFault::Full(n)) => Ok(Told::Full(n)),
            Err(CoreFault::Empty(n)) => Ok(Told::Empty(n)),
            Err(CoreFault::Memory) => Err(Memory),
        },
        Event::See(caller, n) => Ok(Told::Seen(core.see(caller, n))),
    }
}

/// What the slot holds after the entries.
fn held(history: &[Entry], slot: u16) -> Option<Shape>
    ensures { result ≡ shape_in history.now slot }
{
    let mut shape = None;
    for entry in history {
        shape = replaced(entry, slot, shape);
    }
    shape
}

/// What a slot that held `before` holds after the entry.
fn replaced(entry: &Entry, slot: u16, before: Option<Shape>) -> Option<Shape>
    ensures { result ≡ (if entry.now.slot == slot then entry.now.shape else before) }
{
    if entry.slot == slot {
        entry.shape
    } else {
        before
    }
}

/// Plays the events one after the other on a new core, and gives the answers.
pub fn play(
    alloc: Global,
    map: Arc<Map>,
    callers: u32,
    events: &[Event],
) -> Result<List<Told>, Memory>
    requires some { 0 < callers }
    requires few { callers ≤ most_callers }
    requires events { All (MayCome callers) events.now }
    ensures { IfOk result (λ told. told ≡ answers (beginning (arc_value map) callers) events.now) }
{
    let mut core = Core::new(alloc, map, callers)?;
    let mut told = Vec::with_capacity(alloc, events.len())?;
    for event in events {
        told.push(answer_to(&mut core, event)?)?;
    }
    Ok(List::from_vec(told))
}
