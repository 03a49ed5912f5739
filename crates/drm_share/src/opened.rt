//! The opening of a planner, before it has a name.

ghost use Rattle.std.specs.Prelude.{◌≡◌, ◌<◌, ◌≤◌, [], IfOk, Some, drop};
ghost use Rattle.std.specs.Arc.{arc_value};
ghost use Rattle.left_right.specs.Sides.{view};
ghost use Rattle.drm_share.specs.Limits.{most_callers};
ghost use Rattle.drm_share.specs.Published.{Shows, mark};

use crate::publish::try_show;
use crate::rule::{Latter, ShownReader, ShownWriter, Twice};
use crate::shown::{Shown, Update};
use drm_cellmap::Map;
use drm_history::Origin;
use drm_outside::Memory;
use drm_state::{Op, State};
use drm_talk::SLOTS;
use left_right::writer::Writer;
use std::alloc::Global;
use std::marker::Model;
use std::sync::{Arc, Wait};
use std::thread::Threads;

/// Both copies of the published value, with room for a reader of each caller, and the writer, over an empty history.
/// Contracts see the book of the history, the map, and the number of callers.
///
/// It has no name yet: hand it to a function that is generic over [`crate::PlannerName`], which opens the planner.
pub struct Opened {
    pub(crate) origin: Origin,
    pub(crate) writer: ShownWriter,
    pub(crate) map: Arc<Map>,
    pub(crate) callers: u32,
}

impl Model for Opened {
    ghost use Rattle.std.specs.Prelude.{◌≡◌, ◌<◌, ◌≤◌, [], Some, drop};
    ghost use Rattle.std.specs.Arc.{arc_value};
    ghost use Rattle.left_right.specs.Sides.{view as known};
    ghost use Rattle.drm_share.specs.Limits.{most_callers};
    ghost use Rattle.drm_share.specs.Opening.{Opening};
    ghost use Rattle.drm_share.specs.Published.{Shows};

    ghost Value = { Opening };

    ghost view = { λ opened. record { book = opened.origin; map = arc_value opened.map; callers = opened.callers } };

    ghost invariant = { λ opened. Shows opened.origin (arc_value opened.map) [] opened.writer.desk.shown.value
        × (drop opened.writer.behind opened.writer.log.items ≡ [])
        × (known opened.writer.desk.place ≡ Some (record { origin = opened.origin; map = arc_value opened.map }))
        × (0 < opened.callers)
        × (opened.callers ≤ most_callers) };
}

impl Opened {
    /// Opens a planner over the map for so many callers, from one to eight.
    pub fn new<R: Threads + Wait + Sync>(
        rt: &R,
        alloc: Global,
        map: Map,
        callers: u32,
    ) -> Result<Opened, Memory>
        requires some { 0 < callers }
        requires few { callers ≤ most_callers }
        ensures map { IfOk result (λ opened. opened.map ≡ map) }
        ensures callers { IfOk result (λ opened. opened.callers ≡ callers) }
    {
        let origin = begin(rt, alloc)?;
        let map = Arc::new(alloc, map)?;
        let first = first_shown(alloc, &map, &origin)?;
        let second = first_shown(alloc, &map, &origin)?;
        let writer = Writer::new(alloc, first, second, callers as usize)?;
        let writer = warmed(rt, writer, &origin)?;
        Ok(Opened {
            origin,
            writer,
            map,
            callers,
        })
    }
}

/// A new book. One that has words that were not made here is dropped, and another begun; no run meets one.
fn begin<R: Wait>(rt: &R, alloc: Global) -> Result<Origin, Memory> {
    for _ in rt.forever() {
        if let Some(origin) = Origin::new(alloc)? {
            return Ok(origin);
        }
    }
    unreachable!()
}

/// The value before the first edit.
fn first_shown(alloc: Global, map: &Arc<Map>, origin: &Origin) -> Result<Shown, Memory>
    ensures { IfOk result (λ shown. Shows origin.now (arc_value map.now) [] shown) }
{
    let state = State::new(alloc, Arc::try_clone(map)?)?;
    Ok(Shown {
        state,
        reach: origin.reach(),
    })
}

/// Publishes twice what changes nothing, so that the writer's list has room for the two updates that it ever holds.
fn warmed<R: Wait>(rt: &R, writer: ShownWriter, origin: &Origin) -> Result<ShownWriter, Memory>
    requires none_pending { drop writer.behind writer.log.items ≡ [] }
    requires shows { Shows origin.now writer.desk.shown.value.state.map [] writer.desk.shown.value }
    ensures none_pending { IfOk result (λ warm. drop warm.behind warm.log.items ≡ []) }
    ensures shows { IfOk result (λ warm. Shows origin.now writer.desk.shown.value.state.map [] warm.desk.shown.value) }
    ensures view { IfOk result (λ warm. view warm.desk.place ≡ Some (mark warm.desk.shown.value)) }
{
    let writer = try_show(rt, writer, idle(origin))?;
    let writer = try_show(rt, writer, idle(origin))?;
    Ok(writer)
}

/// An update that no state takes.
fn idle(origin: &Origin) -> Update
    ensures slot { result.op.entry.slot ≡ 1024 }
    ensures book { result.reach.book ≡ origin.now }
    ensures log { result.reach.log ≡ [] }
{
    Update {
        op: Op::del(0, 0, SLOTS),
        reach: origin.reach(),
    }
}

/// A new reader, which knows what the writer knows. Where the making of one is refused, it tries again.
pub(crate) fn reader<R: Wait>(rt: &R, writer: &mut ShownWriter) -> ShownReader
    ensures known { view result.place ≡ view writer.old.desk.place }
    ensures shown { writer.new.desk.shown.value ≡ writer.old.desk.shown.value }
    ensures pending { drop writer.new.behind writer.new.log.items ≡ drop writer.old.behind writer.old.log.items }
    ensures view { view writer.new.desk.place ≡ view writer.old.desk.place }
{
    for _ in rt.forever() {
        if let Ok(reader) = writer.factory().reader() {
            return informed(writer, reader);
        }
    }
    unreachable!()
}

/// Tells the reader what the writer knows.
fn informed(writer: &mut ShownWriter, reader: ShownReader) -> ShownReader
    requires { reader.place.table_id ≡ writer.old.desk.place.table_id }
    ensures known { view result.place ≡ view writer.old.desk.place }
    ensures shown { writer.new.desk.shown.value ≡ writer.old.desk.shown.value }
    ensures pending { drop writer.new.behind writer.new.log.items ≡ drop writer.old.behind writer.old.log.items }
    ensures view { view writer.new.desk.place ≡ view writer.old.desk.place }
{
    let mut reader = reader;
    reader.learn::<Latter>(writer.tell::<Twice>());
    reader
}
