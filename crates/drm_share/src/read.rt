//! What a reader reads, in one enter.

ghost use Rattle.std.specs.Prelude.{◌≡◌, IfOk, IfSome, Some};
ghost use Rattle.left_right.specs.Sides.{view};
ghost use Rattle.drm_talk.specs.Front.{Begins};
ghost use Rattle.drm_cellmap.specs.Roadmap.{IsElement};
ghost use Rattle.drm_after.specs.After.{IsCountAfter, IsSnapAfter};
ghost use Rattle.drm_share.specs.Published.{Shows};

use crate::PlannerName;
use crate::rule::{Marks, ShownReader};
use crate::shown::Shown;
use drm_cellmap::Snap;
use drm_history::Front;
use drm_outside::Memory;
use drm_talk::Element;
use std::alloc::Global;

/// Counts in the published value, where the front begins its history.
pub(crate) fn count_in<L: PlannerName>(
    reader: ShownReader,
    with: (&Front<L>, Element),
) -> (ShownReader, Option<(Front<L>, u32)>)
    requires known { view reader.place ≡ Some (record { origin = L.book; map = L.map }) }
    requires element { IsElement L.map with.1 }
    ensures known { view result.0.place ≡ Some (record { origin = L.book; map = L.map }) }
    ensures found { IfSome result.1
        (λ found. Begins with.entry.0.now found.0 × IsCountAfter L.map found.0 with.entry.1 found.1) }
{
    let (front, e) = with;
    match reader.enter_as::<Marks>() {
        Ok(reading) => {
            let found = counted(reading.get(), front, e);
            (reading.leave(), found)
        }
        Err(reader) => (reader, None),
    }
}

/// The count, with the front after which it is, where the other front begins that.
fn counted<L: PlannerName>(shown: &Shown, front: &Front<L>, e: Element) -> Option<(Front<L>, u32)>
    requires shown { Shows L.book L.map shown.now.reach.log shown.now }
    requires element { IsElement L.map e }
    ensures { IfSome result (λ found. Begins front.now found.0 × IsCountAfter L.map found.0 e found.1) }
{
    let now = shown.reach.front::<L>();
    let as_late = front.begins(&now);
    if !as_late {
        return None;
    }
    let count = shown.state.count(e)?;
    Some((now, count))
}

/// Takes a snapshot of the published value, where the front begins its history.
pub(crate) fn snap_in<L: PlannerName>(
    reader: ShownReader,
    with: (&Front<L>, Global),
) -> (ShownReader, Option<(Front<L>, Result<Snap, Memory>)>)
    requires { view reader.place ≡ Some (record { origin = L.book; map = L.map }) }
    ensures known { view result.0.place ≡ Some (record { origin = L.book; map = L.map }) }
    ensures found { IfSome result.1
        (λ found. Begins with.entry.0.now found.0 × IfOk found.1 (λ snap. IsSnapAfter L.map found.0 snap)) }
{
    let (front, alloc) = with;
    match reader.enter_as::<Marks>() {
        Ok(reading) => {
            let found = pictured(reading.get(), front, alloc);
            (reading.leave(), found)
        }
        Err(reader) => (reader, None),
    }
}

/// The snapshot, with the front after which it is, where the other front begins that.
fn pictured<L: PlannerName>(
    shown: &Shown,
    front: &Front<L>,
    alloc: Global,
) -> Option<(Front<L>, Result<Snap, Memory>)>
    requires { Shows L.book L.map shown.now.reach.log shown.now }
    ensures { IfSome result
        (λ found. Begins front.now found.0 × IfOk found.1 (λ snap. IsSnapAfter L.map found.0 snap)) }
{
    let now = shown.reach.front::<L>();
    if !front.begins(&now) {
        return None;
    }
    let snap = shown.state.snap(alloc);
    Some((now, snap))
}
