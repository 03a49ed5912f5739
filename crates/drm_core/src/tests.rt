ghost use Rattle.std.specs.Prelude.{◌≡◌, ◌↔◌, All, IfSome, IsTrue};
ghost use Rattle.drm_shape.specs.Validity.{IsValid};
ghost use Rattle.drm_core.specs.Machine.{MayCome};

use super::*;
use drm_cellmap::sample_map;
use drm_shape::Shape;
use drm_talk::Entry;
use std::alloc::{AllocError, Global};
use std::sync::Arc;
use std::test::Fail;

/// In cell 15 alone, and in cell 3 alone.
const TOP: Shape = Shape::Rect {
    x0: 140,
    y0: 140,
    x1: 150,
    y1: 150,
};

const BOTTOM: Shape = Shape::Rect {
    x0: 140,
    y0: -150,
    x1: 150,
    y1: -140,
};

/// An event of a case: a put of a box into the slot, a delete of it, or a look.
#[derive(Clone, Copy)]
enum Move {
    Put(u16),
    Del(u16),
    See(u32, u32),
}

struct Case {
    callers: u32,
    moves: &'static [Move],
    told: &'static [Told],
}

const CASES: [Case; 3] = [
    Case {
        callers: 1,
        moves: &[Move::Put(0), Move::Del(1), Move::See(0, 1), Move::See(0, 0)],
        told: &[
            Told::Number(1),
            Told::Empty(1),
            Told::Seen(true),
            Told::Seen(false),
        ],
    },
    // Each caller looks by itself, and nobody at more than there is.
    Case {
        callers: 8,
        moves: &[
            Move::See(0, 0),
            Move::See(0, 1),
            Move::Put(0),
            Move::See(7, 1),
            Move::Del(0),
            Move::See(0, 2),
            Move::See(7, 2),
            Move::See(7, 1),
        ],
        told: &[
            Told::Seen(true),
            Told::Seen(false),
            Told::Number(1),
            Told::Seen(true),
            Told::Number(2),
            Told::Seen(true),
            Told::Seen(true),
            Told::Seen(false),
        ],
    },
    // No slot of the table, and a slot that was emptied.
    Case {
        callers: 2,
        moves: &[
            Move::Put(1024),
            Move::Del(1024),
            Move::Put(0),
            Move::Del(0),
            Move::Del(0),
            Move::Put(0),
        ],
        told: &[
            Told::Slot,
            Told::Slot,
            Told::Number(1),
            Told::Number(2),
            Told::Empty(2),
            Told::Number(3),
        ],
    },
];

fn entry(slot: u16, shape: Option<Shape>) -> Entry
    ensures { result.shape ≡ shape }
{
    Entry {
        caller: 0,
        seq: 1,
        slot,
        shape,
    }
}

fn event_of(step: Move) -> Event {
    match step {
        Move::Put(slot) => Event::Edit(entry(slot, Some(TOP))),
        Move::Del(slot) => Event::Edit(entry(slot, None)),
        Move::See(caller, length) => Event::See(caller, length),
    }
}

fn events_of(alloc: Global, moves: &[Move]) -> Result<Vec<Event>, AllocError> {
    moves.iter().map(|step| event_of(*step)).collect(alloc)
}

/// Says whether an entry may have this for a shape.
fn is_fit(shape: &Option<Shape>) -> bool
    ensures { IsTrue result → IfSome shape.now IsValid }
{
    match shape {
        Some(shape) => shape.check().is_ok(),
        None => true,
    }
}

/// Says whether the event may come to a core for so many callers.
fn may_come(callers: u32, event: &Event) -> bool
    ensures { IsTrue result → MayCome callers event.now }
{
    match event {
        Event::Edit(entry) => is_fit(&entry.shape),
        Event::See(caller, _) => *caller < callers,
    }
}

fn all_may_come(callers: u32, events: &[Event]) -> bool
    ensures { IsTrue result → All (MayCome callers) events.now }
{
    for event in events {
        if !may_come(callers, event) {
            return false;
        }
    }
    true
}

#[test]
fn events_have_their_answers(rt: HostRuntime) -> Result<(), Fail> {
    let alloc = rt.alloc();
    for case in &CASES {
        let events = events_of(alloc, case.moves)?;
        if case.callers == 0 || 8 < case.callers || !all_may_come(case.callers, &events) {
            return Err("events that may come".into());
        }
        let map = Arc::new(alloc, sample_map(alloc)?)?;
        let told = play(alloc, map, case.callers, &events)?;
        assert_eq!(rt; told.as_slice(), case.told);
    }
    Ok(())
}

struct Step {
    slot: u16,
    shape: Option<Shape>,
    /// The barred nodes and edges afterwards.
    totals: (u32, u32),
}

const STEPS: [Step; 5] = [
    Step {
        slot: 1,
        shape: Some(TOP),
        totals: (0, 1),
    },
    Step {
        slot: 2,
        shape: Some(BOTTOM),
        totals: (0, 2),
    },
    // A put on a full slot.
    Step {
        slot: 1,
        shape: Some(BOTTOM),
        totals: (0, 1),
    },
    Step {
        slot: 2,
        shape: None,
        totals: (0, 1),
    },
    Step {
        slot: 1,
        shape: None,
        totals: (0, 0),
    },
];

#[test]
fn snapshots_are_those_of_so_many_entries(rt: HostRuntime) -> Result<(), Fail> {
    let alloc = rt.alloc();
    let map = Arc::new(alloc, sample_map(alloc)?)?;
    let mut core = Core::new(alloc, map, 1)?;
    let mut before = (0, 0);
    for step in &STEPS {
        if !is_fit(&step.shape) {
            return Err("a valid shape".into());
        }
        let number = core.edit(entry(step.slot, step.shape))?;
        let snap = core.snap(alloc, number)?;
        assert_eq!(rt; (snap.number(), snap.totals()), (number, step.totals));
        let snap = core.snap(alloc, number - 1)?;
        assert_eq!(rt; (snap.number(), snap.totals()), (number - 1, before));
        before = step.totals;
    }
    Ok(())
}

#[test]
fn a_full_history_takes_no_more(rt: HostRuntime) -> Result<(), Fail> {
    let alloc = rt.alloc();
    let map = Arc::new(alloc, sample_map(alloc)?)?;
    let mut core = Core::new(alloc, map, 1)?;
    if !is_fit(&Some(TOP)) {
        return Err("a valid shape".into());
    }
    for number in 1..65_537 {
        assert_eq!(rt; core.edit(entry(0, Some(TOP)))?, number);
    }
    assert_eq!(rt;
        core.edit(entry(0, Some(TOP))),
        Err(CoreFault::Full(65_536))
    );
    assert_eq!(rt; core.edit(entry(1, None)), Err(CoreFault::Full(65_536)));
    assert_eq!(rt; core.edit(entry(1024, None)), Err(CoreFault::Slot));
    Ok(())
}
