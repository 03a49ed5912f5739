ghost use Rattle.std.specs.Prelude.{◌≡◌, ◌<◌, ◌≤◌, IfOk, length};
ghost use Rattle.drm_cellmap.specs.Roadmap.{Roadmap};
ghost use Rattle.drm_work.specs.Lines.{AreServable, HaveCallers, IsServable, most_lines};

use super::*;
use drm_cellmap::sample_map;
use drm_outside::{Gate, List, Memory, NoGate};
use drm_shape::Shape;
use drm_share::{Opened, Planner, PlannerName, Shared};
use drm_talk::{Act, Element, Line, Reply};
use std::alloc::Global;
use std::marker::Brand;
use std::process::Abort;
use std::sync::ledger::Blank;
use std::sync::{Mutex, Wait};
use std::test::Fail;
use std::thread::Threads;

/// Lines of two callers in turn, which any map serves.
fn log(alloc: Global) -> Result<List<Line>, Memory>
    ensures few { IfOk result (λ lines. length lines ≤ most_lines) }
    ensures callers { IfOk result HaveCallers }
    ensures served { (map : Roadmap) → IfOk result (AreServable map) }
{
    let mut lines = Vec::with_capacity(alloc, 6)?;
    lines.push_reserved(Line {
        caller: 0,
        act: Act::Del(5),
    });
    lines.push_reserved(Line {
        caller: 1,
        act: Act::Del(1024),
    });
    lines.push_reserved(Line {
        caller: 0,
        act: Act::Count(Element::Edge(0)),
    });
    lines.push_reserved(Line {
        caller: 1,
        act: Act::Count(Element::Edge(0)),
    });
    lines.push_reserved(Line {
        caller: 0,
        act: Act::Sync,
    });
    lines.push_reserved(Line {
        caller: 1,
        act: Act::Sync,
    });
    Ok(List::from_vec(lines))
}

/// The replies of the first caller's worker, over a planner of its own.
fn worked<L: PlannerName, R: Threads + Wait + Sync>(
    rt: &R,
    alloc: Global,
    blank: Blank,
    opened: Opened,
    lines: &List<Line>,
) -> Result<List<Reply>, Memory>
    requires name { blank.name ≡ L.name }
    requires parts { blank.parts ≡ L.parts }
    requires callers { opened.callers ≡ L.parts }
    requires book { opened.book ≡ L.book }
    requires map { opened.map ≡ L.map }
    requires few { length lines.now ≤ most_lines }
    requires served { AreServable L.map lines.now }
{
    let Shared { planner, passes } = Planner::<L>::new(rt, alloc, blank, opened)?;
    let mut passes = passes.into_vec();
    let replies = match passes.first_mut() {
        Some(pass) => work(rt, alloc, &planner, pass, lines, &NoGate),
        None => Err(Memory),
    };
    planner.end(rt, List::from_vec(passes));
    replies
}

#[test]
fn a_worker_serves_the_lines_of_its_caller(rt: HostRuntime) -> Result<(), Fail> {
    let alloc = rt.alloc();
    let lines = log(alloc)?;
    let opened = Opened::new(&rt, alloc, sample_map(alloc)?, 2)?;
    let replies = worked::<Brand, HostRuntime>(&rt, alloc, Blank::new(2), opened, &lines)?;
    let replies = replies.as_slice();
    assert_eq!(rt; replies.len(), 3);
    assert!(rt; matches!(replies[0], Reply::Empty(0)));
    assert!(rt; matches!(replies[1], Reply::Count(0, 0)));
    assert!(rt; matches!(replies[2], Reply::Sync(0)));
    Ok(())
}

/// A gate that writes down each call: the caller, and the place of its line.
#[derive(Drop)]
struct Notes<'r, R: Wait + Sync> {
    rt: &'r R,
    calls: Mutex<Vec<(u32, u32)>>,
}

impl<'r, R: Wait + Sync> Gate for Notes<'r, R> {
    fn pass(&self, caller: u32, line: u32) {
        // Where there is no memory the call is missed below.
        let _ = self.calls.lock(self.rt).push((caller, line));
    }
}

/// The places with which the caller passed the gate, in their order.
fn places_of(alloc: Global, calls: &[(u32, u32)], caller: u32) -> Result<Vec<u32>, Memory> {
    let mut places = Vec::new(alloc);
    for &(who, place) in calls {
        if who == caller {
            places.push(place)?;
        }
    }
    Ok(places)
}

#[test]
fn the_gate_is_passed_before_each_line_of_the_log(rt: HostRuntime) -> Result<(), Fail> {
    let alloc = rt.alloc();
    let notes = Notes {
        rt: &rt,
        calls: Mutex::new(Vec::new(alloc)),
    };
    replay(&rt, alloc, sample_map(alloc)?, log(alloc)?, &notes)?;
    let calls = notes.calls.into_inner();
    assert_eq!(rt; calls.len(), 8);
    let first = places_of(alloc, calls.as_slice(), 0)?;
    let second = places_of(alloc, calls.as_slice(), 1)?;
    assert_eq!(rt; first.as_slice(), [1, 3, 5, 0].as_slice());
    assert_eq!(rt; second.as_slice(), [2, 4, 6, 0].as_slice());
    Ok(())
}

/// In cell 15 alone, which edge 0 sweeps.
const TOP: Shape = Shape::Rect {
    x0: 140,
    y0: 140,
    x1: 150,
    y1: 150,
};

/// Lines of eight callers, in turn.
fn crowd(alloc: Global) -> Result<List<Line>, Memory>
    ensures few { IfOk result (λ lines. length lines ≤ most_lines) }
    ensures callers { IfOk result HaveCallers }
    ensures served { (map : Roadmap) → IfOk result (AreServable map) }
{
    let mut lines = Vec::with_capacity(alloc, 160_000)?;
    for place in 0..160_000u32 {
        let caller = place % 8;
        lines.push_reserved(Line {
            caller,
            act: act(caller as u16, place / 8 % 8),
        });
    }
    Ok(List::from_vec(lines))
}

/// Two edits in eight turns, and looks between them.
fn act(slot: u16, turn: u32) -> Act
    ensures { (map : Roadmap) → IsServable map result }
{
    match turn {
        0 => Act::Put(slot, TOP),
        3 => Act::Sync,
        4 => Act::Del(slot),
        _ => Act::Count(Element::Edge(0)),
    }
}

/// The number that the reply names where it tells of an edit.
fn edit_in(reply: &Reply) -> Option<u32> {
    match reply {
        Reply::Put(number) => Some(*number),
        Reply::Del(number) => Some(*number),
        _ => None,
    }
}

/// Wants each edit at its number in the history.
fn check<R: Abort>(rt: &R, replayed: &Replayed) {
    let journal = replayed.close.journal();
    let replies = replayed.report.replies.as_slice();
    assert_eq!(rt; (replies.len(), journal.len()), (160_000, 40_000));
    for place in 0..replies.len() {
        if let Some(number) = edit_in(&replies[place]) {
            assert!(rt; 0 < number);
            let entry = journal.get((number - 1) as usize).expect(rt, "an entry");
            assert_eq!(rt; entry.caller as usize, place % 8);
        }
    }
}

#[test]
fn eight_callers_make_one_history(rt: HostRuntime) -> Result<(), Fail> {
    let alloc = rt.alloc();
    let replayed = replay(&rt, alloc, sample_map(alloc)?, crowd(alloc)?, &NoGate)?;
    check(&rt, &replayed);
    assert_eq!(rt;
        (replayed.report.number, replayed.report.edges),
        (40_000, 0)
    );
    Ok(())
}
