ghost use Rattle.std.specs.Prelude.{◌≡◌, ◌<◌, ℕ};
ghost use Rattle.drm_share.specs.Closing.{AreOneEach};

use super::*;
use drm_cellmap::sample_map;
use drm_foot::foot;
use drm_outside::{List, Memory};
use drm_shape::Shape;
use drm_talk::Element;
use std::alloc::Global;
use std::marker::Brand;
use std::process::Abort;
use std::sync::ledger::Blank;
use std::sync::{Barrier, Mutex, MutexGuard, Wait};
use std::test::Fail;
use std::thread;
use std::thread::Threads;

/// In cell 15 alone, which edge 0 sweeps, and in cell 3 alone, which it does not.
const TOP: Shape = Shape::Rect {
    x0: 140,
    y0: 140,
    x1: 150,
    y1: 150,
};

const BOTTOM: Shape = Shape::Rect {
    x0: 140,
    y0: -150,
    x1: 150,
    y1: -140,
};

const EDGE: Element = Element::Edge(0);

/// How many edits each of eight callers makes side by side.
const TURNS: u32 = 2_000;

/// An edit as its caller knows it: the caller, the edit's number among its own, and the number that it was told.
type Told = (u32, u32, u32);

/// The course of a test: what it does with a planner.
#[derive(Clone, Copy)]
enum Course {
    Guard,
    Turns,
    Gates,
    Crowd,
}

/// Opens a planner over the sample map for so many callers, and takes the course with it.
fn open<R: Threads + Wait + Sync + Abort>(
    rt: &R,
    alloc: Global,
    callers: u32,
    course: Course,
) -> Result<(), Memory>
    requires some { 0 < callers }
    requires few { callers < 9 }
{
    let opened = Opened::new(rt, alloc, sample_map(alloc)?, callers)?;
    play::<Brand, R>(rt, alloc, Blank::new(callers as u64), opened, course)
}

fn play<L: PlannerName + Send + Sync, R: Threads + Wait + Sync + Abort>(
    rt: &R,
    alloc: Global,
    blank: Blank,
    opened: Opened,
    course: Course,
) -> Result<(), Memory>
    requires name { blank.name ≡ L.name }
    requires parts { blank.parts ≡ L.parts }
    requires callers { opened.callers ≡ L.parts }
    requires book { opened.book ≡ L.book }
    requires map { opened.map ≡ L.map }
{
    let Shared { planner, passes } = Planner::<L>::new(rt, alloc, blank, opened)?;
    match course {
        Course::Guard => read_beside_the_lock(rt, alloc, planner, passes),
        Course::Turns => take_turns(rt, alloc, planner, passes),
        Course::Gates => meet_at_gates(rt, alloc, planner, passes),
        Course::Crowd => crowd(rt, alloc, planner, passes),
    }
    Ok(())
}

/// Puts the shape into the slot, and gives the number that was told.
fn put<L: PlannerName, R: Threads + Wait + Sync + Abort>(
    rt: &R,
    alloc: Global,
    planner: &Planner<L>,
    pass: &mut Pass<L>,
    slot: u16,
    shape: Shape,
) -> u32
    ensures { pass.new.caller ≡ pass.old.caller }
{
    assert!(rt; shape.check().is_ok());
    let footprint = foot(alloc, planner.map().grid(), shape).expect(rt, "memory");
    match pass.put(rt, planner, slot, footprint) {
        Ok(number) => number,
        Err(fault) => panic!(rt; "{fault:?}"),
    }
}

/// The count of an edge of the sample map, with its number.
fn count<L: PlannerName, R: Wait + Sync + Abort>(
    rt: &R,
    planner: &Planner<L>,
    pass: &mut Pass<L>,
) -> (u32, u32)
    ensures { pass.new.caller ≡ pass.old.caller }
{
    match planner.map().index(EDGE) {
        Some(_) => pass.count(rt, EDGE),
        None => panic!(rt; "the sample map has three edges"),
    }
}

/// Reads while this same thread holds the lock of the desk.
fn read_beside_the_lock<L: PlannerName, R: Threads + Wait + Sync + Abort>(
    rt: &R,
    alloc: Global,
    planner: Planner<L>,
    passes: List<Pass<L>>,
) {
    let mut passes = passes.into_vec();
    assert_eq!(rt; passes.len(), 1);
    assert_eq!(rt; put(rt, alloc, &planner, &mut passes[0], 7, TOP), 1);
    let locked = planner.desk.lock(rt);
    let counted = count(rt, &planner, &mut passes[0]);
    let snap = passes[0].snap(rt, alloc).expect(rt, "memory");
    MutexGuard::unlock(locked);
    assert_eq!(rt; counted, (1, 1));
    assert_eq!(rt; (snap.number(), snap.totals()), (1, (0, 1)));
    planner.end(rt, List::from_vec(passes));
}

/// Two callers in turns: one learns at the lock what the other has done, and why an edit is refused.
fn take_turns<L: PlannerName, R: Threads + Wait + Sync + Abort>(
    rt: &R,
    alloc: Global,
    planner: Planner<L>,
    passes: List<Pass<L>>,
) {
    let mut passes = passes.into_vec();
    assert_eq!(rt; passes.len(), 2);
    assert_eq!(rt; put(rt, alloc, &planner, &mut passes[0], 7, TOP), 1);
    assert_eq!(rt; passes[1].sync(rt, &planner), 1);
    assert_eq!(rt; count(rt, &planner, &mut passes[1]), (1, 1));
    assert_eq!(rt; passes[1].del(rt, &planner, 7), Ok(2));
    assert_eq!(rt; passes[0].del(rt, &planner, 7), Err(EditFault::Empty(2)));
    assert_eq!(rt; passes[0].del(rt, &planner, 1024), Err(EditFault::Slot));
    assert_eq!(rt; count(rt, &planner, &mut passes[0]), (2, 0));
    planner.end(rt, List::from_vec(passes));
}

/// Two callers side by side: the first reads only after the second has put an obstacle, and the second goes on only after
/// that read. One after the other they would never end.
fn meet_at_gates<L: PlannerName + Send + Sync, R: Threads + Wait + Sync + Abort>(
    rt: &R,
    alloc: Global,
    planner: Planner<L>,
    passes: List<Pass<L>>,
) {
    let mut passes = passes.into_vec();
    let (Some(second), Some(first)) = (passes.pop(), passes.pop()) else {
        panic!(rt; "two passes");
    };
    let shared = &planner;
    let gate = &Barrier::new(2);
    thread::join(
        rt,
        move || read_after_the_put(rt, alloc, shared, first, gate),
        move || put_before_the_read(rt, alloc, shared, second, gate),
    );
    planner.end(rt, List::from_vec(passes));
}

fn read_after_the_put<L: PlannerName, R: Threads + Wait + Sync + Abort>(
    rt: &R,
    alloc: Global,
    planner: &Planner<L>,
    pass: Pass<L>,
    gate: &Barrier,
) {
    let mut pass = pass;
    gate.wait(rt);
    let snap = pass.snap(rt, alloc).expect(rt, "memory");
    assert_eq!(rt; (snap.number(), snap.totals()), (1, (0, 1)));
    assert_eq!(rt; count(rt, planner, &mut pass), (1, 1));
    gate.wait(rt);
    assert_eq!(rt; pass.sync(rt, planner), 1);
}

fn put_before_the_read<L: PlannerName, R: Threads + Wait + Sync + Abort>(
    rt: &R,
    alloc: Global,
    planner: &Planner<L>,
    pass: Pass<L>,
    gate: &Barrier,
) {
    let mut pass = pass;
    assert_eq!(rt; put(rt, alloc, planner, &mut pass, 7, TOP), 1);
    gate.wait(rt);
    assert_eq!(rt; pass.sync(rt, planner), 1);
    gate.wait(rt);
    assert_eq!(rt; count(rt, planner, &mut pass), (1, 1));
}

/// Eight callers side by side, and then the whole history against what each of them was told.
fn crowd<L: PlannerName + Send + Sync, R: Threads + Wait + Sync + Abort>(
    rt: &R,
    alloc: Global,
    planner: Planner<L>,
    passes: List<Pass<L>>,
)
    requires { AreOneEach L.parts passes }
{
    let mut passes = passes.into_vec();
    let told = Mutex::new(Vec::new(alloc));
    edit_side_by_side(rt, alloc, &planner, &mut passes, &told);
    match planner.close(rt, alloc, List::from_vec(passes)) {
        Ok(close) => check(rt, &close, told.into_inner().as_slice()),
        Err(Unclosed { planner, passes }) => {
            planner.end(rt, passes);
            panic!(rt; "memory");
        }
    }
}

fn edit_side_by_side<L: PlannerName + Send + Sync, R: Threads + Wait + Sync + Abort>(
    rt: &R,
    alloc: Global,
    planner: &Planner<L>,
    passes: &mut [Pass<L>],
    told: &Mutex<Vec<Told>>,
)
    ensures { (callers : ℕ) → AreOneEach callers passes.old → AreOneEach callers passes.new }
{
    thread::for_each_mut(
        rt,
        passes,
        8,
        &|_place, pass| { edit_and_read(rt, alloc, planner, pass, told) },
    );
}

/// Moves a box to and fro, and reads after each edit.
fn edit_and_read<L: PlannerName, R: Threads + Wait + Sync + Abort>(
    rt: &R,
    alloc: Global,
    planner: &Planner<L>,
    pass: &mut Pass<L>,
    told: &Mutex<Vec<Told>>,
)
    ensures { pass.new.caller ≡ pass.old.caller }
{
    let caller = pass.caller();
    let mut seen = 0;
    for turn in 0..TURNS {
        let shape = if turn % 2 == 0 { TOP } else { BOTTOM };
        let number = put(rt, alloc, planner, pass, caller as u16, shape);
        assert!(rt; seen < number);
        let (later, _count) = count(rt, planner, pass);
        assert!(rt; number <= later);
        seen = later;
        told.lock(rt)
            .push((caller, turn + 1, number))
            .expect(rt, "memory");
    }
}

/// Wants each edit at its number, and no other entry.
fn check<R: Abort>(rt: &R, close: &Close, told: &[Told]) {
    let journal = close.journal();
    assert_eq!(rt; (journal.len(), told.len()), (16_000, 16_000));
    assert_eq!(rt; close.last().number(), 16_000);
    for &(caller, seq, number) in told {
        assert!(rt; 0 < number);
        let entry = journal.get((number - 1) as usize).expect(rt, "an entry");
        assert_eq!(rt; (entry.caller, u32::from(entry.slot)), (caller, caller));
        assert_eq!(rt; entry.seq, seq);
    }
}

#[test]
fn a_pass_reads_while_the_desk_is_locked(rt: HostRuntime) -> Result<(), Fail> {
    open(&rt, rt.alloc(), 1, Course::Guard)?;
    Ok(())
}

#[test]
fn a_caller_learns_at_the_lock_what_others_did(rt: HostRuntime) -> Result<(), Fail> {
    open(&rt, rt.alloc(), 2, Course::Turns)?;
    Ok(())
}

#[test]
fn a_read_sees_the_edits_that_ended_before_it(rt: HostRuntime) -> Result<(), Fail> {
    open(&rt, rt.alloc(), 2, Course::Gates)?;
    Ok(())
}

#[test]
fn eight_callers_have_one_history(rt: HostRuntime) -> Result<(), Fail> {
    open(&rt, rt.alloc(), 8, Course::Crowd)?;
    Ok(())
}
