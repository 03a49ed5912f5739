//! Two threads over one planner: one puts a box and takes it away, the other asks for a way.

ghost use Rattle.std.specs.Prelude.{◌≡◌, ℕ, IfOk};
ghost use Rattle.drm_after.specs.After.{IsSnapAfter};
ghost use Rattle.drm_share.specs.Closing.{AreOneEach};

use drm_cellmap::{Map, sample_map};
use drm_foot::foot;
use drm_mapfile::{read, write};
use drm_outside::{List, Memory};
use drm_plan::ask;
use drm_shape::Shape;
use drm_share::{
    Close, Opened, Pass, Planner, PlannerName, Shared, Unclosed, passes_stay_one_each,
};
use drm_talk::Answer;
use std::alloc::Global;
use std::marker::Brand;
use std::process::Abort;
use std::sync::Wait;
use std::sync::ledger::Blank;
use std::test::Fail;
use std::thread;
use std::thread::Threads;

/// A box in cell 15 of the sample map, which edge 0 sweeps.
const BOX: Shape = Shape::Rect {
    x0: 140,
    y0: 140,
    x1: 150,
    y1: 150,
};

/// Opens a planner over the map for two callers, lets them work, and closes it.
fn plan_for_two<R: Threads + Wait + Sync + Abort>(
    rt: &R,
    alloc: Global,
    map: Map,
) -> Result<Close, Memory> {
    let opened = Opened::new(rt, alloc, map, 2)?;
    work_for::<Brand, R>(rt, alloc, Blank::new(2), opened)
}

/// The same under the name L of the planner, which its passes share.
fn work_for<L: PlannerName + Send + Sync, R: Threads + Wait + Sync + Abort>(
    rt: &R,
    alloc: Global,
    blank: Blank,
    opened: Opened,
) -> Result<Close, Memory>
    requires name { blank.name ≡ L.name }
    requires parts { blank.parts ≡ L.parts }
    requires callers { opened.callers ≡ L.parts }
    requires book { opened.book ≡ L.book }
    requires map { opened.map ≡ L.map }
    ensures { IfOk result (λ close. IsSnapAfter L.map close.journal close.last) }
{
    let Shared { planner, passes } = Planner::<L>::new(rt, alloc, blank, opened)?;
    finish(rt, alloc, planner, passes)
}

/// Lets the callers work, and closes the planner.
fn finish<L: PlannerName + Send + Sync, R: Threads + Wait + Sync + Abort>(
    rt: &R,
    alloc: Global,
    planner: Planner<L>,
    passes: List<Pass<L>>,
) -> Result<Close, Memory>
    requires { AreOneEach L.parts passes }
    ensures { IfOk result (λ close. IsSnapAfter L.map close.journal close.last) }
{
    let mut passes = passes.into_vec();
    work_side_by_side(rt, alloc, &planner, &mut passes);
    match planner.close(rt, alloc, List::from_vec(passes)) {
        Ok(close) => Ok(close),
        Err(Unclosed { planner, passes }) => {
            planner.end(rt, passes);
            Err(Memory)
        }
    }
}

/// Lends each pass to a thread of its own.
fn work_side_by_side<L: PlannerName + Send + Sync, R: Threads + Wait + Sync + Abort>(
    rt: &R,
    alloc: Global,
    planner: &Planner<L>,
    passes: &mut [Pass<L>],
)
    ensures { (callers : ℕ) → AreOneEach callers passes.old → AreOneEach callers passes.new }
{
    passes_stay_one_each();
    thread::for_each_mut(
        rt,
        passes,
        2,
        &|_place, pass| {
            if pass.caller() == 0 {
                put_and_delete(rt, alloc, planner, pass);
            } else {
                ask_for_a_way(rt, alloc, planner, pass);
            }
        },
    );
}

/// Puts the box into slot 7, and takes it away.
fn put_and_delete<L: PlannerName, R: Threads + Wait + Sync + Abort>(
    rt: &R,
    alloc: Global,
    planner: &Planner<L>,
    pass: &mut Pass<L>,
)
    ensures { pass.new.caller ≡ pass.old.caller }
{
    assert!(rt; BOX.check().is_ok());
    let footprint = foot(alloc, planner.map().grid(), BOX).expect(rt, "memory");
    assert_eq!(rt; pass.put(rt, planner, 7, footprint), Ok(1));
    assert_eq!(rt; pass.del(rt, planner, 7), Ok(2));
}

/// Asks for a way from 0 to a right angle.
fn ask_for_a_way<L: PlannerName, R: Threads + Wait + Sync + Abort>(
    rt: &R,
    alloc: Global,
    planner: &Planner<L>,
    pass: &mut Pass<L>,
)
    ensures { pass.new.caller ≡ pass.old.caller }
{
    let map = planner.map();
    let start = map.arm().config(&[0]).expect(rt, "within limits");
    let goal = map.arm().config(&[1024]).expect(rt, "within limits");
    let snap = pass.snap(rt, alloc).expect(rt, "memory");
    let answer = ask(alloc, map, &snap, &start, &goal).expect(rt, "memory");
    match (snap.number(), answer) {
        (0 | 2, Answer::Path { length, .. }) => assert_eq!(rt; length, 1024),
        (1, Answer::Cut { .. }) => {}
        _ => panic!(rt; "the box stands after entry 1 alone"),
    }
}

#[test]
fn two_callers_share_a_planner(rt: HostRuntime) -> Result<(), Fail> {
    let alloc = rt.alloc();
    let file = write(alloc, &sample_map(alloc)?)?;
    let map = read(alloc, &file).ok().ok_or("a map file")?;
    let close = plan_for_two(&rt, alloc, map)?;
    assert_eq!(rt; close.journal().len(), 2);
    assert_eq!(rt; close.last().totals(), (0, 0));
    Ok(())
}
