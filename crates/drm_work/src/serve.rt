//! One line of a caller, served by the caller's pass.

ghost use Rattle.std.specs.Prelude.{◌≡◌, IfErr, IfOk, Some, length};
ghost use Rattle.drm_arm.specs.Config.{IsConfig, config_fault};
ghost use Rattle.drm_arm.specs.declared.config.ConfigFault.TheVariants.{Joint};
ghost use Rattle.drm_shape.specs.Validity.{IsValid};
ghost use Rattle.drm_work.specs.Lines.{HasJoints, IsServable};
ghost use Rattle.drm_work.specs.Work.{ServesOn};

use drm_arm::{Arm, Config, ConfigFault};
use drm_foot::foot;
use drm_plan::ask;
use drm_shape::Shape;
use drm_share::{EditFault, Pass, Planner, PlannerName};
use drm_talk::{Act, Element, Reply, SLOTS, Side};
use std::alloc::Global;
use std::sync::Wait;
use std::thread::Threads;

/// Serves the line and gives its reply.
///
/// What depends on the line and the map alone is told before memory is taken: the slot of an edit, the joint limits of an
/// ask, the element of a count.
pub(crate) fn serve<L: PlannerName, R: Threads + Wait + Sync>(
    rt: &R,
    alloc: Global,
    planner: &Planner<L>,
    pass: &mut Pass<L>,
    act: &Act,
) -> Reply
    requires { IsServable L.map act.now }
    ensures { ServesOn L.map act.now result pass.old pass.new }
{
    match act {
        Act::Put(slot, shape) => put(rt, alloc, planner, pass, *slot, *shape),
        Act::Del(slot) => delete(rt, planner, pass, *slot),
        Act::Count(element) => count(rt, planner, pass, *element),
        Act::Ask(start, goal) => answer(
            rt,
            alloc,
            planner,
            pass,
            start.as_slice(),
            goal.as_slice(),
        ),
        Act::Sync => Reply::Sync(pass.sync(rt, planner)),
        Act::Tick => unreachable!(),
    }
}

fn put<L: PlannerName, R: Threads + Wait + Sync>(
    rt: &R,
    alloc: Global,
    planner: &Planner<L>,
    pass: &mut Pass<L>,
    slot: u16,
    shape: Shape,
) -> Reply
    requires { IsValid shape }
    ensures { ServesOn L.map (Act.Put slot shape) result pass.old pass.new }
{
    if slot >= SLOTS {
        return Reply::Slot;
    }
    let Ok(footprint) = foot(alloc, planner.map().grid(), shape) else {
        return Reply::Memory;
    };
    match pass.put(rt, planner, slot, footprint) {
        Ok(number) => Reply::Put(number),
        Err(EditFault::Slot) => Reply::Slot,
        Err(EditFault::Full(number)) => Reply::Full(number),
        Err(EditFault::Empty(_)) => unreachable!(),
        Err(EditFault::Memory) => Reply::Memory,
    }
}

fn delete<L: PlannerName, R: Threads + Wait + Sync>(
    rt: &R,
    planner: &Planner<L>,
    pass: &mut Pass<L>,
    slot: u16,
) -> Reply
    ensures { ServesOn L.map (Act.Del slot) result pass.old pass.new }
{
    match pass.del(rt, planner, slot) {
        Ok(number) => Reply::Del(number),
        Err(EditFault::Slot) => Reply::Slot,
        Err(EditFault::Full(number)) => Reply::Full(number),
        Err(EditFault::Empty(number)) => Reply::Empty(number),
        Err(EditFault::Memory) => Reply::Memory,
    }
}

fn count<L: PlannerName, R: Threads + Wait + Sync>(
    rt: &R,
    planner: &Planner<L>,
    pass: &mut Pass<L>,
    element: Element,
) -> Reply
    ensures { ServesOn L.map (Act.Count element) result pass.old pass.new }
{
    match planner.map().index(element) {
        Some(_place) => {
            let (number, cells) = pass.count(rt, element);
            Reply::Count(number, cells)
        }
        None => Reply::Absent,
    }
}

fn answer<L: PlannerName, R: Threads + Wait + Sync>(
    rt: &R,
    alloc: Global,
    planner: &Planner<L>,
    pass: &mut Pass<L>,
    start: &[i32],
    goal: &[i32],
) -> Reply
    requires start { HasJoints L.map.arm start.now }
    requires goal { HasJoints L.map.arm goal.now }
    ensures { ServesOn L.map (Act.Ask start.now goal.now) result pass.old pass.new }
{
    let arm = planner.map().arm();
    let first = match config_of(arm, start) {
        Ok(config) => config,
        Err(joint) => return Reply::Limits(Side::Start, joint),
    };
    let last = match config_of(arm, goal) {
        Ok(config) => config,
        Err(joint) => return Reply::Limits(Side::Goal, joint),
    };
    answer_between(rt, alloc, planner, pass, &first, &last)
}

/// The configuration with these coordinates, or the first joint that is outside its limits.
fn config_of(arm: &Arm, values: &[i32]) -> Result<Config, u32>
    requires { HasJoints arm.now values.now }
    ensures made { IfOk result (λ config. config ≡ values.now) }
    ensures limits { IfOk result (IsConfig arm.now) }
    ensures beyond { IfErr result (λ joint. config_fault arm.now values.now ≡ Some (Joint joint)) }
{
    match arm.config(values) {
        Ok(config) => Ok(config),
        Err(ConfigFault::Joint(joint)) => Err(joint),
        Err(ConfigFault::Count(_)) => unreachable!(),
    }
}

fn answer_between<L: PlannerName, R: Threads + Wait + Sync>(
    rt: &R,
    alloc: Global,
    planner: &Planner<L>,
    pass: &mut Pass<L>,
    start: &Config,
    goal: &Config,
) -> Reply
    requires start { IsConfig L.map.arm start.now }
    requires goal { IsConfig L.map.arm goal.now }
    ensures { ServesOn L.map (Act.Ask start.now goal.now) result pass.old pass.new }
{
    let Ok(snap) = pass.snap(rt, alloc) else {
        return Reply::Memory;
    };
    match ask(alloc, planner.map(), &snap, start, goal) {
        Ok(answer) => Reply::Ask(snap.number(), answer),
        Err(_memory) => Reply::Memory,
    }
}
