//! What the elements of a road sweep, as sets of cells and as lists.

ghost use Rattle.std.specs.Prelude.{◌≡◌, ◌<◌, ◌≤◌, ◌^◌, All, IfOk, length};
ghost use Rattle.std.specs.List.{AllZip};
ghost use Rattle.drm_arm.specs.Config.{IsConfig};
ghost use Rattle.drm_grid.specs.CellSet.{AreCells};
ghost use Rattle.drm_road.specs.Elements.{element_count};
ghost use Rattle.drm_build.specs.Sets.{AreSetsOf, HaveEntries, IsSetAt};

use crate::counted::Counted;
use crate::hands::found_by_hands;
use crate::order::in_order;
use drm_outside::{List, Memory};
use drm_road::Road;
use drm_robot::Robot;
use drm_sweep::sweep;
use std::alloc::Global;
use std::thread::Threads;

/// What each element sweeps, those of the nodes first, found by several threads at once.
pub(crate) fn sets_of<R: Threads + Sync>(
    rt: &R,
    alloc: Global,
    robot: &Robot,
    road: &Road,
) -> Result<Vec<Counted>, Memory>
    requires { All (IsConfig robot.now.arm) road.now.nodes }
    ensures { IfOk result (λ sets. AreSetsOf robot.now road.now sets.items) }
{
    let hands = found_by_hands(rt, alloc, robot, road)?;
    in_order(alloc, robot, road, hands)
}

/// How many elements the road has.
pub(crate) fn count_of(road: &Road) -> u32
    ensures { result ≡ element_count road.now }
{
    road.nodes() + road.edges()
}

/// What the element at the place sweeps with a quarter of a cell's side as pad.
pub(crate) fn swept(
    alloc: Global,
    robot: &Robot,
    road: &Road,
    place: u32,
) -> Result<Counted, Memory>
    requires place { place < element_count road.now }
    requires nodes { All (IsConfig robot.now.arm) road.now.nodes }
    ensures { IfOk result (IsSetAt robot.now road.now place) }
{
    let motion = road.motion(road.element(place));
    let set = sweep(
        alloc,
        &robot.arm,
        &robot.grid,
        &motion,
        robot.grid.side() / 4,
    )?;
    Counted::new(alloc, set)
}

/// How many cells the sets have together.
pub(crate) fn entries(sets: &[Counted]) -> u64
    requires few { length sets.now < 2 ^ 32 }
    requires small { All (λ set. length set ≤ 65536) sets.now }
    ensures { HaveEntries sets.now result }
{
    let mut total = 0;
    for set in sets {
        total += set.cells();
    }
    total
}

/// The cells of each set, in increasing order.
pub(crate) fn lists(alloc: Global, sets: &[Counted]) -> Result<List<List<u16>>, Memory>
    ensures { IfOk result (AllZip AreCells sets.now) }
{
    let mut lists = Vec::with_capacity(alloc, sets.len())?;
    for set in sets {
        lists.push(set.to_list(alloc)?)?;
    }
    Ok(List::from_vec(lists))
}
