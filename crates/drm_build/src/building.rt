//! From a robot to its map.

ghost use Rattle.std.specs.Prelude.{◌≡◌, ◌⊎◌, All, IfOk, IfErr};
ghost use Rattle.drm_arm.specs.Arm.{IsArm};
ghost use Rattle.drm_arm.specs.Config.{IsConfig};
ghost use Rattle.drm_grid.specs.Layout.{IsGrid};
ghost use Rattle.drm_road.specs.Road.{IsRoad};
ghost use Rattle.drm_sweep.specs.Laws.{IsSound, IsPassed};
ghost use Rattle.drm_cellmap.specs.Roadmap.{IsRoadmap, EachStored};
ghost use Rattle.drm_build.specs.Built.{IsMapOf, IsRoadOf, IsTooLong};

use crate::laws::{maps_of_robots_are_sound, sound_maps_pass};
use crate::sets::{entries, lists, sets_of};
use drm_cellmap::{MAX_ENTRIES, Map, MapFault};
use drm_outside::Memory;
use drm_road::{Road, RoadFault, pairs, sample};
use drm_robot::Robot;
use std::alloc::Global;
use std::error::Error;
use std::fmt;
use std::thread::Threads;

/// Why a robot has no map.
#[derive(Debug, Clone, Copy, PartialEq, Eq)]
pub enum BuildFault {
    /// The sweeps have more than 16,777,216 cells together: how many.
    Total(u64),
    /// There was no memory.
    Memory,
}

impl fmt::Display for BuildFault {
    ghost use Rattle.std.specs.Prelude.{Some};
    ghost use Rattle.drm_build.specs.FaultText.{fault_text};

    ghost output = { λ fault. Some (fault_text fault) };

    fn fmt<W: fmt::Write>(&self, f: &mut fmt::Formatter<W>) -> fmt::Result {
        match *self {
            BuildFault::Total(n) => write!(
                f,
                "the sweeps have {n} cells together, and 16777216 are allowed at most"
            ),
            BuildFault::Memory => f.write_str("there was no memory to build the map"),
        }
    }
}

impl Error for BuildFault {}

impl From<Memory> for BuildFault {
    ghost use Rattle.drm_build.specs.declared.building.BuildFault.TheVariants.{Memory as no_memory};

    ghost from_gives = { λ _ fault. fault ≡ no_memory };

    fn from(_: Memory) -> Self {
        BuildFault::Memory
    }
}

/// The map of the robot. Its nodes are those that the robot draws, its edges pair each node with those nearest to it,
/// and for each of them it stores the cells that are swept with a quarter of a cell's side as pad.
///
/// The threads change nothing in the result: it is the one map that the robot has. `Total` comes exactly where that map
/// has too many cells; `Memory` may come in place of any answer.
pub fn build<R: Threads + Sync>(rt: &R, alloc: Global, robot: &Robot) -> Result<Map, BuildFault>
    ensures exact { IfOk result (IsMapOf robot.now) }
    ensures limits { IfOk result IsRoadmap }
    ensures sound { IfOk result (EachStored IsSound) }
    ensures passed { IfOk result (EachStored IsPassed) }
    ensures fault { IfErr result (λ fault. (fault ≡ BuildFault.Memory) ⊎ IsTooLong robot.now fault) }
{
    maps_of_robots_are_sound();
    sound_maps_pass();
    arm_and_grid_are_within_limits(robot);
    let road = road_of(alloc, robot)?;
    let sets = sets_of(rt, alloc, robot, &road)?;
    let total = entries(sets.as_slice());
    if MAX_ENTRIES < total {
        return Err(BuildFault::Total(total));
    }
    let sweeps = lists(alloc, sets.as_slice())?;
    match Map::new(robot.arm, robot.grid, road, sweeps) {
        Ok(map) => Ok(map),
        Err(MapFault::Memory) => Err(BuildFault::Memory),
        Err(_) => unreachable!(),
    }
}

/// A law: the robot's arm and grid keep the limits of arms and grids.
fn arm_and_grid_are_within_limits(robot: &Robot)
    ensures arm { IsArm robot.now.arm }
    ensures grid { IsGrid robot.now.grid }
{
    let _links = robot.arm.links();
    let _cells = robot.grid.cells();
}

/// The robot's nodes and edges.
fn road_of(alloc: Global, robot: &Robot) -> Result<Road, Memory>
    ensures exact { IfOk result (IsRoadOf robot.now) }
    ensures limits { IfOk result IsRoad }
    ensures nodes { IfOk result (λ road. All (IsConfig robot.now.arm) road.nodes) }
{
    let nodes = sample(alloc, &robot.arm, robot.seed, robot.draws)?;
    let edges = pairs(alloc, nodes.as_slice(), robot.near)?;
    match Road::new(alloc, nodes, edges) {
        Ok(road) => Ok(road),
        Err(RoadFault::Memory) => Err(Memory),
        Err(_) => unreachable!(),
    }
}
