//! The sample map, which the program has built in.

ghost use Rattle.std.specs.Prelude.{◌≡◌, [], ◌∷◌, None, IfOk};
ghost use Rattle.drm_arm.specs.Config.{config_fault};
ghost use Rattle.drm_cellmap.specs.Sample.{sample, sample_link, sample_road};

use crate::{Map, MapFault};
use drm_arm::{Arm, Config, Link};
use drm_grid::Grid;
use drm_outside::{List, Memory};
use drm_road::{Edge, Road, RoadFault};
use std::alloc::Global;

/// The sample map: one link of length 200 and radius 20, four configurations, and a grid of 4 by 4 cells of side 128.
/// `Memory` where there is no room for its lists.
pub fn sample_map(alloc: Global) -> Result<Map, Memory>
    ensures { IfOk result (λ map. map ≡ sample) }
{
    let arm = sample_arm();
    let Ok(grid) = Grid::new(128, 4) else {
        unreachable!()
    };
    let road = sample_road(alloc, &arm)?;
    let sweeps = sample_sweeps(alloc)?;
    match Map::new(arm, grid, road, sweeps) {
        Ok(map) => Ok(map),
        Err(MapFault::Memory) => Err(Memory),
        Err(_) => unreachable!(),
    }
}

/// The arm of the sample map.
fn sample_arm() -> Arm
    ensures { result ≡ sample.arm }
{
    let link = Link {
        len: 200,
        radius: 20,
        lo: -2_048,
        hi: 2_048,
    };
    match Arm::new(&[link]) {
        Ok(arm) => arm,
        Err(_) => unreachable!(),
    }
}

/// The nodes and edges of the sample map.
fn sample_road(alloc: Global, arm: &Arm) -> Result<Road, Memory>
    requires { arm.now ≡ sample.arm }
    ensures { IfOk result (λ road. road ≡ sample_road) }
{
    let mut nodes = Vec::with_capacity(alloc, 4)?;
    nodes.push(node(arm, 0))?;
    nodes.push(node(arm, 1_024))?;
    nodes.push(node(arm, -1_024))?;
    nodes.push(node(arm, 2_048))?;
    let edges = vec![in alloc;
        Edge { a: 0, b: 1 },
        Edge { a: 0, b: 2 },
        Edge { a: 1, b: 3 },
    ]?;
    match Road::new(alloc, List::from_vec(nodes), List::from_vec(edges)) {
        Ok(road) => Ok(road),
        Err(RoadFault::Memory) => Err(Memory),
        Err(_) => unreachable!(),
    }
}

/// The configuration of the arm with this one coordinate.
fn node(arm: &Arm, at: i32) -> Config
    requires { config_fault arm.now (at ∷ []) ≡ None }
    ensures { result ≡ at ∷ [] }
{
    match arm.config(&[at]) {
        Ok(config) => config,
        Err(_) => unreachable!(),
    }
}

/// The stored sweeps of the sample map, those of the nodes first.
fn sample_sweeps(alloc: Global) -> Result<List<List<u16>>, Memory>
    ensures { IfOk result (λ sweeps. sweeps ≡ sample.sweeps) }
{
    let mut sweeps = Vec::with_capacity(alloc, 7)?;
    sweeps.push(sweep(alloc, &[5, 6, 7, 9, 10, 11])?)?;
    sweeps.push(sweep(alloc, &[5, 6, 9, 10, 13, 14])?)?;
    sweeps.push(sweep(alloc, &[1, 2, 5, 6, 9, 10])?)?;
    sweeps.push(sweep(alloc, &[5, 6, 8, 9, 10, 12, 13])?)?;
    sweeps.push(sweep(alloc, &[5, 6, 7, 9, 10, 11, 13, 14, 15])?)?;
    sweeps.push(sweep(alloc, &[1, 2, 3, 5, 6, 7, 9, 10, 11])?)?;
    sweeps.push(sweep(alloc, &[5, 6, 8, 9, 10, 12, 13, 14])?)?;
    Ok(List::from_vec(sweeps))
}

/// A list of cells on the heap.
fn sweep(alloc: Global, cells: &[u16]) -> Result<List<u16>, Memory>
    ensures { IfOk result (λ list. list ≡ cells.now) }
{
    Ok(List::from_vec(Vec::from_slice(alloc, cells)?))
}
