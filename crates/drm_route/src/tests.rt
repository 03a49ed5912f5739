ghost use Rattle.std.specs.Prelude.{◌≡◌, ℕ, IfOk, IsTrue, length};
ghost use Rattle.drm_grid.specs.Layout.{cell_count};
ghost use Rattle.drm_cellmap.specs.Snapshot.{IsSnapOf};
ghost use Rattle.drm_cellmap.specs.Routes.{IsSnapOn, IsOpen};

use super::*;
use drm_arm::{Arm, Link};
use drm_cellmap::{Counts, Map, Snap, sample_map};
use drm_grid::{CellSet, Grid};
use drm_outside::{List, Memory};
use drm_road::{Edge, Road};
use std::alloc::Global;
use std::test::Fail;

/// The coordinates of two joints at four nodes.
type Corners = [[i32; 2]; 4];

const FOUR: Corners = [[0, 0], [-100, 300], [512, 512], [300, 0]];

const SQUARE: Corners = [[0, 0], [100, 0], [100, 100], [0, 100]];

struct PathCase {
    corners: Option<Corners>,
    cells: &'static [u32],
    from: u32,
    to: u32,
    nodes: &'static [u32],
    length: u64,
    labels: &'static [Option<u64>],
}

const PATHS: [PathCase; 8] = [
    PathCase {
        corners: Some(FOUR),
        cells: &[],
        from: 0,
        to: 2,
        nodes: &[0, 3, 2],
        length: 1024,
        labels: &[Some(0), Some(400), Some(1024), Some(300)],
    },
    PathCase {
        corners: Some(FOUR),
        cells: &[3],
        from: 0,
        to: 2,
        nodes: &[0, 1, 2],
        length: 1224,
        labels: &[Some(0), Some(400), Some(1224), None],
    },
    PathCase {
        corners: Some(FOUR),
        cells: &[7],
        from: 0,
        to: 2,
        nodes: &[0, 1, 2],
        length: 1224,
        labels: &[Some(0), Some(400), Some(1224), Some(300)],
    },
    PathCase {
        corners: Some(FOUR),
        cells: &[],
        from: 2,
        to: 0,
        nodes: &[2, 3, 0],
        length: 1024,
        labels: &[Some(1024), Some(824), Some(0), Some(724)],
    },
    PathCase {
        corners: Some(SQUARE),
        cells: &[],
        from: 2,
        to: 0,
        nodes: &[2, 1, 0],
        length: 200,
        labels: &[Some(200), Some(100), Some(0), Some(100)],
    },
    PathCase {
        corners: Some(SQUARE),
        cells: &[1],
        from: 2,
        to: 0,
        nodes: &[2, 3, 0],
        length: 200,
        labels: &[Some(200), None, Some(0), Some(100)],
    },
    PathCase {
        corners: None,
        cells: &[],
        from: 0,
        to: 3,
        nodes: &[0, 1, 3],
        length: 2048,
        labels: &[Some(0), Some(1024), Some(1024), Some(2048)],
    },
    PathCase {
        corners: None,
        cells: &[],
        from: 0,
        to: 0,
        nodes: &[0],
        length: 0,
        labels: &[Some(0), Some(1024), Some(1024), Some(2048)],
    },
];

struct CutCase {
    corners: Option<Corners>,
    cells: &'static [u32],
    from: u32,
    to: u32,
    side: &'static [u32],
}

const CUTS: [CutCase; 4] = [
    CutCase {
        corners: Some(FOUR),
        cells: &[1, 3],
        from: 0,
        to: 2,
        side: &[0],
    },
    CutCase {
        corners: Some(FOUR),
        cells: &[4, 7],
        from: 2,
        to: 0,
        side: &[1, 2],
    },
    CutCase {
        corners: None,
        cells: &[15],
        from: 0,
        to: 1,
        side: &[0, 2],
    },
    CutCase {
        corners: None,
        cells: &[15],
        from: 3,
        to: 0,
        side: &[1, 3],
    },
];

/// The map over these nodes, whose edges are a round of four, and in which each element has one cell of its own, the
/// nodes first; or the sample map.
fn map_over(alloc: Global, corners: &Option<Corners>) -> Result<Map, Memory> {
    let Some(corners) = corners else {
        return sample_map(alloc);
    };
    let link = Link {
        len: 100,
        radius: 10,
        lo: -1024,
        hi: 1024,
    };
    let (Ok(arm), Ok(grid)) = (Arm::new(&[link, link]), Grid::new(128, 4)) else {
        return Err(Memory);
    };
    let road = round_of_four(alloc, &arm, corners)?;
    let mut sweeps = Vec::new(alloc);
    for cell in 0..8u16 {
        sweeps.push(List::from_vec(vec![in alloc; cell]?))?;
    }
    match Map::new(arm, grid, road, List::from_vec(sweeps)) {
        Ok(map) => Ok(map),
        Err(_) => Err(Memory),
    }
}

fn round_of_four(alloc: Global, arm: &Arm, corners: &Corners) -> Result<Road, Memory> {
    let mut nodes = Vec::new(alloc);
    for corner in corners {
        let Ok(node) = arm.config(corner) else {
            return Err(Memory);
        };
        nodes.push(node)?;
    }
    let edges = vec![in alloc;
        Edge { a: 0, b: 1 },
        Edge { a: 0, b: 3 },
        Edge { a: 1, b: 2 },
        Edge { a: 2, b: 3 },
    ]?;
    match Road::new(alloc, List::from_vec(nodes), List::from_vec(edges)) {
        Ok(road) => Ok(road),
        Err(_) => Err(Memory),
    }
}

/// What the cells bar in a map with 16 cells.
fn snap_of(alloc: Global, map: &Map, cells: &[u32]) -> Result<Snap, Memory>
    ensures { IfOk result (IsSnapOf map.now) }
{
    let Ok(mut occupied) = CellSet::new(alloc, 16) else {
        return Err(Memory);
    };
    for &cell in cells {
        if cell < occupied.size() {
            occupied.insert(cell);
        }
    }
    if map.grid().cells() != occupied.size() {
        return Err(Memory);
    }
    let counts = Counts::of(alloc, map, &occupied)?;
    Snap::of(alloc, map, 0, occupied, &counts)
}

/// What a search finds where these cells are occupied; nothing where an end of it is barred.
fn found(
    alloc: Global,
    map: &Map,
    cells: &[u32],
    from: u32,
    to: u32,
) -> Result<Option<Found>, Memory> {
    let snap = snap_of(alloc, map, cells)?;
    if !is_open(map, &snap, from) || !is_open(map, &snap, to) {
        return Ok(None);
    }
    Ok(Some(search(alloc, map.road(), &snap, from, to)?))
}

fn is_open(map: &Map, snap: &Snap, node: u32) -> bool
    requires { IsSnapOf map.now snap.now }
    ensures { IsTrue result → IsOpen map.now.road snap.now node }
{
    node < map.road().nodes() && !snap.node_barred(node)
}

/// Says whether this path was found.
fn is_path(found: &Option<Found>, nodes: &[u32], length: u64, labels: &[Option<u64>]) -> bool {
    let Some(
        Found::Path {
            nodes: route,
            length: whole,
            labels: least,
        },
    ) = found
    else {
        return false;
    };
    route.as_slice() == nodes && *whole == length && least.as_slice() == labels
}

/// Says whether this cut was found.
fn is_cut(found: &Option<Found>, side: &[u32]) -> bool {
    let Some(Found::Cut { side: nodes }) = found else {
        return false;
    };
    nodes.as_slice() == side
}

#[test]
fn shortest_paths(rt: HostRuntime) -> Result<(), Fail> {
    let alloc = rt.alloc();
    for case in &PATHS {
        let map = map_over(alloc, &case.corners)?;
        let found = found(alloc, &map, case.cells, case.from, case.to)?;
        let holds = is_path(&found, case.nodes, case.length, case.labels);
        assert!(rt; holds);
    }
    Ok(())
}

#[test]
fn cuts(rt: HostRuntime) -> Result<(), Fail> {
    let alloc = rt.alloc();
    for case in &CUTS {
        let map = map_over(alloc, &case.corners)?;
        let found = found(alloc, &map, case.cells, case.from, case.to)?;
        let holds = is_cut(&found, case.side);
        assert!(rt; holds);
    }
    Ok(())
}
