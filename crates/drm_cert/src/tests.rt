ghost use Rattle.std.specs.Prelude.{◌≡◌, IfOk, length};
ghost use Rattle.drm_cellmap.specs.Routes.{HasFlagsOf};

use super::*;
use drm_cellmap::{Counts, Map, Snap, sample_map};
use drm_grid::CellSet;
use drm_outside::Memory;
use std::alloc::Global;
use std::test::Fail;

struct PathCase {
    cells: &'static [u32],
    from: u32,
    to: u32,
    nodes: &'static [u32],
    length: u64,
    labels: &'static [Option<u64>],
    holds: bool,
}

const PATHS: [PathCase; 13] = [
    PathCase {
        cells: &[],
        from: 2,
        to: 3,
        nodes: &[2, 0, 1, 3],
        length: 3072,
        labels: &[Some(1024), Some(2048), Some(0), Some(3072)],
        holds: true,
    },
    PathCase {
        cells: &[],
        from: 2,
        to: 3,
        nodes: &[2, 0, 1, 3],
        length: 3071,
        labels: &[Some(1024), Some(2048), Some(0), Some(3072)],
        holds: false,
    },
    PathCase {
        cells: &[],
        from: 2,
        to: 3,
        nodes: &[2, 0, 1, 3],
        length: 18_446_744_073_709_551_615,
        labels: &[Some(1024), Some(2048), Some(0), Some(3072)],
        holds: false,
    },
    PathCase {
        cells: &[],
        from: 2,
        to: 3,
        nodes: &[2, 1, 3],
        length: 3072,
        labels: &[Some(1024), Some(2048), Some(0), Some(3072)],
        holds: false,
    },
    PathCase {
        cells: &[],
        from: 2,
        to: 3,
        nodes: &[2, 0, 1],
        length: 3072,
        labels: &[Some(1024), Some(2048), Some(0), Some(3072)],
        holds: false,
    },
    PathCase {
        cells: &[],
        from: 2,
        to: 3,
        nodes: &[0, 1, 3],
        length: 3072,
        labels: &[Some(1024), Some(2048), Some(0), Some(3072)],
        holds: false,
    },
    PathCase {
        cells: &[],
        from: 2,
        to: 3,
        nodes: &[2, 0, 1, 4],
        length: 3072,
        labels: &[Some(1024), Some(2048), Some(0), Some(3072)],
        holds: false,
    },
    PathCase {
        cells: &[],
        from: 2,
        to: 3,
        nodes: &[],
        length: 3072,
        labels: &[Some(1024), Some(2048), Some(0), Some(3072)],
        holds: false,
    },
    PathCase {
        cells: &[],
        from: 2,
        to: 3,
        nodes: &[2, 0, 1, 3],
        length: 3072,
        labels: &[Some(1024), Some(2048), Some(0)],
        holds: false,
    },
    PathCase {
        cells: &[],
        from: 2,
        to: 3,
        nodes: &[2, 0, 1, 3],
        length: 3072,
        labels: &[Some(1024), None, Some(0), Some(3072)],
        holds: false,
    },
    PathCase {
        cells: &[15],
        from: 2,
        to: 3,
        nodes: &[2, 0, 1, 3],
        length: 3072,
        labels: &[Some(1024), Some(2048), Some(0), Some(3072)],
        holds: false,
    },
    PathCase {
        cells: &[15],
        from: 2,
        to: 0,
        nodes: &[2, 0],
        length: 1024,
        labels: &[
            Some(1024),
            Some(18_446_744_073_709_551_615),
            Some(0),
            Some(18_446_744_073_709_550_591),
        ],
        holds: true,
    },
    PathCase {
        cells: &[0, 8, 12],
        from: 3,
        to: 3,
        nodes: &[3],
        length: 0,
        labels: &[None, None, None, Some(0)],
        holds: false,
    },
];

struct CutCase {
    cells: &'static [u32],
    side: &'static [u32],
    holds: bool,
}

const CUTS: [CutCase; 8] = [
    CutCase {
        cells: &[15],
        side: &[0, 2],
        holds: true,
    },
    CutCase {
        cells: &[15],
        side: &[2],
        holds: false,
    },
    CutCase {
        cells: &[15],
        side: &[2, 0],
        holds: false,
    },
    CutCase {
        cells: &[15],
        side: &[0, 2, 2],
        holds: false,
    },
    CutCase {
        cells: &[15],
        side: &[0, 2, 4],
        holds: false,
    },
    CutCase {
        cells: &[15],
        side: &[0, 1, 2, 3],
        holds: false,
    },
    CutCase {
        cells: &[15],
        side: &[],
        holds: false,
    },
    CutCase {
        cells: &[],
        side: &[0, 2],
        holds: false,
    },
];

/// The cells of the list, in a set of the sample map's grid.
fn set_of(alloc: Global, cells: &[u32]) -> Result<CellSet, Memory>
    ensures { IfOk result (λ set. length set ≡ 16) }
{
    let Ok(mut set) = CellSet::new(alloc, 16) else {
        return Err(Memory);
    };
    for &cell in cells {
        if cell < 16 {
            set.insert(cell);
        }
    }
    Ok(set)
}

/// What the cells bar in a map with as many cells as the sample map.
fn snap_of(alloc: Global, map: &Map, cells: &[u32]) -> Result<Snap, Memory>
    ensures { IfOk result (λ snap. HasFlagsOf map.now.road snap) }
{
    let occupied = set_of(alloc, cells)?;
    if map.grid().cells() != 16 {
        return Err(Memory);
    }
    let counts = Counts::of(alloc, map, &occupied)?;
    Snap::of(alloc, map, 0, occupied, &counts)
}

#[test]
fn path_certificates(rt: HostRuntime) -> Result<(), Fail> {
    let alloc = rt.alloc();
    let map = sample_map(alloc)?;
    for case in &PATHS {
        let snap = snap_of(alloc, &map, case.cells)?;
        let holds = holds_path(
            map.road(),
            &snap,
            case.from,
            case.to,
            case.nodes,
            case.length,
            case.labels,
        );
        assert_eq!(rt; holds, case.holds);
    }
    Ok(())
}

#[test]
fn cut_certificates(rt: HostRuntime) -> Result<(), Fail> {
    let alloc = rt.alloc();
    let map = sample_map(alloc)?;
    for case in &CUTS {
        let snap = snap_of(alloc, &map, case.cells)?;
        let holds = holds_cut(map.road(), &snap, 2, 3, case.side);
        assert_eq!(rt; holds, case.holds);
    }
    Ok(())
}
