ghost use Rattle.std.specs.Prelude.{◌≡◌, IfOk, length as count_of};
ghost use Rattle.drm_cellmap.specs.Snapshot.{IsSnapOf};

use super::*;
use drm_cellmap::{Counts, Map, Snap, sample_map};
use drm_grid::CellSet;
use drm_outside::Memory;
use drm_talk::{Tried, Why};
use std::alloc::Global;
use std::test::Fail;

/// An ask of the sample map: the occupied cells, the coordinate, the way, and what comes of it. `joins` is the node that
/// joins, after those in `tried`.
struct Case {
    cells: &'static [u32],
    at: i32,
    way: Way,
    joins: Option<u32>,
    tried: &'static [(u32, Option<u32>)],
}

const CASES: [Case; 8] = [
    Case {
        cells: &[],
        at: 0,
        way: Way::Out,
        joins: Some(0),
        tried: &[],
    },
    Case {
        cells: &[],
        at: 2048,
        way: Way::Home,
        joins: Some(3),
        tried: &[],
    },
    Case {
        cells: &[15],
        at: 1024,
        way: Way::Home,
        joins: Some(1),
        tried: &[],
    },
    Case {
        cells: &[6, 10],
        at: 0,
        way: Way::Out,
        joins: None,
        tried: &[(0, None), (1, None), (2, None), (3, None)],
    },
    Case {
        cells: &[15],
        at: 512,
        way: Way::Out,
        joins: None,
        tried: &[(0, Some(15)), (1, Some(15)), (2, Some(15)), (3, Some(15))],
    },
    Case {
        cells: &[15],
        at: 512,
        way: Way::Home,
        joins: None,
        tried: &[(0, Some(15)), (1, Some(15)), (2, Some(15)), (3, Some(15))],
    },
    Case {
        cells: &[11],
        at: 512,
        way: Way::Out,
        joins: Some(1),
        tried: &[(0, None)],
    },
    Case {
        cells: &[8],
        at: 1024,
        way: Way::Out,
        joins: Some(1),
        tried: &[],
    },
];

fn set_of(alloc: Global, cells: &[u32]) -> Result<CellSet, Memory>
    ensures { IfOk result (λ set. count_of set ≡ 16) }
{
    let mut set = CellSet::new(alloc, 16)?;
    for &cell in cells {
        if cell < 16 {
            set.insert(cell);
        }
    }
    Ok(set)
}

fn snap_of(alloc: Global, map: &Map, cells: &[u32]) -> Result<Snap, Memory>
    ensures { IfOk result (IsSnapOf map.now) }
{
    let occupied = set_of(alloc, cells)?;
    if map.grid().cells() != 16 {
        return Err(Memory);
    }
    let counts = Counts::of(alloc, map, &occupied)?;
    Snap::of(alloc, map, 0, occupied, &counts)
}

fn reason(why: Why) -> Option<u32> {
    match why {
        Why::Barred => None,
        Why::Cell(cell) => Some(cell),
    }
}

/// Whether the nodes were tried in this order and refused for these reasons: `None` is a barred node.
fn are_tried(tried: &[Tried], wanted: &[(u32, Option<u32>)]) -> bool {
    tried.len() == wanted.len()
        && tried
            .iter()
            .zip(wanted)
            .all(|(t, w)| t.node == w.0 && reason(t.why) == w.1)
}

#[test]
fn configurations_are_joined(rt: HostRuntime) -> Result<(), Fail> {
    let alloc = rt.alloc();
    let map = sample_map(alloc)?;
    for case in &CASES {
        let snap = snap_of(alloc, &map, case.cells)?;
        let at = map.arm().config(&[case.at]).ok().ok_or("a configuration")?;
        let (node, tried) = match attach(alloc, &map, &snap, &at, case.way)? {
            Attached::Found(end) => (Some(end.node), end.tried),
            Attached::Nothing(tried) => (None, tried),
        };
        assert_eq!(rt; node, case.joins);
        assert!(rt; are_tried(tried.as_slice(), case.tried));
    }
    Ok(())
}

#[test]
fn nodes_are_tried_by_distance_and_number(rt: HostRuntime) -> Result<(), Fail> {
    let alloc = rt.alloc();
    let map = sample_map(alloc)?;
    let cases: [(i32, [u32; 4]); 4] = [
        (0, [0, 1, 2, 3]),
        (512, [0, 1, 2, 3]),
        (1536, [1, 3, 0, 2]),
        (-600, [2, 0, 1, 3]),
    ];
    for (coordinate, wanted) in cases {
        let at = map
            .arm()
            .config(&[coordinate])
            .ok()
            .ok_or("a configuration")?;
        let nodes = candidates(alloc, &map, &at)?;
        assert_eq!(rt; nodes.as_slice(), &wanted[..]);
    }
    Ok(())
}
