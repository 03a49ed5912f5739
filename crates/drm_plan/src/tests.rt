ghost use Rattle.std.specs.Prelude.{◌≡◌, IfOk, length as count_of};
ghost use Rattle.drm_cellmap.specs.Snapshot.{IsSnapOf};

use super::*;
use drm_arm::{Arm, Link};
use drm_cellmap::{Counts, Map, Snap, sample_map};
use drm_grid::{CellSet, Grid};
use drm_outside::{List, Memory};
use drm_road::{Edge, Road};
use drm_talk::{Answer, End, Tried, Why};
use std::alloc::Global;
use std::test::Fail;

/// The nodes that were tried and refused: `None` is a barred node, and a number the cell that the joining motion meets.
type Refused = &'static [(u32, Option<u32>)];

/// What an ask is to be answered. The ends are joined by the nodes named, with none tried before.
enum Wanted {
    Path(u32, u32, u64, &'static [u32], &'static [Option<u64>]),
    Cut(u32, u32, &'static [u32]),
    NoStart(Refused),
    NoGoal(Refused),
    Unsound(u32, u32, u32, u32),
}

/// Which map is asked.
#[derive(Clone, Copy)]
enum Asked {
    /// The sample map.
    Sample,
    /// The sample map, in which the sweep of edge 0 lacks cell 15.
    Lacking,
    /// Two joints, and a round of four edges; each element has a cell of its own, which no motion sweeps.
    Round,
}

struct Case {
    map: Asked,
    cells: &'static [u32],
    start: &'static [i32],
    goal: &'static [i32],
    wanted: Wanted,
}

const LEAST: [Option<u64>; 4] = [Some(0), Some(1024), Some(1024), Some(2048)];

const MEETS: [(u32, Option<u32>); 4] = [(0, Some(15)), (1, Some(15)), (2, Some(15)), (3, Some(15))];

const CASES: [Case; 10] = [
    Case {
        map: Asked::Sample,
        cells: &[],
        start: &[0],
        goal: &[2048],
        wanted: Wanted::Path(0, 3, 2048, &[0, 1, 3], &LEAST),
    },
    Case {
        map: Asked::Sample,
        cells: &[],
        start: &[0],
        goal: &[0],
        wanted: Wanted::Path(0, 0, 0, &[0], &LEAST),
    },
    Case {
        map: Asked::Sample,
        cells: &[15],
        start: &[0],
        goal: &[1024],
        wanted: Wanted::Cut(0, 1, &[0, 2]),
    },
    Case {
        map: Asked::Sample,
        cells: &[6, 10],
        start: &[0],
        goal: &[1024],
        wanted: Wanted::NoStart(&[(0, None), (1, None), (2, None), (3, None)]),
    },
    Case {
        map: Asked::Sample,
        cells: &[15],
        start: &[512],
        goal: &[0],
        wanted: Wanted::NoStart(&MEETS),
    },
    Case {
        map: Asked::Sample,
        cells: &[15],
        start: &[0],
        goal: &[512],
        wanted: Wanted::NoGoal(&MEETS),
    },
    Case {
        map: Asked::Lacking,
        cells: &[15],
        start: &[0],
        goal: &[1024],
        wanted: Wanted::Unsound(0, 1, 0, 15),
    },
    Case {
        map: Asked::Round,
        cells: &[],
        start: &[0, 0],
        goal: &[512, 512],
        wanted: Wanted::Path(
            0,
            2,
            1024,
            &[0, 3, 2],
            &[Some(0), Some(400), Some(1024), Some(300)],
        ),
    },
    Case {
        map: Asked::Round,
        cells: &[3],
        start: &[0, 0],
        goal: &[512, 512],
        wanted: Wanted::Path(
            0,
            2,
            1224,
            &[0, 1, 2],
            &[Some(0), Some(400), Some(1224), None],
        ),
    },
    Case {
        map: Asked::Round,
        cells: &[1, 3],
        start: &[0, 0],
        goal: &[512, 512],
        wanted: Wanted::Cut(0, 2, &[0]),
    },
];

/// The parts of a map whose grid has so many rows of cells with side 128.
struct Parts {
    rows: u32,
    links: &'static [Link],
    nodes: &'static [&'static [i32]],
    edges: &'static [(u32, u32)],
    sweeps: &'static [&'static [u16]],
}

const LACKING: Parts = Parts {
    rows: 4,
    links: &[Link {
        len: 200,
        radius: 20,
        lo: -2048,
        hi: 2048,
    }],
    nodes: &[&[0], &[1024], &[-1024], &[2048]],
    edges: &[(0, 1), (0, 2), (1, 3)],
    sweeps: &[
        &[5, 6, 7, 9, 10, 11],
        &[5, 6, 9, 10, 13, 14],
        &[1, 2, 5, 6, 9, 10],
        &[5, 6, 8, 9, 10, 12, 13],
        &[5, 6, 7, 9, 10, 11, 13, 14],
        &[1, 2, 3, 5, 6, 7, 9, 10, 11],
        &[5, 6, 8, 9, 10, 12, 13, 14],
    ],
};

const SHORT: Link = Link {
    len: 100,
    radius: 10,
    lo: -1024,
    hi: 1024,
};

const ROUND: Parts = Parts {
    rows: 8,
    links: &[SHORT, SHORT],
    nodes: &[&[0, 0], &[-100, 300], &[512, 512], &[300, 0]],
    edges: &[(0, 1), (0, 3), (1, 2), (2, 3)],
    sweeps: &[&[0], &[1], &[2], &[3], &[4], &[5], &[6], &[7]],
};

fn map_of(alloc: Global, asked: Asked) -> Result<Map, Memory> {
    match asked {
        Asked::Sample => sample_map(alloc),
        Asked::Lacking => map_over(alloc, &LACKING),
        Asked::Round => map_over(alloc, &ROUND),
    }
}

fn map_over(alloc: Global, parts: &Parts) -> Result<Map, Memory> {
    let (Ok(arm), Ok(grid)) = (Arm::new(parts.links), Grid::new(128, parts.rows)) else {
        return Err(Memory);
    };
    let road = road_over(alloc, &arm, parts.nodes, parts.edges)?;
    let mut stored = Vec::new(alloc);
    for cells in parts.sweeps {
        stored.push(List::from_vec(Vec::from_slice(alloc, cells)?))?;
    }
    match Map::new(arm, grid, road, List::from_vec(stored)) {
        Ok(map) => Ok(map),
        Err(_) => Err(Memory),
    }
}

fn road_over(
    alloc: Global,
    arm: &Arm,
    nodes: &[&[i32]],
    edges: &[(u32, u32)],
) -> Result<Road, Memory> {
    let mut configs = Vec::new(alloc);
    for values in nodes {
        let Ok(node) = arm.config(values) else {
            return Err(Memory);
        };
        configs.push(node)?;
    }
    let mut pairs = Vec::new(alloc);
    for &(a, b) in edges {
        pairs.push(Edge { a, b })?;
    }
    match Road::new(alloc, List::from_vec(configs), List::from_vec(pairs)) {
        Ok(road) => Ok(road),
        Err(_) => Err(Memory),
    }
}

/// The snapshot of the map in which these cells are occupied.
fn snap_of(alloc: Global, map: &Map, cells: &[u32]) -> Result<Snap, Memory>
    ensures { IfOk result (IsSnapOf map.now) }
{
    let mut occupied = CellSet::new(alloc, map.grid().cells())?;
    for &cell in cells {
        if cell < occupied.size() {
            occupied.insert(cell);
        }
    }
    if map.grid().cells() != occupied.size() {
        return Err(Memory);
    }
    let counts = Counts::of(alloc, map, &occupied)?;
    Snap::of(alloc, map, 0, occupied, &counts)
}

fn reason(why: Why) -> Option<u32> {
    match why {
        Why::Barred => None,
        Why::Cell(cell) => Some(cell),
    }
}

fn are_refused(tried: &List<Tried>, wanted: Refused) -> bool {
    let tried = tried.as_slice();
    tried.len() == wanted.len()
        && tried
            .iter()
            .zip(wanted)
            .all(|(t, w)| t.node == w.0 && reason(t.why) == w.1)
}

/// Says whether the ends are joined by these nodes, with none tried before.
fn are_joined(start: &End, goal: &End, first: u32, last: u32) -> bool {
    start.node == first
        && goal.node == last
        && start.tried.as_slice().is_empty()
        && goal.tried.as_slice().is_empty()
}

fn is_wanted(answer: &Answer, wanted: &Wanted) -> bool {
    match answer {
        Answer::Path {
            start,
            goal,
            length,
            nodes,
            labels,
        } => match wanted {
            Wanted::Path(first, last, whole, route, least) => {
                are_joined(start, goal, *first, *last)
                    && *length == *whole
                    && nodes.as_slice() == *route
                    && labels.as_slice() == *least
            }
            _ => false,
        },
        Answer::Cut { start, goal, side } => match wanted {
            Wanted::Cut(first, last, nodes) => {
                are_joined(start, goal, *first, *last) && side.as_slice() == *nodes
            }
            _ => false,
        },
        Answer::NoStart { tried } => match wanted {
            Wanted::NoStart(refused) => are_refused(tried, refused),
            _ => false,
        },
        Answer::NoGoal { tried } => match wanted {
            Wanted::NoGoal(refused) => are_refused(tried, refused),
            _ => false,
        },
        Answer::Unsound {
            start,
            goal,
            edge,
            cell,
        } => match wanted {
            Wanted::Unsound(first, last, there, at) => {
                are_joined(start, goal, *first, *last) && *edge == *there && *cell == *at
            }
            _ => false,
        },
    }
}

/// Says whether the ask is answered as wanted.
fn is_answered(alloc: Global, case: &Case) -> Result<bool, Memory> {
    let map = map_of(alloc, case.map)?;
    let snap = snap_of(alloc, &map, case.cells)?;
    let Ok(start) = map.arm().config(case.start) else {
        return Ok(false);
    };
    let Ok(goal) = map.arm().config(case.goal) else {
        return Ok(false);
    };
    let answer = ask(alloc, &map, &snap, &start, &goal)?;
    Ok(is_wanted(&answer, &case.wanted))
}

#[test]
fn asks_are_answered(rt: HostRuntime) -> Result<(), Fail> {
    let alloc = rt.alloc();
    for case in &CASES {
        let answered = is_answered(alloc, case)?;
        assert!(rt; answered);
    }
    Ok(())
}
