ghost use Rattle.std.specs.Prelude.{◌≡◌, IfOk, length};

use super::*;
use drm_grid::CellSet;
use drm_outside::Memory;
use drm_talk::Element;
use std::alloc::Global;
use std::test::Fail;

struct ElementCase {
    element: Element,
    place: Option<u32>,
    sweep: &'static [u16],
}

const ELEMENTS: [ElementCase; 9] = [
    ElementCase {
        element: Element::Node(0),
        place: Some(0),
        sweep: &[5, 6, 7, 9, 10, 11],
    },
    ElementCase {
        element: Element::Node(1),
        place: Some(1),
        sweep: &[5, 6, 9, 10, 13, 14],
    },
    ElementCase {
        element: Element::Node(2),
        place: Some(2),
        sweep: &[1, 2, 5, 6, 9, 10],
    },
    ElementCase {
        element: Element::Node(3),
        place: Some(3),
        sweep: &[5, 6, 8, 9, 10, 12, 13],
    },
    ElementCase {
        element: Element::Edge(0),
        place: Some(4),
        sweep: &[5, 6, 7, 9, 10, 11, 13, 14, 15],
    },
    ElementCase {
        element: Element::Edge(1),
        place: Some(5),
        sweep: &[1, 2, 3, 5, 6, 7, 9, 10, 11],
    },
    ElementCase {
        element: Element::Edge(2),
        place: Some(6),
        sweep: &[5, 6, 8, 9, 10, 12, 13, 14],
    },
    ElementCase {
        element: Element::Node(4),
        place: None,
        sweep: &[],
    },
    ElementCase {
        element: Element::Edge(3),
        place: None,
        sweep: &[],
    },
];

#[test]
fn elements_have_their_places_and_sweeps(rt: HostRuntime) -> Result<(), Fail> {
    let map = sample_map(rt.alloc())?;
    assert_eq!(rt; (map.grid().side(), map.grid().n()), (128, 4));
    for case in &ELEMENTS {
        let place = map.index(case.element);
        assert_eq!(rt; place, case.place);
        if place.is_some() {
            assert_eq!(rt; map.stored(case.element), case.sweep);
        }
    }
    Ok(())
}

struct SetCase {
    cells: &'static [u32],
    nodes: [u32; 4],
    edges: [u32; 3],
    barred_nodes: [bool; 4],
    barred_edges: [bool; 3],
    totals: (u32, u32),
}

const SETS: [SetCase; 5] = [
    SetCase {
        cells: &[],
        nodes: [0, 0, 0, 0],
        edges: [0, 0, 0],
        barred_nodes: [false, false, false, false],
        barred_edges: [false, false, false],
        totals: (0, 0),
    },
    SetCase {
        cells: &[15],
        nodes: [0, 0, 0, 0],
        edges: [1, 0, 0],
        barred_nodes: [false, false, false, false],
        barred_edges: [true, false, false],
        totals: (0, 1),
    },
    SetCase {
        cells: &[5, 6, 9, 10],
        nodes: [4, 4, 4, 4],
        edges: [4, 4, 4],
        barred_nodes: [true, true, true, true],
        barred_edges: [true, true, true],
        totals: (4, 3),
    },
    SetCase {
        cells: &[3],
        nodes: [0, 0, 0, 0],
        edges: [0, 1, 0],
        barred_nodes: [false, false, false, false],
        barred_edges: [false, true, false],
        totals: (0, 1),
    },
    SetCase {
        cells: &[0, 8, 12],
        nodes: [0, 0, 0, 2],
        edges: [0, 0, 2],
        barred_nodes: [false, false, false, true],
        barred_edges: [false, false, true],
        totals: (1, 1),
    },
];

fn set_of(alloc: Global, cells: &[u32]) -> Result<CellSet, Memory>
    ensures { IfOk result (λ set. length set ≡ 16) }
{
    let Ok(mut set) = CellSet::new(alloc, 16) else {
        return Err(Memory);
    };
    for &cell in cells {
        if cell < 16 {
            set.insert(cell);
        }
    }
    Ok(set)
}

#[test]
fn sets_have_their_counts_and_snapshots(rt: HostRuntime) -> Result<(), Fail> {
    let alloc = rt.alloc();
    let map = sample_map(alloc)?;
    for case in &SETS {
        let occupied = set_of(alloc, case.cells)?;
        let counts = Counts::of(alloc, &map, &occupied)?;
        let nodes = [counts.get(0), counts.get(1), counts.get(2), counts.get(3)];
        assert_eq!(rt; nodes, case.nodes);
        let edges = [counts.get(4), counts.get(5), counts.get(6)];
        assert_eq!(rt; edges, case.edges);
        let snap = Snap::of(alloc, &map, 9, occupied, &counts)?;
        assert_eq!(rt; snap.number(), 9);
        assert_eq!(rt; snap.occupied().has(0), case.cells.contains(&0));
        let barred_nodes = [
            snap.node_barred(0),
            snap.node_barred(1),
            snap.node_barred(2),
            snap.node_barred(3),
        ];
        assert_eq!(rt; barred_nodes, case.barred_nodes);
        let barred_edges = [
            snap.edge_barred(0),
            snap.edge_barred(1),
            snap.edge_barred(2),
        ];
        assert_eq!(rt; barred_edges, case.barred_edges);
        assert_eq!(rt; snap.totals(), case.totals);
    }
    Ok(())
}
