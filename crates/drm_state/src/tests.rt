use super::*;
use drm_cellmap::{Map, sample_map};
use drm_foot::foot;
use drm_grid::Grid;
use drm_outside::Memory;
use drm_shape::Shape;
use drm_talk::{Element, Entry};
use std::alloc::Global;
use std::sync::Arc;
use std::test::Fail;

/// In cell 15 alone, and in cell 3 alone.
const TOP: Shape = Shape::Rect {
    x0: 140,
    y0: 140,
    x1: 150,
    y1: 150,
};

const BOTTOM: Shape = Shape::Rect {
    x0: 140,
    y0: -150,
    x1: 150,
    y1: -140,
};

struct Step {
    slot: u16,
    shape: Option<Shape>,
    /// What is known afterwards: the counts of edges 0 and 1, the barred nodes and edges, and the journal's length.
    counts: (u32, u32),
    totals: (u32, u32),
    number: u32,
}

const STEPS: [Step; 7] = [
    Step {
        slot: 1,
        shape: Some(TOP),
        counts: (1, 0),
        totals: (0, 1),
        number: 1,
    },
    // A second obstacle in the same cell.
    Step {
        slot: 1023,
        shape: Some(TOP),
        counts: (1, 0),
        totals: (0, 1),
        number: 2,
    },
    Step {
        slot: 1,
        shape: None,
        counts: (1, 0),
        totals: (0, 1),
        number: 3,
    },
    // A put on a full slot.
    Step {
        slot: 1023,
        shape: Some(BOTTOM),
        counts: (0, 1),
        totals: (0, 1),
        number: 4,
    },
    // No slot of the table.
    Step {
        slot: 1024,
        shape: Some(TOP),
        counts: (0, 1),
        totals: (0, 1),
        number: 4,
    },
    Step {
        slot: 1023,
        shape: None,
        counts: (0, 0),
        totals: (0, 0),
        number: 5,
    },
    // A delete of an empty slot is an entry like any other.
    Step {
        slot: 7,
        shape: None,
        counts: (0, 0),
        totals: (0, 0),
        number: 6,
    },
];

fn op_of(alloc: Global, grid: &Grid, seq: u32, step: &Step) -> Result<Op, Memory> {
    let Some(shape) = step.shape else {
        return Ok(Op::del(3, seq, step.slot));
    };
    match shape.check() {
        Ok(()) => Ok(Op::put(3, seq, step.slot, foot(alloc, grid, shape)?)),
        Err(_) => Ok(Op::del(3, seq, step.slot)),
    }
}

#[test]
fn each_edit_changes_the_slots_and_the_counts(rt: HostRuntime) -> Result<(), Fail> {
    let alloc = rt.alloc();
    let map: Map = sample_map(alloc)?;
    let grid = *map.grid();
    let mut state = State::new(alloc, Arc::new(alloc, map)?)?;
    assert_eq!(rt; state.number(), 0);
    for (place, step) in STEPS.iter().enumerate() {
        let before = state.number();
        state.apply(&op_of(alloc, &grid, before, step)?);
        let edges = (state.count(Element::Edge(0)), state.count(Element::Edge(1)));
        assert_eq!(rt;
            edges,
            (Some(step.counts.0), Some(step.counts.1)),
            "step {place}"
        );
        assert_eq!(rt; state.number(), step.number, "step {place}");
        if step.number > before {
            assert_eq!(rt; state.slot(step.slot), step.shape, "step {place}");
            let entry = Entry {
                caller: 3,
                seq: before,
                slot: step.slot,
                shape: step.shape,
            };
            assert_eq!(rt; state.entry(before), Some(entry), "step {place}");
        }
        let snap = state.snap(alloc)?;
        assert_eq!(rt; snap.number(), step.number, "step {place}");
        assert_eq!(rt; snap.totals(), step.totals, "step {place}");
    }
    assert_eq!(rt; state.entry(6), None);
    assert_eq!(rt; state.slot(1024), None);
    assert_eq!(rt; state.count(Element::Node(4)), None);
    Ok(())
}

#[test]
fn a_footprint_of_another_grid_changes_nothing(rt: HostRuntime) -> Result<(), Fail> {
    let alloc = rt.alloc();
    let mut state = State::new(alloc, Arc::new(alloc, sample_map(alloc)?)?)?;
    if let Ok(other) = Grid::new(128, 6)
        && TOP.check().is_ok()
    {
        state.apply(&Op::put(0, 1, 0, foot(alloc, &other, TOP)?));
    }
    assert_eq!(rt; state.number(), 0);
    assert_eq!(rt; state.slot(0), None);
    Ok(())
}
