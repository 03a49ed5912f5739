use super::*;
use drm_grid::Grid;
use drm_shape::{Ring, Shape};
use std::test::Fail;

/// The number of rows, the bounds of a box, and the cells of its footprint where a side is 128 units.
const CASES: [(u32, [i32; 4], &[u16]); 11] = [
    (4, [140, 140, 150, 150], &[15]),
    (4, [140, -150, 150, -140], &[3]),
    (4, [0, 0, 0, 0], &[5, 6, 9, 10]),
    (4, [160, 160, 170, 170], &[15]),
    (4, [256, 256, 300, 300], &[15]),
    (4, [257, 0, 300, 0], &[]),
    (4, [-300, -300, -256, -256], &[0]),
    (4, [-300, -300, 300, -257], &[]),
    (4, [-128, -1, -128, 0], &[4, 5, 8, 9]),
    (16, [0, 0, 0, 0], &[119, 120, 135, 136]),
    (
        4,
        [-65_536, -65_536, 65_536, 65_536],
        &[0, 1, 2, 3, 4, 5, 6, 7, 8, 9, 10, 11, 12, 13, 14, 15],
    ),
];

#[test]
fn footprints_are_the_cells_that_share_a_point(rt: HostRuntime) -> Result<(), Fail> {
    for (n, [x0, y0, x1, y1], want) in CASES {
        let grid = Grid::new(128, n)?;
        let shape = Shape::Rect { x0, y0, x1, y1 };
        shape.check()?;
        let footprint = foot(rt.alloc(), &grid, shape)?;
        assert_eq!(rt; footprint.cells(), want);
        assert_eq!(rt; footprint.grid(), grid);
        assert_eq!(rt; footprint.shape(), shape);
        for cell in 0..grid.cells() {
            let among = want.contains(&(cell as u16));
            assert_eq!(rt; in_foot(&grid, &shape, cell), among, "{cell}");
        }
    }
    Ok(())
}

#[test]
fn shapes_of_a_table_occupy_their_cells(rt: HostRuntime) -> Result<(), Fail> {
    let grid = Grid::new(128, 4)?;
    let low = Shape::Rect {
        x0: 140,
        y0: -150,
        x1: 150,
        y1: -140,
    };
    let middle = Shape::Rect {
        x0: 0,
        y0: 0,
        x1: 0,
        y1: 0,
    };
    low.check()?;
    middle.check()?;
    let table = [None, Some(low), None, Some(middle)];
    let set = covered_cells(rt.alloc(), &grid, &table)?;
    for cell in 0..grid.cells() {
        let among = [3, 5, 6, 9, 10].contains(&cell);
        assert_eq!(rt; is_covered(&grid, &table, cell), among, "{cell}");
        assert_eq!(rt; set.has(cell), among, "{cell}");
    }
    Ok(())
}

/// The number of rows, a disc, and the cells of its footprint where a side is 128 units.
const DISCS: [(u32, (i32, i32, u32), &[u16]); 7] = [
    (16, (64, 64, 64), &[120, 135, 136, 137, 152]),
    (16, (64, 64, 0), &[136]),
    (4, (0, 0, 0), &[5, 6, 9, 10]),
    (4, (60_000, 0, 5), &[]),
    (4, (384, 0, 128), &[7, 11]),
    (4, (-300, -300, 62), &[]),
    (4, (-300, -300, 63), &[0]),
];

#[test]
fn discs_touch_the_cells_whose_nearest_point_they_hold(rt: HostRuntime) -> Result<(), Fail> {
    for (n, (x, y, r), want) in DISCS {
        let grid = Grid::new(128, n)?;
        let shape = Shape::Disc { x, y, r };
        shape.check()?;
        let footprint = foot(rt.alloc(), &grid, shape)?;
        assert_eq!(rt; footprint.cells(), want);
        for cell in 0..grid.cells() {
            let among = want.contains(&(cell as u16));
            assert_eq!(rt; in_foot(&grid, &shape, cell), among, "{cell}");
        }
    }
    Ok(())
}

/// The number of rows, the corners of a ring, and the cells of its footprint where a side is 128 units.
const RINGS: [(u32, &[i32], &[u16]); 6] = [
    (4, &[0, 0, 10, 0, 0, 10], &[5, 6, 9, 10]),
    (4, &[10, 10, 200, 10, 200, 20, 10, 20], &[10, 11]),
    (
        4,
        &[
            -250, -250, -240, -250, 250, 240, 250, 250, 240, 250, -250, -240,
        ],
        &[0, 1, 4, 5, 6, 9, 10, 11, 14, 15],
    ),
    (4, &[200, 200, 300, 250, 250, 300], &[15]),
    (4, &[257, 0, 300, 0, 300, 10], &[]),
    (4, &[10, -200, 11, 199, 11, 200], &[2, 6, 10, 14]),
];

#[test]
fn rings_touch_the_cells_that_no_side_separates_from_them(rt: HostRuntime) -> Result<(), Fail> {
    for (n, xy, want) in RINGS {
        let grid = Grid::new(128, n)?;
        let Some(ring) = Ring::of(xy) else {
            assert!(rt; false, "no ring");
            continue;
        };
        let shape = Shape::Poly(ring);
        shape.check()?;
        let footprint = foot(rt.alloc(), &grid, shape)?;
        assert_eq!(rt; footprint.cells(), want);
        for cell in 0..grid.cells() {
            let among = want.contains(&(cell as u16));
            assert_eq!(rt; in_foot(&grid, &shape, cell), among, "{cell}");
        }
    }
    Ok(())
}
