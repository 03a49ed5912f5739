//! A cell with its bounds, against which shape after shape is tested.

ghost use Rattle.std.specs.Prelude.{◌≡◌, ◌<◌, ◌↔◌, ◌≤ℤ◌, IsTrue, All};
ghost use Rattle.drm_grid.specs.Layout.{cell_count};
ghost use Rattle.drm_shape.specs.Validity.{IsValid, IsCoordinate};
ghost use Rattle.drm_shape.specs.declared.Shape.TheVariants.{Disc};
ghost use Rattle.drm_foot.specs.Foot.{Foot};
ghost use Rattle.drm_foot.specs.Separation.{IsUnseparatedByRing};
ghost use Rattle.drm_foot.specs.Bounds.{ReachesCell};
ghost use Rattle.drm_foot.specs.Sides.{IsSmallSide};
ghost use Rattle.drm_foot.specs.Reached.{IsReached};

use crate::bounds::Bounds;
use crate::disc::{gap, is_within};
use crate::side::Side;
use drm_grid::Grid;
use drm_shape::{Ring, Shape};
use std::marker::Model;

/// A cell of a grid with its bounds, which are computed once: a test of a shape then compares coordinates alone.
#[derive(Debug, Drop)]
pub struct CellBox {
    grid: Grid,
    cell: u32,
    left: i32,
    right: i32,
    bottom: i32,
    top: i32,
}

impl Model for CellBox {
    ghost use Rattle.drm_foot.specs.Square.{Square, AreBounds};

    ghost Value = { Square };

    ghost view = { λ a. record { grid = a.grid; cell = a.cell } };

    ghost invariant = { λ a. AreBounds (record { grid = a.grid; cell = a.cell }) a.left a.right a.bottom a.top };
}

impl CellBox {
    /// The cell of the grid with its bounds.
    pub fn of(grid: &Grid, cell: u32) -> CellBox
        requires { cell < cell_count grid.now }
        ensures grid { result.grid ≡ grid.now }
        ensures cell { result.cell ≡ cell }
    {
        let n = grid.n();
        let column = cell % n;
        let row = cell / n;
        CellBox {
            grid: *grid,
            cell,
            left: grid.line(column),
            right: grid.line(column + 1),
            bottom: grid.line(row),
            top: grid.line(row + 1),
        }
    }

    /// Says whether the cell is in the footprint of the shape.
    pub fn touches(&self, shape: &Shape) -> bool
        requires { IsValid shape.now }
        ensures { IsTrue result ↔ Foot self.now.grid shape.now self.now.cell }
    {
        match shape {
            Shape::Rect { x0, y0, x1, y1 } => self.meets_box(&Bounds {
                x0: *x0,
                y0: *y0,
                x1: *x1,
                y1: *y1,
            }),
            Shape::Disc { x, y, r } => self.meets_disc(*x, *y, *r),
            Shape::Poly(ring) => {
                self.meets_box(&Bounds::of_ring(ring)) && self.meets_sides(ring)
            }
        }
    }

    /// Says whether the bounds reach the column and the row of the cell.
    fn meets_box(&self, bounds: &Bounds) -> bool
        ensures exact { IsTrue result ↔ ReachesCell self.now.grid bounds.now self.now.cell }
        ensures in_grid { self.now.cell < cell_count self.now.grid }
    {
        meet(bounds.x0, bounds.x1, self.left, self.right)
            && meet(bounds.y0, bounds.y1, self.bottom, self.top)
    }

    /// Says whether the point of the cell that is nearest to the centre of the disc is in the disc.
    fn meets_disc(&self, x: i32, y: i32, r: u32) -> bool
        requires { IsValid (Disc x y r) }
        ensures { IsTrue result ↔ Foot self.now.grid (Disc x y r) self.now.cell }
    {
        is_within(
            gap(x, self.left, self.right),
            gap(y, self.bottom, self.top),
            r,
        )
    }

    /// Says whether no side of the ring has all four corners of the cell strictly on its right.
    fn meets_sides(&self, ring: &Ring) -> bool
        requires { All IsCoordinate ring.now }
        ensures { IsTrue result ↔ IsUnseparatedByRing self.now.grid ring.now self.now.cell }
    {
        for i in 0..ring.corners() {
            if !self.is_reached_by(Side::of(ring, i)) {
                return false;
            }
        }
        true
    }

    /// Says whether a corner of the cell is on the left of the side, or on its line.
    fn is_reached_by(&self, side: Side) -> bool
        requires { IsSmallSide side }
        ensures { IsTrue result ↔ IsReached self.now side }
    {
        side.reaches(
            i64::from(self.left),
            i64::from(self.right),
            i64::from(self.bottom),
            i64::from(self.top),
        )
    }
}

/// Says whether two closed intervals, each given by its ends, have a number in common.
fn meet(low: i32, high: i32, start: i32, end: i32) -> bool
    ensures { IsTrue result ↔ ((low ≤ℤ end) × (start ≤ℤ high)) }
{
    low <= end && start <= high
}
