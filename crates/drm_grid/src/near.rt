//! Which cells are near a box.

ghost use Rattle.std.specs.Prelude.{◌≡◌, ◌^◌, ◌<◌, ◌≤◌, ◌↔◌, IsTrue, pos, ◌+ℤ◌, ◌*ℤ◌, ◌≤ℤ◌};
ghost use Rattle.drm_num.specs.Interval.{EndsWithin, unit};
ghost use Rattle.drm_num.specs.Small.{IsSmall};
ghost use Rattle.drm_grid.specs.Layout.{IsGrid, cell_count, row_of};
ghost use Rattle.drm_grid.specs.Limits.{greatest_distance};
ghost use Rattle.drm_grid.specs.Near.{IsNearBox};

use crate::grid::Grid;
use drm_num::Iv;

/// The greatest distance that is asked of a cell and a box, in workspace units.
pub const MAX_DISTANCE: u32 = 2_048;

impl Grid {
    /// Says whether the closed cell is at most `far` workspace units from the box of all points with x and y in the
    /// two intervals, whose ends are in ulps. It is exact: where the distance is `far`, the cell is near.
    pub fn near_box(&self, x: Iv, y: Iv, cell: u32, far: u32) -> bool
        requires on_grid { cell < cell_count self.now }
        requires x_in { EndsWithin (pos (2 ^ 50)) x }
        requires y_in { EndsWithin (pos (2 ^ 50)) y }
        requires far { far ≤ greatest_distance }
        ensures { IsTrue result ↔ IsNearBox self.now x y cell far }
    {
        self.near_box_in_row(x, y, cell / self.n(), cell, far)
    }

    /// The same of a cell of which the row is known, which saves the division that finds it.
    pub fn near_box_in_row(&self, x: Iv, y: Iv, row: u32, cell: u32, far: u32) -> bool
        requires on_grid { cell < cell_count self.now }
        requires row { row ≡ row_of self.now cell }
        requires x_in { EndsWithin (pos (2 ^ 50)) x }
        requires y_in { EndsWithin (pos (2 ^ 50)) y }
        requires far { far ≤ greatest_distance }
        ensures { IsTrue result ↔ IsNearBox self.now x y cell far }
    {
        let column = cell - row * self.n();
        is_within(
            x.gap(self.strip(column)),
            y.gap(self.strip(row)),
            i64::from(far) * (1 << 30),
        )
    }
}

/// Says whether a vector is no longer than `far`.
fn is_within(across: i64, up: i64, far: i64) -> bool
    requires across { pos 0 ≤ℤ across }
    requires up { pos 0 ≤ℤ up }
    requires far { pos 0 ≤ℤ far }
    ensures { IsTrue result ↔ (((across *ℤ across) +ℤ (up *ℤ up)) ≤ℤ (far *ℤ far)) }
{
    square(across) + square(up) <= square(far)
}

/// The square of a number, of which two together fit 128 bits.
fn square(x: i64) -> i128
    requires { pos 0 ≤ℤ x }
    ensures value { result ≡ x *ℤ x }
    ensures small { IsSmall (pos 85070591730234615847396907784232501249) result }
{
    i128::from(x) * i128::from(x)
}
