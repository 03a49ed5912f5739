//! How many cells of a list the obstacles of a table of slots occupy.

ghost use Rattle.std.specs.Prelude.{◌<◌, ◌≤◌, IfSome, All, length};
ghost use Rattle.drm_grid.specs.Layout.{cell_count};
ghost use Rattle.drm_shape.specs.Validity.{IsValid};
ghost use Rattle.drm_cellmap.specs.Limits.{max_entries};
ghost use Rattle.drm_cellmap.specs.Tally.{IsTally};
ghost use Rattle.drm_foot.specs.Occupied.{IsCovered};

use drm_foot::is_covered;
use drm_grid::Grid;
use drm_shape::Shape;

/// How many of the cells are occupied.
pub fn covered_among(grid: &Grid, table: &[Option<Shape>], cells: &[u16]) -> u32
    requires valid { All (λ slot. IfSome slot IsValid) table.now }
    requires on_grid { All (λ cell. cell < cell_count grid.now) cells.now }
    requires few { length cells.now ≤ max_entries }
    ensures { IsTally (IsCovered grid.now table.now) cells.now result }
{
    let mut count = 0;
    for &cell in cells {
        if is_covered(grid, table, cell as u32) {
            count += 1;
        }
    }
    count
}
