//! The cells of a set that are near a box: whether there are any, and how they are taken out.

ghost use Rattle.std.specs.Prelude.{◌≡◌, false, ◌+◌, ◌*◌, ◌^◌, ◌<◌, ◌≤◌, ℕ, pos, length};
ghost use Rattle.drm_num.specs.Interval.{EndsWithin};
ghost use Rattle.drm_pose.specs.Widths.{IsPlateWithin};
ghost use Rattle.drm_grid.specs.Layout.{IsGrid, cell_count, row_of};
ghost use Rattle.drm_grid.specs.Limits.{greatest_distance};
ghost use Rattle.drm_grid.specs.Near.{IsNearBox};
ghost use Rattle.drm_sweep.specs.Taken.{TakesOut, HasNone};
ghost use Rattle.drm_sweep.specs.Runs.{IsNearAt, IsNearBetween};

use drm_grid::{CellSet, Grid, near_cells_are_in_near_strips};
use drm_pose::Plate;

/// The vicinity of a box on a grid: the cells that are at most `far` units from it.
#[derive(Drop)]
pub(crate) struct Vicinity<'a> {
    pub(crate) grid: &'a Grid,
    pub(crate) plate: Plate,
    pub(crate) far: u32,
    ghost plate_fits: { IsPlateWithin (pos (2 ^ 50)) plate },
    ghost far_fits: { far ≤ greatest_distance },
}

impl Vicinity<'_> {
    /// Takes the cells of the vicinity out of the set.
    pub(crate) fn take_from(&self, cells: &mut CellSet)
        requires size { length cells.old ≡ cell_count self.now.grid.now }
        ensures { TakesOut (λ cell. IsNearBox self.now.grid.now self.now.plate.x self.now.plate.y cell self.now.far)
            cells.old cells.new }
    {
        near_cells_are_in_near_strips();
        let n = self.grid.n();
        let rows = self.grid.strips_near(self.plate.y, self.far);
        let columns = self.grid.strips_near(self.plate.x, self.far);
        for row in rows.start..rows.end {
            let (first, end) = (row * n + columns.start, row * n + columns.end);
            self.take_run(row, first, end, cells);
        }
    }

    /// Takes the cells of the vicinity that are from `first` on and below `end`, which are in one row, out of the set.
    fn take_run(&self, row: u32, first: u32, end: u32, cells: &mut CellSet)
        requires size { length cells.old ≡ cell_count self.now.grid.now }
        requires ordered { first ≤ end }
        requires on_grid { end ≤ cell_count self.now.grid.now }
        requires in_row { (cell : ℕ) → first ≤ cell → cell < end → row ≡ row_of self.now.grid.now cell }
        ensures { TakesOut (IsNearBetween self.now.grid.now self.now.plate self.now.far first end) cells.old cells.new }
    {
        let mut next = first;
        while let Some(cell) = cells.next_in(next, end) {
            self.take_one(row, cell, cells);
            next = cell + 1;
        }
    }

    /// Takes the cell of this row out of the set where it is one of the vicinity.
    fn take_one(&self, row: u32, cell: u32, cells: &mut CellSet)
        requires size { length cells.old ≡ cell_count self.now.grid.now }
        requires on_grid { cell < cell_count self.now.grid.now }
        requires in_row { row ≡ row_of self.now.grid.now cell }
        ensures { TakesOut (IsNearAt self.now.grid.now self.now.plate self.now.far cell) cells.old cells.new }
    {
        if self
            .grid
            .near_box_in_row(self.plate.x, self.plate.y, row, cell, self.far)
        {
            cells.remove(cell);
        }
    }

    /// Says whether the set has a cell of the vicinity.
    pub(crate) fn meets(&self, cells: &CellSet) -> bool
        requires size { length cells.now ≡ cell_count self.now.grid.now }
        ensures { result ≡ false
            → HasNone (λ cell. IsNearBox self.now.grid.now self.now.plate.x self.now.plate.y cell self.now.far)
            cells.now }
    {
        near_cells_are_in_near_strips();
        let n = self.grid.n();
        let near_rows = self.grid.strips_near(self.plate.y, self.far);
        let near_columns = self.grid.strips_near(self.plate.x, self.far);
        for row in near_rows.start..near_rows.end {
            let (first, end) = (row * n + near_columns.start, row * n + near_columns.end);
            if self.meets_run(row, first, end, cells) {
                return true;
            }
        }
        false
    }

    /// Says whether the set has a cell of the vicinity that is from `first` on and below `end`, which are in one row.
    fn meets_run(&self, row: u32, first: u32, end: u32, cells: &CellSet) -> bool
        requires size { length cells.now ≡ cell_count self.now.grid.now }
        requires ordered { first ≤ end }
        requires on_grid { end ≤ cell_count self.now.grid.now }
        requires in_row { (cell : ℕ) → first ≤ cell → cell < end → row ≡ row_of self.now.grid.now cell }
        ensures { result ≡ false
            → HasNone (IsNearBetween self.now.grid.now self.now.plate self.now.far first end) cells.now }
    {
        let mut next = first;
        while let Some(cell) = cells.next_in(next, end) {
            if self
                .grid
                .near_box_in_row(self.plate.x, self.plate.y, row, cell, self.far)
            {
                return true;
            }
            next = cell + 1;
        }
        false
    }
}
