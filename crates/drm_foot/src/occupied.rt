//! Which cells the shapes of a table of slots occupy.

ghost use Rattle.std.specs.Prelude.{◌≡◌, ◌⊎◌, ◌<◌, ◌↔◌, ℕ, IfOk, IfSome, IsTrue, OnOk, All, Contains, length};
ghost use Rattle.drm_grid.specs.Layout.{cell_count};
ghost use Rattle.drm_grid.specs.CellSet.{Has};
ghost use Rattle.drm_shape.specs.Validity.{IsValid};
ghost use Rattle.drm_foot.specs.Occupied.{HasExactly, IsCovered, Covers};

use crate::cell_box::CellBox;
use crate::footprint::foot;
use drm_grid::{CellSet, Grid};
use drm_outside::Memory;
use drm_shape::Shape;
use std::alloc::Global;

/// Says whether a shape of the table occupies the cell. The cell's bounds are computed once, before the shapes.
pub fn is_covered(grid: &Grid, table: &[Option<Shape>], cell: u32) -> bool
    requires valid { All (λ slot. IfSome slot IsValid) table.now }
    requires on_grid { cell < cell_count grid.now }
    ensures { IsTrue result ↔ IsCovered grid.now table.now cell }
{
    is_touched(&CellBox::of(grid, cell), table)
}

fn is_touched(square: &CellBox, table: &[Option<Shape>]) -> bool
    requires { All (λ slot. IfSome slot IsValid) table.now }
    ensures { IsTrue result ↔ IsCovered square.now.grid table.now square.now.cell }
{
    for slot in table {
        if let Some(shape) = slot
            && square.touches(shape)
        {
            return true;
        }
    }
    false
}

/// The set of all occupied cells.
pub fn covered_cells(alloc: Global, grid: &Grid, table: &[Option<Shape>]) -> Result<CellSet, Memory>
    requires { All (λ slot. IfSome slot IsValid) table.now }
    ensures { IfOk result (λ set. HasExactly (cell_count grid.now) (IsCovered grid.now table.now) set) }
{
    let mut set = CellSet::new(alloc, grid.cells())?;
    for slot in table {
        mark_slot(alloc, grid, slot, &mut set)?;
    }
    Ok(set)
}

/// Adds the cells of what the slot holds.
fn mark_slot(
    alloc: Global,
    grid: &Grid,
    slot: &Option<Shape>,
    set: &mut CellSet,
) -> Result<(), Memory>
    requires valid { IfSome slot.now IsValid }
    requires size { length set.old ≡ cell_count grid.now }
    ensures size { length set.new ≡ length set.old }
    ensures exact { OnOk result ((cell : ℕ) → Has set.new cell ↔ (Has set.old cell ⊎ Covers grid.now slot.now cell)) }
{
    if let Some(shape) = slot {
        let footprint = foot(alloc, grid, *shape)?;
        mark(set, footprint.cells());
    }
    Ok(())
}

/// Adds the cells to the set.
fn mark(set: &mut CellSet, cells: &[u16])
    requires { All (λ cell. cell < length set.old) cells.now }
    ensures size { length set.new ≡ length set.old }
    ensures exact { (cell : ℕ) → Has set.new cell ↔ (Has set.old cell ⊎ Contains cells.now cell) }
{
    for &cell in cells {
        set.insert(cell as u32);
    }
}
