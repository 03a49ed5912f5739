//! The footprint of a shape on a grid.

ghost use Rattle.std.specs.Prelude.{◌≡◌, ◌+◌, ◌<◌, ◌≤◌, ◌↔◌, ℕ, Contains, IsTrue, IfOk, OnOk};
ghost use Rattle.std.specs.List.Sorted.{IsStrictlyIncreasing};
ghost use Rattle.drm_grid.specs.Layout.{IsGrid, cell_count};
ghost use Rattle.drm_shape.specs.Validity.{IsValid};
ghost use Rattle.drm_foot.specs.Foot.{Foot, IsFootprint};
ghost use Rattle.drm_foot.specs.Bounds.{IsBoundsOf};
ghost use Rattle.drm_foot.specs.Block.{AreColumns, AddsRun};
ghost use Rattle.drm_grid.specs.Strips.{MeetsStrip};
ghost use Rattle.drm_foot.specs.Laws.{HeldPointsAreInFoot};

use crate::bounds::Bounds;
use crate::cell_box::CellBox;
use crate::disc::disc_columns;
use crate::ring::ring_columns;
use drm_grid::Grid;
use drm_outside::Memory;
use drm_shape::Shape;
use std::alloc::{AllocError, Global};
use std::marker::Model;
use std::ops::Range;

/// A valid shape on a grid, with the cells that it touches.
#[derive(Drop, Debug)]
pub struct Footprint {
    grid: Grid,
    shape: Shape,
    cells: Vec<u16>,
}

impl Model for Footprint {
    ghost use Rattle.drm_foot.specs.Placed.{Placed, IsPlaced};

    ghost Value = { Placed };

    ghost view = { λ a. record { grid = a.grid; shape = a.shape; cells = a.cells.items } };

    ghost invariant = { λ a. IsPlaced (record { grid = a.grid; shape = a.shape; cells = a.cells.items }) };
}

impl Footprint {
    /// The grid.
    pub fn grid(&self) -> Grid
        ensures exact { result ≡ self.now.grid }
        ensures limits { IsGrid self.now.grid }
        ensures valid { IsValid self.now.shape }
        ensures footprint { IsFootprint self.now.grid self.now.shape self.now.cells }
    {
        self.grid
    }

    /// The shape.
    pub fn shape(&self) -> Shape
        ensures exact { result ≡ self.now.shape }
        ensures limits { IsGrid self.now.grid }
        ensures valid { IsValid self.now.shape }
        ensures footprint { IsFootprint self.now.grid self.now.shape self.now.cells }
    {
        self.shape
    }

    /// The cells that the shape touches, in increasing order.
    pub fn cells(&self) -> &[u16]
        ensures exact { result.now ≡ self.now.cells }
        ensures limits { IsGrid self.now.grid }
        ensures valid { IsValid self.now.shape }
        ensures footprint { IsFootprint self.now.grid self.now.shape self.now.cells }
    {
        &self.cells
    }
}

/// Says whether the cell is in the footprint of the shape.
///
/// A box or a disc has the cells that share a point with it. A ring has the cells that no side separates from it: no side
/// of the ring has all four corners of the cell strictly on its right, and no side of the cell has all corners of the
/// ring strictly beyond it. Touching counts.
pub fn in_foot(grid: &Grid, shape: &Shape, cell: u32) -> bool
    requires valid { IsValid shape.now }
    requires on_grid { cell < cell_count grid.now }
    ensures { IsTrue result ↔ Foot grid.now shape.now cell }
{
    CellBox::of(grid, cell).touches(shape)
}

/// The footprint of the shape on the grid.
///
/// It visits the rows that the shape's bounds reach, and in each of them the columns that touch the shape, and no others.
pub fn foot(alloc: Global, grid: &Grid, shape: Shape) -> Result<Footprint, Memory>
    requires { IsValid shape }
    ensures grid { IfOk result (λ footprint. footprint.grid ≡ grid.now) }
    ensures shape { IfOk result (λ footprint. footprint.shape ≡ shape) }
    ensures cells { IfOk result (λ footprint. IsFootprint grid.now shape footprint.cells) }
{
    let cells = cells_of(alloc, grid, &shape)?;
    Ok(Footprint {
        grid: *grid,
        shape,
        cells,
    })
}

/// The cells of the footprint, in increasing order.
fn cells_of(alloc: Global, grid: &Grid, shape: &Shape) -> Result<Vec<u16>, AllocError>
    requires { IsValid shape.now }
    ensures limits { IsGrid grid.now }
    ensures cells { IfOk result (λ cells. IsFootprint grid.now shape.now cells.items) }
{
    let bounds = Bounds::of(shape);
    let columns = grid.strips_met(bounds.x0, bounds.x1);
    let rows = grid.strips_met(bounds.y0, bounds.y1);
    let n = grid.n();
    let mut cells = Vec::with_capacity(alloc, rows.len() * columns.len())?;
    for row in rows.start..rows.end {
        let columns = columns_of(grid, shape, &bounds, row);
        push_run(&mut cells, row * n + columns.start, row * n + columns.end)?;
    }
    Ok(cells)
}

/// The columns of the row in which the shape touches cells.
fn columns_of(grid: &Grid, shape: &Shape, bounds: &Bounds, row: u32) -> Range<u32>
    requires valid { IsValid shape.now }
    requires bounds { IsBoundsOf shape.now bounds.now }
    requires on_grid { row < grid.now.n }
    requires met { MeetsStrip grid.now bounds.now.y0 bounds.now.y1 row }
    ensures { AreColumns grid.now shape.now row result }
{
    match shape {
        Shape::Rect { x0, x1, .. } => grid.strips_met(*x0, *x1),
        Shape::Disc { x, y, r } => disc_columns(grid, *x, *y, *r, row),
        Shape::Poly(ring) => ring_columns(grid, ring, bounds, row),
    }
}

/// Appends the cells from `first` up to `end`, which are above those in the list. It makes room for them at once.
fn push_run(cells: &mut Vec<u16>, first: u32, end: u32) -> Result<(), AllocError>
    requires increasing { IsStrictlyIncreasing cells.old.items }
    requires above { (cell : ℕ) → Contains cells.old.items cell → cell < first }
    requires ordered { first ≤ end }
    requires fits { end ≤ 65536 }
    ensures { OnOk result (AddsRun cells.old.items cells.new.items first end) }
{
    cells.reserve((end - first) as usize)?;
    for cell in first..end {
        cells.push_reserved(cell as u16);
    }
    Ok(())
}

/// The law that a cell which holds a point of a valid shape is in the footprint of the shape.
pub fn holds_are_in_foot()
    ensures { HeldPointsAreInFoot }
{}
