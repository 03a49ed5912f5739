//! The grid of workspace cells: how large a cell is, and how many there are.

ghost use Rattle.std.specs.Prelude.{◌≡◌, ◌↔◌, ◌^◌, ◌≤◌, None, IsTrue, IfOk};
ghost use Rattle.std.specs.Result.{result_err};
ghost use Rattle.drm_num.specs.Reciprocal.{IsReciprocal};
ghost use Rattle.drm_grid.specs.Layout.{IsGrid, IsSide, cell_count, reciprocal_of};
ghost use Rattle.drm_grid.specs.GridFault.{is_side, is_row_count, grid_fault};
ghost use Rattle.drm_grid.specs.Fits.{Fits};

use drm_arm::Arm;
use std::error::Error;
use std::fmt;
use std::marker::Model;

/// The least side of a cell, in workspace units.
pub const MIN_SIDE: u32 = 128;
/// The greatest side of a cell, in workspace units.
pub const MAX_SIDE: u32 = 1_024;
/// A side is a multiple of this number of workspace units.
pub const SIDE_STEP: u32 = 8;
/// The least number of rows.
pub const MIN_ROWS: u32 = 2;
/// The greatest number of rows.
pub const MAX_ROWS: u32 = 128;

/// The square grid of workspace cells: as many rows as columns, centred on the base at (0, 0).
///
/// Cells are numbered row by row. Row 0 has the least y, and column 0 the least x. A cell is closed: its
/// border belongs to it, so neighbours share their border.
#[derive(Clone, Copy, Debug, PartialEq, Eq)]
pub struct Grid {
    side: u32,
    n: u32,
    // 2^40 / side, rounded up: by it a quotient by the side is found without a division.
    reciprocal: u64,
}

impl Model for Grid {
    ghost use Rattle.std.specs.Prelude.{◌≡◌};
    ghost use Rattle.drm_grid.specs.Layout.{Layout, IsGrid, reciprocal_of};

    ghost Value = { Layout };

    ghost view = { λ grid. record { side = grid.side; n = grid.n } };

    ghost inverse = { λ layout. record { side = layout.side; n = layout.n; reciprocal = reciprocal_of layout.side } };

    ghost invariant = { λ grid. IsGrid (record { side = grid.side; n = grid.n })
        × (grid.reciprocal ≡ reciprocal_of grid.side) };
}

/// The first number that a grid may not have, in the order in which they are tested.
#[derive(Clone, Copy, Debug, PartialEq, Eq)]
pub enum GridFault {
    /// The side of a cell is below 128 or above 1,024 units, or no multiple of 8.
    Side,
    /// The number of rows is below 2 or above 128, or odd.
    Count,
}

impl fmt::Display for GridFault {
    ghost use Rattle.std.specs.Prelude.{Some};
    ghost use Rattle.drm_grid.specs.FaultText.{grid_fault_text};

    ghost output = { λ fault. Some (grid_fault_text fault) };

    fn fmt<W: fmt::Write>(&self, f: &mut fmt::Formatter<W>) -> fmt::Result {
        match self {
            GridFault::Side => write!(
                f,
                "the side of a cell is not a multiple of {SIDE_STEP} from {MIN_SIDE} to {MAX_SIDE}"
            ),
            GridFault::Count => write!(
                f,
                "the number of rows is not an even number from {MIN_ROWS} to {MAX_ROWS}"
            ),
        }
    }
}

impl Error for GridFault {}

impl Grid {
    /// The grid whose cells have the given side, in workspace units, and which has `n` rows and `n` columns.
    pub fn new(side: u32, n: u32) -> Result<Grid, GridFault>
        ensures fault { result_err result ≡ grid_fault side n }
        ensures layout { IfOk result (λ grid. grid ≡ record { side = side; n = n }) }
        ensures limits { IfOk result (λ grid. IsGrid grid) }
        ensures valid { (grid_fault side n ≡ None) ↔ IsGrid (record { side = side; n = n }) }
    {
        if !is_side(side) {
            return Err(GridFault::Side);
        }
        if !is_row_count(n) {
            return Err(GridFault::Count);
        }
        Ok(Grid {
            side,
            n,
            reciprocal: reciprocal_of(side),
        })
    }

    /// The side of a cell, in workspace units.
    pub fn side(&self) -> u32
        ensures exact { result ≡ self.now.side }
        ensures limits { IsGrid self.now }
    {
        self.side
    }

    /// `2^40 / side`, rounded up.
    pub(crate) fn reciprocal(&self) -> u64
        ensures exact { IsReciprocal (2 ^ 40) self.now.side result }
        ensures small { result ≤ 2 ^ 34 }
        ensures limits { IsGrid self.now }
    {
        self.reciprocal
    }

    /// The number of rows, which is also the number of columns.
    pub fn n(&self) -> u32
        ensures exact { result ≡ self.now.n }
        ensures limits { IsGrid self.now }
    {
        self.n
    }

    /// The number of cells.
    pub fn cells(&self) -> u32
        ensures exact { result ≡ cell_count self.now }
        ensures limits { IsGrid self.now }
    {
        self.n * self.n
    }

    /// Says whether the arm, stretched out in any direction, stays within the grid: whether its reach and its
    /// greatest radius together are at most half of the grid's width.
    pub fn fits(&self, arm: &Arm) -> bool
        ensures { IsTrue result ↔ Fits self.now arm.now }
    {
        let half = self.side() * (self.n() / 2);
        let reach = arm.reach();
        for k in 0..arm.links() {
            if half < reach + arm.link(k).radius {
                return false;
            }
        }
        true
    }
}

/// `2^40 / side`, rounded up.
fn reciprocal_of(side: u32) -> u64
    requires { IsSide side }
    ensures { result ≡ reciprocal_of side }
{
    ((1 << 40) - 1) / u64::from(side) + 1
}

/// Says whether a grid may have this side.
fn is_side(side: u32) -> bool
    ensures { result ≡ is_side side }
{
    MIN_SIDE <= side && side <= MAX_SIDE && side % SIDE_STEP == 0
}

/// Says whether a grid may have this number of rows.
fn is_row_count(n: u32) -> bool
    ensures { result ≡ is_row_count n }
{
    MIN_ROWS <= n && n <= MAX_ROWS && n % 2 == 0
}
