//! Swept cells, and where they meet a set.

ghost use Rattle.std.specs.Prelude.{◌≡◌, ◌/◌, ◌≤◌, ◌↔◌, ℕ, length, IfOk};
ghost use Rattle.drm_arm.specs.Config.{IsConfig};
ghost use Rattle.drm_arm.specs.Motion.{IsMotion};
ghost use Rattle.drm_grid.specs.CellSet.{Has, IsLeast};
ghost use Rattle.drm_grid.specs.Fits.{Fits};
ghost use Rattle.drm_grid.specs.Layout.{cell_count};
ghost use Rattle.drm_sweep.specs.Swept.{IsSwept};
ghost use Rattle.drm_sweep.specs.Taken.{TakesOut, IsMet};

use crate::sweeper::Sweeper;
use drm_arm::{Arm, Config, Motion};
use drm_grid::{CellSet, Grid};
use drm_outside::Memory;
use std::alloc::Global;

/// The cells of the grid that the motion sweeps with the pad, in workspace units.
///
/// The set holds every cell with a point that comes within the link's radius and the pad of a link's axis at some
/// rational moment. Want of memory is the only refusal.
pub fn sweep(
    alloc: Global,
    arm: &Arm,
    grid: &Grid,
    motion: &Motion,
    pad: u32,
) -> Result<CellSet, Memory>
    requires fits { Fits grid.now arm.now }
    requires motion { IsMotion arm.now motion.now }
    requires pad { pad ≤ grid.now.side / 2 }
    ensures size { IfOk result (λ set. length set ≡ cell_count grid.now) }
    ensures exact { IfOk result (λ set. (cell : ℕ) → Has set cell ↔ IsSwept grid.now arm.now motion.now pad cell) }
{
    let mut left = CellSet::full(alloc, grid.cells())?;
    let mut swept = CellSet::full(alloc, grid.cells())?;
    take_swept(arm, grid, motion, pad, &mut left);
    swept.remove_all(&left);
    Ok(swept)
}

/// The cells that the arm sweeps where it stands at a configuration.
pub fn sweep_pose(
    alloc: Global,
    arm: &Arm,
    grid: &Grid,
    at: &Config,
    pad: u32,
) -> Result<CellSet, Memory>
    requires fits { Fits grid.now arm.now }
    requires at { IsConfig arm.now at.now }
    requires pad { pad ≤ grid.now.side / 2 }
    ensures size { IfOk result (λ set. length set ≡ cell_count grid.now) }
    ensures exact { IfOk result (λ set. (cell : ℕ)
        → Has set cell ↔ IsSwept grid.now arm.now (record { from = at.now; to = at.now }) pad cell) }
{
    sweep(alloc, arm, grid, &Motion { from: *at, to: *at }, pad)
}

/// Takes the cells that the motion sweeps with the pad out of the set.
///
/// It takes no memory, and asks only of the cells that are in the set. It is made for sets that have many of the swept cells.
pub fn take_swept(arm: &Arm, grid: &Grid, motion: &Motion, pad: u32, cells: &mut CellSet)
    requires fits { Fits grid.now arm.now }
    requires motion { IsMotion arm.now motion.now }
    requires pad { pad ≤ grid.now.side / 2 }
    requires size { length cells.old ≡ cell_count grid.now }
    ensures { TakesOut (IsSwept grid.now arm.now motion.now pad) cells.old cells.new }
{
    let sweeper = Sweeper {
        arm,
        grid,
        motion,
        pad,
    };
    sweeper.take_ahead(cells);
    sweeper.take_in_turn(cells);
}

/// The least cell of the set that the motion sweeps with the pad, or none where the motion meets no cell of the set.
///
/// Want of memory is the only refusal.
pub fn first_meeting(
    alloc: Global,
    arm: &Arm,
    grid: &Grid,
    motion: &Motion,
    pad: u32,
    cells: &CellSet,
) -> Result<Option<u32>, Memory>
    requires fits { Fits grid.now arm.now }
    requires motion { IsMotion arm.now motion.now }
    requires pad { pad ≤ grid.now.side / 2 }
    requires size { length cells.now ≡ cell_count grid.now }
    ensures { IfOk result (IsLeast (IsMet grid.now arm.now motion.now pad cells.now)) }
{
    let mut left = cells.copy(alloc)?;
    let sweeper = Sweeper {
        arm,
        grid,
        motion,
        pad,
    };
    Ok(sweeper.first_taken(cells, &mut left))
}

/// The same by a set of the grid's size that the caller lends, of which nothing is known afterwards but its size: it takes no
/// memory.
pub fn first_meeting_with(
    arm: &Arm,
    grid: &Grid,
    motion: &Motion,
    pad: u32,
    cells: &CellSet,
    left: &mut CellSet,
) -> Option<u32>
    requires fits { Fits grid.now arm.now }
    requires motion { IsMotion arm.now motion.now }
    requires pad { pad ≤ grid.now.side / 2 }
    requires size { length cells.now ≡ cell_count grid.now }
    requires lent { length left.old ≡ cell_count grid.now }
    ensures exact { IsLeast (IsMet grid.now arm.now motion.now pad cells.now) result }
    ensures lent { length left.new ≡ length left.old }
{
    left.copy_from(cells);
    let sweeper = Sweeper {
        arm,
        grid,
        motion,
        pad,
    };
    sweeper.first_taken(cells, left)
}
