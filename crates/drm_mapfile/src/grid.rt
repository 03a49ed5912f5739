// The grid.
ghost use Rattle.std.specs.Prelude.{◌≡◌};
ghost use Rattle.drm_mapfile.specs.Fields.{Gives};
ghost use Rattle.drm_mapfile.specs.Reading.{grid_at};

use crate::fault::FileFault;
use crate::fields::{field, u8_at, u16_at};
use drm_arm::Arm;
use drm_grid::{Grid, MAX_SIDE, MIN_SIDE, SIDE_STEP};

/// The grid at the front of the bytes, which fits the arm, and the bytes behind it.
#[tactic(auto, unfolding(crate::specs::Reading::grid_at))]
pub fn take_grid<'a>(
    total: usize,
    arm: &Arm,
    bytes: &'a [u8],
) -> Result<(Grid, &'a [u8]), FileFault>
    ensures { Gives (λ x. (x.0, x.1.now)) result (grid_at total arm.now bytes.now) }
{
    let (side, at_rows) = u16_at(total, bytes)?;
    let side = u32::from(side);
    if side < MIN_SIDE || MAX_SIDE < side || side % SIDE_STEP != 0 {
        return Err(field(total, bytes));
    }
    let (n, rest) = u8_at(total, at_rows)?;
    let grid = match Grid::new(side, u32::from(n)) {
        Ok(grid) => grid,
        Err(_) => return Err(field(total, at_rows)),
    };
    if !grid.fits(arm) {
        return Err(field(total, at_rows));
    }
    Ok((grid, rest))
}
