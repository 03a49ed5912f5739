//! How far numbers are from intervals, and which columns of a row a disc touches.

ghost use Rattle.std.specs.Prelude.{◌≡◌, ◌↔◌, ◌+◌, ◌*◌, ◌<◌, ◌≤◌, ℕ, ℤ, pos, ◌+ℤ◌, ◌-ℤ◌, ◌*ℤ◌, ◌≤ℤ◌, IsTrue};
ghost use Rattle.drm_num.specs.Small.{IsSmall};
ghost use Rattle.drm_grid.specs.Strips.{MeetsStrip};
ghost use Rattle.drm_shape.specs.Validity.{IsValid};
ghost use Rattle.drm_shape.specs.declared.Shape.TheVariants.{Disc};
ghost use Rattle.drm_foot.specs.Gap.{gap};
ghost use Rattle.drm_foot.specs.Block.{AreColumns};

use drm_grid::Grid;
use std::ops::Range;

/// The columns of the row in which the disc touches cells.
///
/// The disc is as wide in the row as at the height of the row that is nearest to the disc's centre.
pub(crate) fn disc_columns(grid: &Grid, x: i32, y: i32, r: u32, row: u32) -> Range<u32>
    requires valid { IsValid (Disc x y r) }
    requires on_grid { row < grid.now.n }
    requires met { MeetsStrip grid.now (y -ℤ pos r) (y +ℤ pos r) row }
    ensures { AreColumns grid.now (Disc x y r) row result }
{
    let up = gap(y, grid.line(row), grid.line(row + 1));
    let half = half_width(r, up) as i32;
    grid.strips_met(x - half, x + half)
}

/// Half of a disc's width at a height of `up` above its centre, rounded down.
fn half_width(r: u32, up: u32) -> u32
    requires small { r ≤ 65536 }
    requires within { up ≤ r }
    ensures within { result * result + up * up ≤ r * r }
    ensures greatest { r * r < (result + 1) * (result + 1) + up * up }
    ensures most { result ≤ 65536 }
{
    (square(r) - square(up)).isqrt() as u32
}

/// How far a number is from a closed interval.
pub(crate) fn gap(at: i32, low: i32, high: i32) -> u32
    requires at { IsSmall (pos 65536) at }
    requires low { IsSmall (pos 65536) low }
    requires high { IsSmall (pos 65536) high }
    ensures value { pos result ≡ gap at low high }
    ensures small { result ≤ 131072 }
{
    (low - at).max(at - high).max(0) as u32
}

/// Says whether a vector is no longer than `r`.
pub(crate) fn is_within(across: u32, up: u32, r: u32) -> bool
    requires across { across ≤ 131072 }
    requires up { up ≤ 131072 }
    requires r { r ≤ 65536 }
    ensures { IsTrue result ↔ ((across * across + up * up) ≤ r * r) }
{
    square(across) + square(up) <= square(r)
}

/// The square of a number.
fn square(x: u32) -> u64
    requires { x ≤ 131072 }
    ensures value { result ≡ x * x }
    ensures small { result ≤ 17179869184 }
{
    u64::from(x) * u64::from(x)
}
