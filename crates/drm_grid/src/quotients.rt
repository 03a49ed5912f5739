//! Quotients of coordinates by the side of a cell, as products with the side's reciprocal.

ghost use Rattle.std.specs.Prelude.{◌≡◌, ℕ, ◌*◌, ◌/◌, ◌^◌, ◌≤◌, ◌<◌, pos, ◌+ℤ◌};
ghost use Rattle.drm_num.specs.Quotient.{floor};
ghost use Rattle.drm_num.specs.Reciprocal.{IsReciprocal};
ghost use Rattle.drm_num.specs.Small.{IsSmall};
ghost use Rattle.drm_grid.specs.Layout.{IsSide};

use crate::grid::Grid;

// No quotient is farther from zero than this.
const FAR: i64 = 1 << 18;

/// The coordinate divided by the side, rounded down.
pub fn floor_by_side(grid: &Grid, coordinate: i32) -> i32
    requires { IsSmall (pos 16777217) coordinate }
    ensures value { result ≡ floor coordinate (pos grid.now.side) }
    ensures small { IsSmall (pos (2 ^ 18)) result }
{
    let raised = quotient(raised(coordinate, grid.side()), grid.reciprocal());
    (raised as i64 - FAR) as i32
}

// The number whose quotient by the side is greater by `FAR`, so that it is not negative.
fn raised(coordinate: i32, side: u32) -> u64
    requires small { IsSmall (pos 16777217) coordinate }
    requires side { IsSide side }
    ensures value { pos result ≡ coordinate +ℤ pos (2 ^ 18 * side) }
    ensures limit { result ≤ 2 ^ 29 }
{
    (i64::from(coordinate) + FAR * i64::from(side)) as u64
}

// `z / n`, rounded down, from the reciprocal of `n`.
fn quotient(z: u64, reciprocal: u64) -> u64
    requires z { z ≤ 2 ^ 29 }
    requires reciprocal { reciprocal ≤ 2 ^ 34 }
    ensures { (n : ℕ) → n ≤ 1024 → IsReciprocal (2 ^ 40) n reciprocal → result ≡ z / n }
{
    (z * reciprocal) >> 40
}
