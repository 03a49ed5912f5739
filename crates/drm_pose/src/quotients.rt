//! Quotients by the number of pieces of a cut, as products with its reciprocal.

ghost use Rattle.std.specs.Prelude.{◌≡◌, ℕ, ◌+◌, ◌*◌, ◌/◌, ◌^◌, ◌≤◌, pos, ◌+ℤ◌};
ghost use Rattle.drm_num.specs.Quotient.{floor, ceiling};
ghost use Rattle.drm_num.specs.Small.{IsSmall};
ghost use Rattle.drm_num.specs.Reciprocal.{IsReciprocal};

use crate::cut::Cut;

// No quotient is farther from zero than this.
const FAR: i64 = 1 << 42;

/// `z` divided by the number of pieces, rounded down.
pub fn floor_of(z: i64, cut: &Cut) -> i64
    requires small { IsSmall (pos (2 ^ 42 * cut.now)) z }
    requires few { cut.now ≤ 512 }
    ensures value { result ≡ floor z (pos cut.now) }
    ensures some { 1 ≤ cut.now }
    ensures small { IsSmall (pos (2 ^ 42)) result }
{
    quotient(raised(z, cut.count()), cut.reciprocal()) as i64 - FAR
}

/// `z` divided by the number of pieces, rounded up.
pub fn ceiling_of(z: i64, cut: &Cut) -> i64
    requires small { IsSmall (pos (2 ^ 42 * cut.now)) z }
    requires few { cut.now ≤ 512 }
    ensures value { result ≡ ceiling z (pos cut.now) }
    ensures small { IsSmall (pos (2 ^ 42)) result }
{
    -floor_of(-z, cut)
}

// The number whose quotient by `n` is greater by `FAR`, so that it is not negative.
fn raised(z: i64, n: u32) -> u64
    requires small { IsSmall (pos (2 ^ 42 * n)) z }
    requires few { n ≤ 512 }
    ensures value { pos result ≡ z +ℤ pos (2 ^ 42 * n) }
    ensures limit { result ≤ 2 ^ 52 }
{
    (z + FAR * i64::from(n)) as u64
}

// `z / n`, rounded down, from the reciprocal of `n`.
fn quotient(z: u64, reciprocal: u64) -> u64
    requires { z ≤ 2 ^ 52 }
    ensures { (n : ℕ) → n ≤ 512 → IsReciprocal (2 ^ 62) n reciprocal → result ≡ z / n }
{
    ((u128::from(z) * u128::from(reciprocal)) >> 62) as u64
}
