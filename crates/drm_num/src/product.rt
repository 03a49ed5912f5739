//! Sums and differences of two products, rounded outwards once.

ghost use Rattle.std.specs.Prelude.{◌≡◌, ℤ, pos, ◌^◌, ◌+ℤ◌, ◌-ℤ◌, ◌*ℤ◌, ◌≤ℤ◌};
ghost use Rattle.std.specs.Int.{int_min, int_max};
ghost use Rattle.drm_num.specs.Fraction.{Fraction, plus, minus, times};
ghost use Rattle.drm_num.specs.Interval.{Interval, IsOrdered, EndsWithin, Lies, unit};
ghost use Rattle.drm_num.specs.Small.{IsSmall};
ghost use Rattle.drm_num.specs.Quotient.{floor, ceiling, IsFloor, IsCeiling};
ghost use Rattle.drm_num.specs.Arithmetic.{least_product, greatest_product, product_sum, product_difference};

use crate::interval::Iv;

/// Holds `x*y + u*v` for all x in `a`, y in `b`, u in `c` and v in `d`, rounded outwards once.
pub fn mul_add2(a: Iv, b: Iv, c: Iv, d: Iv) -> Iv
    requires a_in { EndsWithin unit a }
    requires b_in { EndsWithin unit b }
    requires c_in { EndsWithin unit c }
    requires d_in { EndsWithin unit d }
    ensures value { result ≡ product_sum a b c d }
    ensures contains { (x y u v : Fraction) → Lies x a → Lies y b → Lies u c → Lies v d
        → Lies (plus (times x y) (times u v)) result }
{
    let (first_least, first_greatest) = products(a, b);
    let (second_least, second_greatest) = products(c, d);
    rounded(first_least + second_least, first_greatest + second_greatest)
}

/// Holds `x*y - u*v` for all x in `a`, y in `b`, u in `c` and v in `d`, rounded outwards once.
pub fn mul_sub2(a: Iv, b: Iv, c: Iv, d: Iv) -> Iv
    requires a_in { EndsWithin unit a }
    requires b_in { EndsWithin unit b }
    requires c_in { EndsWithin unit c }
    requires d_in { EndsWithin unit d }
    ensures value { result ≡ product_difference a b c d }
    ensures contains { (x y u v : Fraction) → Lies x a → Lies y b → Lies u c → Lies v d
        → Lies (minus (times x y) (times u v)) result }
{
    let (first_least, first_greatest) = products(a, b);
    let (second_least, second_greatest) = products(c, d);
    rounded(first_least - second_greatest, first_greatest - second_least)
}

// The least and the greatest product of an end of `a` and an end of `b`.
fn products(a: Iv, b: Iv) -> (i64, i64)
    requires a_in { EndsWithin unit a }
    requires b_in { EndsWithin unit b }
    ensures least { result.0 ≡ least_product a b }
    ensures greatest { result.1 ≡ greatest_product a b }
    ensures ordered { result.0 ≤ℤ result.1 }
    ensures least_small { IsSmall (pos (2 ^ 60)) result.0 }
    ensures greatest_small { IsSmall (pos (2 ^ 60)) result.1 }
{
    let (a_lo, a_hi) = (a.lo(), a.hi());
    let (b_lo, b_hi) = (b.lo(), b.hi());
    let low_low = product(a_lo, b_lo);
    let low_high = product(a_lo, b_hi);
    let high_low = product(a_hi, b_lo);
    let high_high = product(a_hi, b_hi);
    (
        least(low_low, low_high, high_low, high_high),
        greatest(low_low, low_high, high_low, high_high),
    )
}

// One product of two ends, in units of 2^-60.
fn product(x: i64, y: i64) -> i64
    requires x_in { IsSmall unit x }
    requires y_in { IsSmall unit y }
    ensures value { result ≡ x *ℤ y }
    ensures small { IsSmall (pos (2 ^ 60)) result }
{
    x * y
}

fn least(a: i64, b: i64, c: i64, d: i64) -> i64
    ensures { result ≡ int_min (int_min a b) (int_min c d) }
{
    a.min(b).min(c.min(d))
}

fn greatest(a: i64, b: i64, c: i64, d: i64) -> i64
    ensures { result ≡ int_max (int_max a b) (int_max c d) }
{
    a.max(b).max(c.max(d))
}

// The least interval of whole ulps round the numbers from `least` to `greatest`, in units of 2^-60.
fn rounded(least: i64, greatest: i64) -> Iv
    requires ordered { least ≤ℤ greatest }
    requires least_in { IsSmall (pos (2 ^ 61)) least }
    requires greatest_in { IsSmall (pos (2 ^ 61)) greatest }
    ensures lo { result.lo ≡ floor least unit }
    ensures hi { result.hi ≡ ceiling greatest unit }
    ensures greatest_below { IsFloor least unit result.lo }
    ensures least_above { IsCeiling greatest unit result.hi }
{
    Iv::of(floor_of(least), ceiling_of(greatest))
}

// The greatest whole number of ulps that is at most `n` units of 2^-60.
fn floor_of(n: i64) -> i64
    ensures { result ≡ floor n unit }
{
    n >> 30
}

// The least whole number of ulps that is at least `n` units of 2^-60.
fn ceiling_of(n: i64) -> i64
    requires { IsSmall (pos (2 ^ 61)) n }
    ensures { result ≡ ceiling n unit }
{
    -(-n >> 30)
}
