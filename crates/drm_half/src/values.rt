//! The cosine and the sine of one half-angle tangent, in ulps, rounded down and up.

ghost use Rattle.std.specs.Prelude.{◌≡◌, ◌^◌, ℤ, pos, ◌*ℤ◌, ◌≤ℤ◌, ◌<ℤ◌};
ghost use Rattle.drm_num.specs.Small.{IsSmall};
ghost use Rattle.drm_num.specs.Interval.{unit, ulps};
ghost use Rattle.drm_num.specs.Quotient.{floor, ceiling};
ghost use Rattle.drm_half.specs.HalfAngle.{cosine, sine};
ghost use Rattle.drm_half.specs.Turned.{ulps_below, ulps_above};

/// One, in ulps.
pub const UNIT: i64 = 1 << 30;

const WIDE_UNIT: i128 = 1 << 30;

/// A fraction, in ulps, rounded down and up.
#[derive(Clone, Copy)]
pub struct Rounded {
    pub below: i64,
    pub above: i64,
}

/// The cosine at the tangent of `a` ulps.
pub fn cosine_at(a: i64) -> Rounded
    requires { IsSmall (pos (2 ^ 32)) a }
    ensures below { result.below ≡ ulps_below (cosine (ulps a)) }
    ensures above { result.above ≡ ulps_above (cosine (ulps a)) }
{
    quotient(cosine_top(a), bottom(a))
}

/// The sine at the tangent of `a` ulps.
pub fn sine_at(a: i64) -> Rounded
    requires { IsSmall (pos (2 ^ 32)) a }
    ensures below { result.below ≡ ulps_below (sine (ulps a)) }
    ensures above { result.above ≡ ulps_above (sine (ulps a)) }
{
    quotient(sine_top(a), bottom(a))
}

// The square of the radius, in units of 2^-60.
fn bottom(a: i64) -> i128
    requires { IsSmall (pos (2 ^ 32)) a }
    ensures value { result ≡ (cosine (ulps a)).bottom }
    ensures positive { pos 0 <ℤ result }
    ensures high { result ≤ℤ pos (2 ^ 65) }
{
    WIDE_UNIT * WIDE_UNIT + square(a)
}

fn cosine_top(a: i64) -> i128
    requires { IsSmall (pos (2 ^ 32)) a }
    ensures { result ≡ unit *ℤ (cosine (ulps a)).top }
{
    WIDE_UNIT * (WIDE_UNIT * WIDE_UNIT - square(a))
}

fn sine_top(a: i64) -> i128
    requires { IsSmall (pos (2 ^ 32)) a }
    ensures { result ≡ unit *ℤ (sine (ulps a)).top }
{
    WIDE_UNIT * (2 * (i128::from(a) * WIDE_UNIT))
}

fn square(a: i64) -> i128
    requires { IsSmall (pos (2 ^ 32)) a }
    ensures value { result ≡ a *ℤ a }
    ensures not_negative { pos 0 ≤ℤ result }
    ensures high { result ≤ℤ pos (2 ^ 64) }
{
    let wide = i128::from(a);
    wide * wide
}

// `n / d`, rounded down and up by one division, where it is from -2^30 to 2^30.
fn quotient(n: i128, d: i128) -> Rounded
    requires positive { pos 0 <ℤ d }
    requires divisor { d ≤ℤ pos (2 ^ 65) }
    requires size { IsSmall (unit *ℤ d) n }
    ensures below { result.below ≡ floor n d }
    ensures above { result.above ≡ ceiling n d }
{
    let below = floor_of(n, d);
    Rounded {
        below,
        above: ceiling_of(n, d, below),
    }
}

// `n / d`, rounded down, where it is from -2^30 to 2^30.
fn floor_of(n: i128, d: i128) -> i64
    requires positive { pos 0 <ℤ d }
    requires size { IsSmall (unit *ℤ d) n }
    ensures value { result ≡ floor n d }
    ensures small { IsSmall unit result }
{
    n.div_euclid(d) as i64
}

// `n / d`, rounded up, from the same rounded down.
fn ceiling_of(n: i128, d: i128, below: i64) -> i64
    requires positive { pos 0 <ℤ d }
    requires divisor { d ≤ℤ pos (2 ^ 65) }
    requires down { below ≡ floor n d }
    requires small { IsSmall unit below }
    ensures { result ≡ ceiling n d }
{
    if product(below, d) == n {
        below
    } else {
        below + 1
    }
}

fn product(q: i64, d: i128) -> i128
    requires small { IsSmall unit q }
    requires positive { pos 0 <ℤ d }
    requires divisor { d ≤ℤ pos (2 ^ 65) }
    ensures { result ≡ q *ℤ d }
{
    i128::from(q) * d
}
