//! Half-angle tangents with their cosines and sines, and the turns between two of them.

ghost use Rattle.std.specs.Prelude.{◌≡◌, ◌↔◌, IsTrue, ◌^◌, ℤ, pos, neg_ℤ, ◌+ℤ◌, ◌*ℤ◌, ◌≤ℤ◌};
ghost use Rattle.drm_num.specs.Fraction.{Fraction};
ghost use Rattle.drm_num.specs.Interval.{Interval, IsOrdered, EndsWithin, Lies, unit, ulps};
ghost use Rattle.drm_num.specs.Arithmetic.{width};
ghost use Rattle.drm_num.specs.Small.{IsSmall};
ghost use Rattle.drm_half.specs.HalfAngle.{cosine, sine};
ghost use Rattle.drm_half.specs.Turned.{ulps_below, ulps_above, least_size, greatest_size, least_sine, greatest_sine, cosine_interval, sine_interval, between, ordered};

use crate::values::{UNIT, cosine_at, sine_at};
use drm_num::Iv;
use std::marker::Model;

/// A direction's cosine `c` and sine `s`, each an interval in units of 2^-30.
#[derive(Clone, Copy, Debug, PartialEq, Eq)]
pub struct Spin {
    pub c: Iv,
    pub s: Iv,
}

/// An end of an interval of half-angle tangents, with its cosine and its sine, rounded down and up.
///
/// Contracts see it as its tangent, in ulps. Intervals that share an end share the cost of its cosine and sine.
#[derive(Clone, Copy, Debug)]
pub struct End {
    tangent: i64,
    cosine_below: i64,
    cosine_above: i64,
    sine_below: i64,
    sine_above: i64,
}

impl Model for End {
    ghost use Rattle.std.specs.Prelude.{ℤ};
    ghost use Rattle.drm_half.specs.Ends.{IsEnd, cosine_under, cosine_over, sine_under, sine_over};

    ghost Value = { ℤ };

    ghost view = { λ e. e.tangent };

    ghost invariant = { λ e. IsEnd e.tangent e.cosine_below e.cosine_above e.sine_below e.sine_above };

    ghost inverse = { λ t. record {
      tangent = t;
      cosine_below = cosine_under t;
      cosine_above = cosine_over t;
      sine_below = sine_under t;
      sine_above = sine_over t;
    } };
}

impl End {
    /// The end at the tangent of `tangent` ulps.
    pub fn at(tangent: i64) -> End
        requires { IsSmall (pos (2 ^ 32)) tangent }
        ensures { result ≡ tangent }
    {
        let cosine = cosine_at(tangent);
        let sine = sine_at(tangent);
        End {
            tangent,
            cosine_below: cosine.below,
            cosine_above: cosine.above,
            sine_below: sine.below,
            sine_above: sine.above,
        }
    }

    /// The tangent 0, of a joint that does not turn.
    pub fn straight() -> End
        ensures { result ≡ pos 0 }
    {
        End {
            tangent: 0,
            cosine_below: UNIT,
            cosine_above: UNIT,
            sine_below: 0,
            sine_above: 0,
        }
    }
}

/// The cosine and the sine of every turn whose half-angle tangent lies in `t`, rounded outwards.
pub fn turn(t: Iv) -> Spin
    requires { EndsWithin (pos (2 ^ 32)) t }
    ensures cosine_value { result.c ≡ cosine_interval t }
    ensures sine_value { result.s ≡ sine_interval t }
    ensures cosine_contains { (x : Fraction) → Lies x t → Lies (cosine x) result.c }
    ensures sine_contains { (x : Fraction) → Lies x t → Lies (sine x) result.s }
    ensures cosine_within { EndsWithin unit result.c }
    ensures sine_within { EndsWithin unit result.s }
    ensures cosine_width { width result.c ≤ℤ (pos 2 *ℤ width t +ℤ pos 2) }
    ensures sine_width { width result.s ≤ℤ (pos 2 *ℤ width t +ℤ pos 2) }
{
    turn_up(&End::at(t.lo()), &End::at(t.hi()))
}

/// The cosine and the sine of every turn whose half-angle tangent lies between the two, rounded outwards: the `turn` of
/// the interval between them.
pub fn turn_between(a: &End, b: &End) -> Spin
    ensures cosine_value { result.c ≡ cosine_interval (between a.now b.now) }
    ensures sine_value { result.s ≡ sine_interval (between a.now b.now) }
    ensures cosine_within { EndsWithin unit result.c }
    ensures sine_within { EndsWithin unit result.s }
{
    if a.tangent <= b.tangent {
        turn_up(a, b)
    } else {
        turn_up(b, a)
    }
}

// The turns whose tangents are from the lower end to the upper end.
fn turn_up(low: &End, high: &End) -> Spin
    requires { low.now ≤ℤ high.now }
    ensures cosine_value { result.c ≡ cosine_interval (ordered low.now high.now) }
    ensures sine_value { result.s ≡ sine_interval (ordered low.now high.now) }
    ensures cosine_within { EndsWithin unit result.c }
    ensures sine_within { EndsWithin unit result.s }
{
    Spin {
        c: Iv::of(least_cosine(low, high), greatest_cosine(low, high)),
        s: Iv::of(least_sine(low, high), greatest_sine(low, high)),
    }
}

// The cosines fall with the size of the tangent: the least is that of the farther end from 0.
fn least_cosine(low: &End, high: &End) -> i64
    requires { low.now ≤ℤ high.now }
    ensures { result ≡ ulps_below (cosine (ulps (greatest_size (ordered low.now high.now)))) }
{
    if is_farther(low.tangent, high.tangent) {
        high.cosine_below
    } else {
        low.cosine_below
    }
}

// Says whether the upper end is farther from 0 than the lower end.
fn is_farther(low: i64, high: i64) -> bool
    requires low { IsSmall (pos (2 ^ 32)) low }
    requires high { IsSmall (pos (2 ^ 32)) high }
    ensures { IsTrue result ↔ (neg_ℤ low ≤ℤ high) }
{
    -low <= high
}

// The greatest cosine is 1 where the tangent 0 is among them, else that of the nearer end.
fn greatest_cosine(low: &End, high: &End) -> i64
    requires { low.now ≤ℤ high.now }
    ensures { result ≡ ulps_above (cosine (ulps (least_size (ordered low.now high.now)))) }
{
    if 0 < low.tangent {
        low.cosine_above
    } else if high.tangent < 0 {
        high.cosine_above
    } else {
        UNIT
    }
}

// The sines are extreme at the tangents -1 and 1 or at the ends.
fn least_sine(low: &End, high: &End) -> i64
    ensures { result ≡ least_sine (ordered low.now high.now) }
{
    if low.tangent <= -UNIT && -UNIT <= high.tangent {
        -UNIT
    } else {
        low.sine_below.min(high.sine_below)
    }
}

fn greatest_sine(low: &End, high: &End) -> i64
    ensures { result ≡ greatest_sine (ordered low.now high.now) }
{
    if low.tangent <= UNIT && UNIT <= high.tangent {
        UNIT
    } else {
        low.sine_above.max(high.sine_above)
    }
}
