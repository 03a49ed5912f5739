//! The interval and the operations on its ends that round nothing.

ghost use Rattle.std.specs.Prelude.{◌≡◌, ◌↔◌, ℤ, pos, ◌^◌, ◌+ℤ◌, ◌-ℤ◌, ◌*ℤ◌, ◌≤ℤ◌, ◌⊎◌, neg_ℤ};
ghost use Rattle.drm_num.specs.Fraction.{Fraction, plus, minus, times, whole};
ghost use Rattle.drm_num.specs.Interval.{Interval, IsOrdered, EndsWithin, IsAtLeastUlps, IsAtMostUlps, Lies, Meets, Overlaps, unit};
ghost use Rattle.drm_num.specs.Arithmetic.{sum, difference, scaled, unit_interval, common_part, hull, width, gap};

use std::marker::Model;

/// One, in ulps.
const UNIT: i64 = 1 << 30;

/// The numbers from `lo` to `hi`, both counted in ulps of 2^-30, with `lo <= hi`.
#[derive(Clone, Copy, Debug, PartialEq, Eq)]
pub struct Iv {
    lo: i64,
    hi: i64,
}

impl Model for Iv {
    ghost use Rattle.std.specs.Prelude.{◌≤ℤ◌};
    ghost use Rattle.drm_num.specs.Interval.{Interval};

    ghost Value = { Interval };

    ghost view = { λ a. record { lo = a.lo; hi = a.hi } };

    ghost invariant = { λ a. a.lo ≤ℤ a.hi };

    ghost inverse = { λ s. record { lo = s.lo; hi = s.hi } };
}

impl Iv {
    /// The numbers from `lo` to `hi` ulps.
    pub fn of(lo: i64, hi: i64) -> Iv
        requires { lo ≤ℤ hi }
        ensures lo { result.lo ≡ lo }
        ensures hi { result.hi ≡ hi }
    {
        Iv { lo, hi }
    }

    /// The lower end, in ulps.
    pub fn lo(self) -> i64
        ensures value { result ≡ self.lo }
        ensures ordered { IsOrdered self }
    {
        self.lo
    }

    /// The upper end, in ulps.
    pub fn hi(self) -> i64
        ensures value { result ≡ self.hi }
        ensures ordered { IsOrdered self }
    {
        self.hi
    }

    /// The sums of a number of each interval. It is exact.
    pub fn add(self, b: Iv) -> Iv
        requires self_in { EndsWithin (pos (2 ^ 50)) self }
        requires b_in { EndsWithin (pos (2 ^ 50)) b }
        ensures value { result ≡ sum self b }
        ensures contains { (x y : Fraction) → Lies x self → Lies y b → Lies (plus x y) result }
    {
        Iv {
            lo: self.lo + b.lo,
            hi: self.hi + b.hi,
        }
    }

    /// The differences of a number of each interval. It is exact.
    pub fn sub(self, b: Iv) -> Iv
        requires self_in { EndsWithin (pos (2 ^ 50)) self }
        requires b_in { EndsWithin (pos (2 ^ 50)) b }
        ensures value { result ≡ difference self b }
        ensures contains { (x y : Fraction) → Lies x self → Lies y b → Lies (minus x y) result }
    {
        Iv {
            lo: self.lo - b.hi,
            hi: self.hi - b.lo,
        }
    }

    /// The `k`-fold of each number. It is exact.
    pub fn scale(self, k: i64) -> Iv
        requires self_in { EndsWithin (pos (2 ^ 50)) self }
        requires not_negative { pos 0 ≤ℤ k }
        requires k_in { k ≤ℤ pos 4096 }
        ensures value { result ≡ scaled k self }
        ensures contains { (x : Fraction) → Lies x self → Lies (times (whole k) x) result }
    {
        Iv {
            lo: k * self.lo,
            hi: k * self.hi,
        }
    }

    /// The common part with the numbers from -1 to 1, of which there must be one.
    pub fn cut_unit(self) -> Iv
        requires { Overlaps self unit_interval }
        ensures value { result ≡ common_part self unit_interval }
        ensures within { EndsWithin unit result }
        ensures contains { (x : Fraction) → Lies x self → Lies x unit_interval → Lies x result }
    {
        Iv {
            lo: self.lo.max(-UNIT),
            hi: self.hi.min(UNIT),
        }
    }

    /// How many ulps the interval is wide.
    pub fn width(self) -> i64
        requires { EndsWithin (pos (2 ^ 50)) self }
        ensures value { result ≡ width self }
        ensures not_negative { pos 0 ≤ℤ result }
        ensures widest { (x y : Fraction) → Lies x self → Lies y self → IsAtMostUlps result (minus x y) }
    {
        self.hi - self.lo
    }

    /// The least interval that holds both.
    pub fn hull(self, b: Iv) -> Iv
        requires self_in { EndsWithin (pos (2 ^ 50)) self }
        requires b_in { EndsWithin (pos (2 ^ 50)) b }
        ensures value { result ≡ hull self b }
        ensures contains_self { (x : Fraction) → Lies x self → Lies x result }
        ensures contains_b { (x : Fraction) → Lies x b → Lies x result }
    {
        Iv {
            lo: self.lo.min(b.lo),
            hi: self.hi.max(b.hi),
        }
    }

    /// How many ulps lie between the intervals: 0 where they meet, else the distance.
    pub fn gap(self, b: Iv) -> i64
        requires self_in { EndsWithin (pos (2 ^ 50)) self }
        requires b_in { EndsWithin (pos (2 ^ 50)) b }
        ensures value { result ≡ gap self b }
        ensures not_negative { pos 0 ≤ℤ result }
        ensures meet { (result ≡ pos 0) ↔ Meets self b }
        ensures apart { (x y : Fraction) → Lies x self → Lies y b
            → IsAtLeastUlps result (minus x y) ⊎ IsAtLeastUlps result (minus y x) }
    {
        (b.lo - self.hi).max(self.lo - b.hi).max(0)
    }
}
