//! Columns and rows as closed strips between lines, and those that an interval of coordinates reaches.

ghost use Rattle.std.specs.Prelude.{◌≡◌, ◌^◌, ◌+◌, ◌<◌, ◌≤◌, ◌↔◌, IsTrue, ℕ, pos, ◌+ℤ◌, ◌*ℤ◌, ◌≤ℤ◌};
ghost use Rattle.drm_num.specs.Interval.{EndsWithin, unit};
ghost use Rattle.drm_num.specs.Quotient.{floor, ceiling};
ghost use Rattle.drm_num.specs.Small.{IsSmall};
ghost use Rattle.drm_grid.specs.Layout.{IsGrid, line_at};
ghost use Rattle.drm_grid.specs.Limits.{greatest_distance};
ghost use Rattle.drm_grid.specs.Strips.{MeetsStrip, IsStripNear, IsRangeUpTo, IsBetween, strip};

use crate::grid::Grid;
use crate::quotients::floor_by_side;
use drm_num::Iv;
use std::ops::Range;

impl Grid {
    /// The k-th column or row, as an interval of coordinates in ulps.
    pub fn strip(&self, k: u32) -> Iv
        requires { k < self.now.n }
        ensures value { result ≡ strip self.now k }
        ensures within { EndsWithin (pos (2 ^ 46)) result }
    {
        Iv::of(ulps(line_at(self, k)), ulps(line_at(self, k + 1)))
    }

    /// The line before the k-th column or row, in workspace units: from -65,536 to 65,536.
    pub fn line(&self, k: u32) -> i32
        requires { k ≤ self.now.n }
        ensures exact { result ≡ line_at self.now k }
        ensures small { IsSmall (pos 65536) result }
        ensures limits { IsGrid self.now }
    {
        line_at(self, k)
    }

    /// Says whether the closed interval from `low` to `high`, in workspace units, meets the k-th column or row.
    pub fn meets_strip(&self, low: i32, high: i32, k: u32) -> bool
        requires { k < self.now.n }
        ensures { IsTrue result ↔ MeetsStrip self.now low high k }
    {
        line_at(self, k) <= high && low <= line_at(self, k + 1)
    }

    /// The columns or rows that the closed interval from `low` to `high`, in workspace units, meets.
    ///
    /// `low` may be one more than `high`.
    pub fn strips_met(&self, low: i32, high: i32) -> Range<u32>
        requires low { IsSmall (pos (2 ^ 24)) low }
        requires high { IsSmall (pos (2 ^ 24)) high }
        requires ordered { low ≤ℤ (high +ℤ pos 1) }
        ensures within { IsRangeUpTo self.now.n result }
        ensures exact { (k : ℕ) → k < self.now.n → MeetsStrip self.now low high k ↔ IsBetween result k }
    {
        let start = lines_up_to(self, low - 1).saturating_sub(1);
        let end = lines_up_to(self, high).min(self.n());
        start..end
    }

    /// The columns or rows that are at most `far` units from the interval, whose ends are in ulps.
    pub fn strips_near(&self, x: Iv, far: u32) -> Range<u32>
        requires ends { EndsWithin (pos (2 ^ 50)) x }
        requires far { far ≤ greatest_distance }
        ensures within { IsRangeUpTo self.now.n result }
        ensures exact { (k : ℕ) → k < self.now.n → IsStripNear self.now x far k ↔ IsBetween result k }
    {
        let far = far as i32;
        self.strips_met(units_above(x.lo()) - far, units_below(x.hi()) + far)
    }
}

/// The line before the k-th column or row, in workspace units.
fn line_at(grid: &Grid, k: u32) -> i32
    requires { k ≤ grid.now.n }
    ensures exact { result ≡ line_at grid.now k }
    ensures small { IsSmall (pos 65536) result }
    ensures limits { IsGrid grid.now }
{
    let half = grid.n() / 2;
    (k as i32 - half as i32) * grid.side() as i32
}

/// Whole workspace units, in ulps.
fn ulps(units: i32) -> i64
    requires { IsSmall (pos 65536) units }
    ensures value { result ≡ units *ℤ unit }
    ensures small { IsSmall (pos (2 ^ 46)) result }
{
    i64::from(units) * (1 << 30)
}

/// The greatest number of workspace units that is at most this number of ulps.
fn units_below(ulps: i64) -> i32
    requires { IsSmall (pos (2 ^ 50)) ulps }
    ensures value { result ≡ floor ulps unit }
    ensures small { IsSmall (pos (2 ^ 20)) result }
{
    (ulps >> 30) as i32
}

/// The least number of workspace units that is at least this number of ulps.
fn units_above(ulps: i64) -> i32
    requires { IsSmall (pos (2 ^ 50)) ulps }
    ensures value { result ≡ ceiling ulps unit }
    ensures small { IsSmall (pos (2 ^ 20)) result }
{
    -units_below(-ulps)
}

/// How many of the lines of the grid, the last one among them, are not beyond the coordinate.
fn lines_up_to(grid: &Grid, coordinate: i32) -> u32
    requires { IsSmall (pos 16777217) coordinate }
    ensures limits { IsGrid grid.now }
    ensures within { result ≤ grid.now.n + 1 }
    ensures exact { (k : ℕ) → k ≤ grid.now.n → (k < result) ↔ (line_at grid.now k ≤ℤ coordinate) }
{
    let n = grid.n();
    limited(floor_by_side(grid, coordinate), n / 2, n + 1)
}

/// How many of the numbers from 0 up to `count` are at most `last + half`.
fn limited(last: i32, half: u32, count: u32) -> u32
    requires last { IsSmall (pos (2 ^ 18)) last }
    requires half { half < 65536 }
    requires count { count < 65536 }
    ensures within { result ≤ count }
    ensures exact { (k : ℕ) → k < count → (k < result) ↔ (pos k ≤ℤ (last +ℤ pos half)) }
{
    (last + half as i32 + 1).clamp(0, count as i32) as u32
}
