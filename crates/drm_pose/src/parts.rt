//! Runs of pieces of a link's axis, in one coordinate.

ghost use Rattle.std.specs.Prelude.{◌≡◌, ◌*◌, ◌^◌, ◌≤◌, pos, ◌*ℤ◌};
ghost use Rattle.std.specs.Int.{int_min, int_max};
ghost use Rattle.drm_num.specs.Interval.{IsOrdered, EndsWithin};
ghost use Rattle.drm_pose.specs.Boxes.{parts_of};
ghost use Rattle.drm_num.specs.Small.{IsSmall};

use crate::cut::Cut;
use crate::quotients::{ceiling_of, floor_of};
use drm_num::Iv;

/// The pieces from `p` on and below `q` of a cut of a link's axis, in one coordinate: by the intervals of its base and of its
/// displacement.
#[derive(Drop)]
pub(crate) struct Run<'a> {
    pub(crate) from: Iv,
    pub(crate) shift: Iv,
    pub(crate) p: u32,
    pub(crate) q: u32,
    pub(crate) cut: &'a Cut,
    ghost from_in: { EndsWithin (pos (2 ^ 42)) from },
    ghost shift_in: { EndsWithin (pos (2 ^ 42)) shift },
    ghost pieces: { p ≤ q },
    ghost within: { q ≤ cut.now },
    ghost few: { cut.now ≤ 512 },
}

impl Run<'_> {
    /// The interval of the pieces.
    pub(crate) fn interval(&self) -> Iv
        ensures value { result ≡ parts_of self.now.from self.now.shift self.now.p self.now.q self.now.cut.now }
        ensures ordered { IsOrdered self.now.shift }
    {
        Iv::of(self.low_end(), self.high_end())
    }

    fn low_end(&self) -> i64
        ensures value { result ≡ (parts_of self.now.from self.now.shift self.now.p self.now.q self.now.cut.now).lo }
        ensures some { 1 ≤ self.now.cut.now }
        ensures ordered_from { IsOrdered self.now.from }
        ensures ordered_shift { IsOrdered self.now.shift }
    {
        let least = least_share(self.shift.lo(), self.p, self.q);
        self.from.lo() + floor_of(least, self.cut)
    }

    fn high_end(&self) -> i64
        ensures { result ≡ (parts_of self.now.from self.now.shift self.now.p self.now.q self.now.cut.now).hi }
    {
        let greatest = greatest_share(self.shift.hi(), self.p, self.q);
        self.from.hi() + ceiling_of(greatest, self.cut)
    }
}

// The lesser of the `p`-fold and the `q`-fold.
fn least_share(end: i64, p: u32, q: u32) -> i64
    requires end_in { IsSmall (pos (2 ^ 42)) end }
    requires pieces { p ≤ q }
    requires few { q ≤ 512 }
    ensures value { result ≡ int_min (end *ℤ pos p) (end *ℤ pos q) }
    ensures small { IsSmall (pos (2 ^ 42 * q)) result }
{
    product(end, p).min(product(end, q))
}

// The greater of the `p`-fold and the `q`-fold.
fn greatest_share(end: i64, p: u32, q: u32) -> i64
    requires end_in { IsSmall (pos (2 ^ 42)) end }
    requires pieces { p ≤ q }
    requires few { q ≤ 512 }
    ensures value { result ≡ int_max (end *ℤ pos p) (end *ℤ pos q) }
    ensures small { IsSmall (pos (2 ^ 42 * q)) result }
{
    product(end, p).max(product(end, q))
}

fn product(end: i64, p: u32) -> i64
    requires end_in { IsSmall (pos (2 ^ 42)) end }
    requires piece { p ≤ 512 }
    ensures value { result ≡ end *ℤ pos p }
    ensures small { IsSmall (pos (2 ^ 42 * p)) result }
{
    end * i64::from(p)
}
