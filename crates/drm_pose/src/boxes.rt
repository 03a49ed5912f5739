//! Boxes of the plane, and the boxes of one link.

ghost use Rattle.std.specs.Prelude.{◌≡◌, ℕ, ◌^◌, ◌≤◌, ◌<◌, ℤ, pos, ◌*ℤ◌, ◌≤ℤ◌};
ghost use Rattle.drm_num.specs.Interval.{EndsWithin, unit};
ghost use Rattle.drm_pose.specs.Boxes.{turned_box, scaled_box, moved_box, link_box, first_axis, origin, tip_width};
ghost use Rattle.drm_half.specs.Turned.{between};
ghost use Rattle.drm_pose.specs.Enclosure.{HoldsDirection};
ghost use Rattle.drm_pose.specs.Widths.{IsPlateWithin};

use drm_half::{End, turn_between};
use drm_num::{Iv, mul_add2, mul_sub2};

/// One, in ulps.
const UNIT: i64 = 1 << 30;

/// A box of the plane: the points whose coordinates lie in two intervals.
#[derive(Clone, Copy)]
pub struct Plate {
    /// The first coordinates.
    pub x: Iv,
    /// The second coordinates.
    pub y: Iv,
}

impl Plate {
    // The direction of the first axis.
    pub(crate) fn first_axis() -> Plate
        ensures { result ≡ first_axis }
    {
        Plate {
            x: Iv::of(UNIT, UNIT),
            y: Iv::of(0, 0),
        }
    }

    // The origin alone.
    pub(crate) fn origin() -> Plate
        ensures { result ≡ origin }
    {
        Plate {
            x: Iv::of(0, 0),
            y: Iv::of(0, 0),
        }
    }

    // A box of directions, turned by the tangents between two.
    fn turned(&self, start: &End, end: &End) -> Plate
        requires within { IsPlateWithin unit self.now }
        requires some { HoldsDirection self.now }
        ensures value { result ≡ turned_box self.now (between start.now end.now) }
        ensures within { IsPlateWithin unit result }
        ensures some { HoldsDirection result }
    {
        let by = turn_between(start, end);
        Plate {
            x: mul_sub2(self.x, by.c, self.y, by.s).cut_unit(),
            y: mul_add2(self.x, by.s, self.y, by.c).cut_unit(),
        }
    }

    fn scaled(&self, len: u32) -> Plate
        requires within { IsPlateWithin unit self.now }
        requires length { len ≤ 4096 }
        ensures { result ≡ scaled_box (pos len) self.now }
    {
        Plate {
            x: self.x.scale(len as i64),
            y: self.y.scale(len as i64),
        }
    }

    fn moved(&self, shift: &Plate) -> Plate
        requires from { IsPlateWithin (pos (2 ^ 50)) self.now }
        requires by { IsPlateWithin (pos (2 ^ 50)) shift.now }
        ensures { result ≡ moved_box self.now shift.now }
    {
        Plate {
            x: self.x.add(shift.x),
            y: self.y.add(shift.y),
        }
    }
}

/// The boxes of one link over a piece of a motion.
#[derive(Clone, Copy)]
pub struct LinkBox {
    /// The directions of the link.
    pub direction: Plate,
    /// The points of its joint.
    pub base: Plate,
    /// The displacements from its joint to its end.
    pub shift: Plate,
    /// The points of its end.
    pub tip: Plate,
}

impl LinkBox {
    // What stands in a pose's places that hold no link.
    pub(crate) fn blank() -> LinkBox {
        LinkBox {
            direction: Plate::origin(),
            base: Plate::origin(),
            shift: Plate::origin(),
            tip: Plate::origin(),
        }
    }

    // The boxes of the next link, of this length, from the boxes of the direction and the end of the link before, and the
    // ends of its joint's tangents.
    pub(crate) fn next(before: &Plate, base: &Plate, len: u32, start: &End, end: &End) -> LinkBox
        requires direction { IsPlateWithin unit before.now }
        requires some { HoldsDirection before.now }
        requires base { IsPlateWithin (pos (2 ^ 49)) base.now }
        requires length { len ≤ 4096 }
        ensures value { result ≡ link_box before.now base.now
            (record { len = pos len; tangents = between start.now end.now }) }
        ensures direction { IsPlateWithin unit result.direction }
        ensures some { HoldsDirection result.direction }
        ensures shift { IsPlateWithin (pos len *ℤ unit) result.shift }
    {
        let direction = before.turned(start, end);
        let shift = direction.scaled(len);
        let tip = base.moved(&shift);
        LinkBox {
            direction,
            base: *base,
            shift,
            tip,
        }
    }

    // The greater width of the box of the link's end.
    pub(crate) fn tip_width(&self) -> i64
        requires { IsPlateWithin (pos (2 ^ 50)) self.now.tip }
        ensures value { result ≡ tip_width self.now }
    {
        self.tip.x.width().max(self.tip.y.width())
    }
}
