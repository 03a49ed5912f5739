//! The sides of rings, and which columns of a row they leave to the ring.

ghost use Rattle.std.specs.Prelude.{◌≡◌, ◌↔◌, ◌+◌, ◌%◌, ◌<◌, ◌≤◌, ℤ, pos, ◌+ℤ◌, ◌-ℤ◌, ◌*ℤ◌, ◌≤ℤ◌, ◌<ℤ◌, IsTrue, All, negsuc};
ghost use Rattle.std.specs.Int.{int_min, int_max};
ghost use Rattle.drm_num.specs.Small.{IsSmall};
ghost use Rattle.drm_num.specs.Quotient.{IsFloor};
ghost use Rattle.drm_shape.specs.Corners.{corner_count};
ghost use Rattle.drm_shape.specs.Validity.{IsCoordinate};
ghost use Rattle.drm_foot.specs.Sides.{side_at, IsSmallSide, IsNotBeyond, Narrows, lift, fall};

use drm_shape::Ring;

/// A side of a ring: the corner from which it starts, and the way to the next one, in workspace units.
#[derive(Clone, Copy)]
pub(crate) struct Side {
    x: i64,
    y: i64,
    dx: i64,
    dy: i64,
}

/// A closed interval of coordinates, in workspace units. It is empty where `low` is above `high`.
#[derive(Clone, Copy)]
pub(crate) struct Span {
    pub(crate) low: i64,
    pub(crate) high: i64,
}

impl Side {
    /// The side from the corner with this number to the next.
    pub(crate) fn of(ring: &Ring, i: u32) -> Side
        requires range { All IsCoordinate ring.now }
        requires side { i < corner_count ring.now }
        ensures value { result ≡ side_at ring.now i }
        ensures small { IsSmallSide result }
    {
        let next = corner_after(i, ring.corners());
        let x = ring.x(i);
        let y = ring.y(i);
        Side {
            x: i64::from(x),
            y: i64::from(y),
            dx: i64::from(ring.x(next)) - i64::from(x),
            dy: i64::from(ring.y(next)) - i64::from(y),
        }
    }

    /// Says whether a corner of the box between these lines is on the left of the side, or on its line.
    pub(crate) fn reaches(self, left: i64, right: i64, bottom: i64, top: i64) -> bool
        requires small { IsSmallSide self }
        requires left { IsSmall (pos 65536) left }
        requires right { IsSmall (pos 65536) right }
        requires bottom { IsSmall (pos 65536) bottom }
        requires top { IsSmall (pos 65536) top }
        ensures { IsTrue result ↔ (fall self left right ≤ℤ lift self bottom top) }
    {
        let up = greater(self.dx, bottom - self.y, top - self.y);
        lesser(self.dy, left - self.x, right - self.x) <= up
    }

    /// The part of the span that the side leaves to the ring between two lines: what of it meets a box between the
    /// lines that is not wholly beyond the side.
    pub(crate) fn narrow(self, span: Span, bottom: i64, top: i64) -> Span
        requires small { IsSmallSide self }
        requires bottom { IsSmall (pos 65536) bottom }
        requires top { IsSmall (pos 65536) top }
        ensures { Narrows span result (IsNotBeyond self bottom top) }
    {
        let up = greater(self.dx, bottom - self.y, top - self.y);
        if 0 < self.dy {
            let most = self.x + quotient(up, self.dy);
            return Span {
                low: span.low,
                high: span.high.min(most),
            };
        }
        if self.dy < 0 {
            let least = self.x - quotient(up, -self.dy);
            return Span {
                low: span.low.max(least),
                high: span.high,
            };
        }
        if up < 0 {
            return Span {
                low: span.low,
                high: span.high.min(-65_537),
            };
        }
        span
    }
}

/// The number of the corner after this one, of so many: the first one is after the last.
fn corner_after(i: u32, corners: u32) -> u32
    requires { i < corners }
    ensures { result ≡ (i + 1) % corners }
{
    if i + 1 < corners { i + 1 } else { 0 }
}

/// The greater of the products of a number with two others.
fn greater(factor: i64, a: i64, b: i64) -> i64
    requires factor { IsSmall (pos 131072) factor }
    requires a { IsSmall (pos 131072) a }
    requires b { IsSmall (pos 131072) b }
    ensures value { result ≡ int_max (factor *ℤ a) (factor *ℤ b) }
    ensures small { IsSmall (pos 17179869184) result }
{
    product(factor, a).max(product(factor, b))
}

/// The lesser of the products of a number with two others.
fn lesser(factor: i64, a: i64, b: i64) -> i64
    requires factor { IsSmall (pos 131072) factor }
    requires a { IsSmall (pos 131072) a }
    requires b { IsSmall (pos 131072) b }
    ensures value { result ≡ int_min (factor *ℤ a) (factor *ℤ b) }
    ensures small { IsSmall (pos 17179869184) result }
{
    product(factor, a).min(product(factor, b))
}

/// The product of two numbers that are not great.
fn product(a: i64, b: i64) -> i64
    requires a { IsSmall (pos 131072) a }
    requires b { IsSmall (pos 131072) b }
    ensures value { result ≡ a *ℤ b }
    ensures small { IsSmall (pos 17179869184) result }
{
    a * b
}

/// A quotient, rounded down.
fn quotient(n: i64, d: i64) -> i64
    requires n { IsSmall (pos 17179869184) n }
    requires d { pos 0 <ℤ d }
    ensures floor { IsFloor n d result }
    ensures small { IsSmall (pos 17179869184) result }
{
    n.div_euclid(d)
}
