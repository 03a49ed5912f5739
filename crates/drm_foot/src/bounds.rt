//! The bounds of shapes.

ghost use Rattle.std.specs.Prelude.{◌≡◌, pos, ◌^◌, ◌≤ℤ◌, All};
ghost use Rattle.std.specs.Int.{int_min, int_max};
ghost use Rattle.drm_num.specs.Small.{IsSmall};
ghost use Rattle.drm_shape.specs.Corners.{corner_count, corner_at};
ghost use Rattle.drm_shape.specs.Validity.{IsValid, IsCoordinate};
ghost use Rattle.drm_foot.specs.Bounds.{IsSpan, IsBoundsOf};

use drm_shape::{Ring, Shape};

/// The least and greatest coordinates of a shape.
#[derive(Clone, Copy)]
pub(crate) struct Bounds {
    pub(crate) x0: i32,
    pub(crate) y0: i32,
    pub(crate) x1: i32,
    pub(crate) y1: i32,
}

impl Bounds {
    /// The bounds of a valid shape.
    pub(crate) fn of(shape: &Shape) -> Bounds
        requires { IsValid shape.now }
        ensures { IsBoundsOf shape.now result }
    {
        match shape {
            Shape::Rect { x0, y0, x1, y1 } => Bounds {
                x0: *x0,
                y0: *y0,
                x1: *x1,
                y1: *y1,
            },
            Shape::Disc { x, y, r } => {
                let r = *r as i32;
                Bounds {
                    x0: *x - r,
                    y0: *y - r,
                    x1: *x + r,
                    y1: *y + r,
                }
            }
            Shape::Poly(ring) => Bounds::of_ring(ring),
        }
    }

    /// The bounds of the corners of a ring.
    pub(crate) fn of_ring(ring: &Ring) -> Bounds
        ensures across { IsSpan (corner_count ring.now) (λ i. (corner_at ring.now i).x) result.x0 result.x1 }
        ensures up { IsSpan (corner_count ring.now) (λ i. (corner_at ring.now i).y) result.y0 result.y1 }
    {
        let corners = ring.corners();
        let x = ring.x(0);
        let y = ring.y(0);
        let mut bounds = Bounds {
            x0: x,
            y0: y,
            x1: x,
            y1: y,
        };
        for i in 1..corners {
            bounds = bounds.with(ring.x(i), ring.y(i));
        }
        bounds
    }

    /// The bounds that enclose this point too.
    fn with(self, x: i32, y: i32) -> Bounds
        ensures x0 { result.x0 ≡ int_min self.x0 x }
        ensures x1 { result.x1 ≡ int_max self.x1 x }
        ensures y0 { result.y0 ≡ int_min self.y0 y }
        ensures y1 { result.y1 ≡ int_max self.y1 y }
    {
        Bounds {
            x0: self.x0.min(x),
            y0: self.y0.min(y),
            x1: self.x1.max(x),
            y1: self.y1.max(y),
        }
    }
}
