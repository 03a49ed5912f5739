//! Obstacles: the shapes that callers put into the workspace, which points they hold, and which of them are valid.
#![tactic(auto)]

ghost use Rattle.std.specs.Prelude.{◌≡◌, ◌↔◌, None};
ghost use Rattle.std.specs.Result.{result_err};

mod fault_text;
mod ring;

pub use ring::Ring;

#[cfg(test)]
mod tests;

/// The greatest absolute value of a coordinate of a shape, in workspace units.
pub const FAR: i32 = 65_536;
/// The greatest radius of a disc, in workspace units.
pub const MAX_DISC: u32 = 65_536;

/// An obstacle, in workspace units. A shape is closed: its border belongs to it.
///
/// Any numbers make a `Shape`; `check` says which shapes the planner takes.
#[derive(Clone, Copy, Debug, PartialEq, Eq)]
pub enum Shape {
    /// All points with x from `x0` to `x1` and y from `y0` to `y1`.
    Rect { x0: i32, y0: i32, x1: i32, y1: i32 },
    /// All points that are at most `r` from (`x`, `y`).
    Disc { x: i32, y: i32, r: u32 },
    /// All points that each side of the ring has on its left or on its line.
    Poly(Ring),
}

/// The first rule of validity that a shape breaks, in the order in which they are tested.
#[derive(Clone, Copy, Debug, PartialEq, Eq)]
pub enum ShapeFault {
    /// A coordinate is outside -65,536 to 65,536.
    Range,
    /// The left side of a box is right of the right side, or the bottom above the top.
    Order,
    /// The radius of a disc is over 65,536.
    Radius,
    /// A side of a ring does not have every corner but its own two strictly on its left: the first such side, counted
    /// from 0. The i-th side goes from the i-th corner to the next.
    Turn(u32),
}

ghost use Rattle.drm_shape.specs.Validity.{IsValid, IsInRange, HasCorners, is_coordinate, is_in_range, is_ordered, has_radius, turn_fault, shape_fault};

impl Shape {
    /// Says whether the planner takes this shape, or names the first rule that it breaks.
    ///
    /// A ring that passes is strictly convex, counterclockwise, and goes round once.
    #[tactic(auto, using(crate::proofs::ShapeLemmas::valid_or_not, crate::proofs::ShapeLemmas::in_range))]
    pub fn check(&self) -> Result<(), ShapeFault>
        ensures fault { result_err result ≡ shape_fault self.now }
        ensures valid { (shape_fault self.now ≡ None) ↔ IsValid self.now }
    {
        if !is_in_range(self) {
            return Err(ShapeFault::Range);
        }
        if !is_ordered(self) {
            return Err(ShapeFault::Order);
        }
        if !has_radius(self) {
            return Err(ShapeFault::Radius);
        }
        match turn_fault(self) {
            Some(fault) => Err(fault),
            None => Ok(()),
        }
    }
}

/// Says whether every coordinate of the shape is within the limits.
fn is_in_range(shape: &Shape) -> bool
    ensures { result ≡ is_in_range shape.now }
{
    match shape {
        Shape::Rect { x0, y0, x1, y1 } => {
            is_coordinate(*x0) && is_coordinate(*y0) && is_coordinate(*x1) && is_coordinate(*y1)
        }
        Shape::Disc { x, y, r: _ } => is_coordinate(*x) && is_coordinate(*y),
        Shape::Poly(ring) => ring.is_in_range(),
    }
}

/// Says whether no side of a box is on the wrong side of the opposite one.
fn is_ordered(shape: &Shape) -> bool
    ensures { result ≡ is_ordered shape.now }
{
    match shape {
        Shape::Rect { x0, y0, x1, y1 } => x0 <= x1 && y0 <= y1,
        _ => true,
    }
}

/// Says whether the radius of a disc is within the limit.
fn has_radius(shape: &Shape) -> bool
    ensures { result ≡ has_radius shape.now }
{
    match shape {
        Shape::Disc { r, .. } => *r <= MAX_DISC,
        _ => true,
    }
}

/// The fault of the first side of a ring that does not turn left.
fn turn_fault(shape: &Shape) -> Option<ShapeFault>
    requires { IsInRange shape.now }
    ensures fault { result ≡ turn_fault shape.now }
    ensures corners { HasCorners shape.now }
{
    match shape {
        Shape::Poly(ring) => ring.first_bad_side().map(|i| ShapeFault::Turn(i)),
        _ => None,
    }
}

/// Says whether a coordinate is within the limits.
fn is_coordinate(coordinate: i32) -> bool
    ensures { result ≡ is_coordinate coordinate }
{
    -FAR <= coordinate && coordinate <= FAR
}
