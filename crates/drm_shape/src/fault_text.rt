//! What a fault of a shape prints: the rule that is broken, its place, and the limit.
ghost use Rattle.std.specs.Prelude.{Some};
ghost use Rattle.drm_shape.specs.FaultText.{shape_fault_text};

use crate::{FAR, MAX_DISC, ShapeFault};
use std::error::Error;
use std::fmt;

impl fmt::Display for ShapeFault {
    ghost output = { λ fault. Some (shape_fault_text fault) };

    fn fmt<W: fmt::Write>(&self, f: &mut fmt::Formatter<W>) -> fmt::Result {
        match *self {
            ShapeFault::Range => {
                let least = -FAR;
                write!(f, "a coordinate is not within {least} to {FAR}")
            }
            ShapeFault::Order => f.write_str(
                "the left side of the box is right of its right side, or its bottom is above its top",
            ),
            ShapeFault::Radius => write!(f, "the radius of the disc is over {MAX_DISC}"),
            ShapeFault::Turn(side) => write!(
                f,
                "side {side} of the ring has another corner that is not strictly on its left"
            ),
        }
    }
}

impl Error for ShapeFault {}
