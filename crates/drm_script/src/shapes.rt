// Printing shapes.
ghost use Rattle.std.specs.Prelude.{◌≡◌, ◌++◌, OnOk, flat_map, string_bytes};
ghost use Rattle.drm_script.specs.Words.{spaced};
ghost use Rattle.drm_script.specs.Log.{signed_words, shape_words};

use drm_outside::Memory;
use drm_shape::{Ring, Shape};

/// Writes the words of a shape at the end of the text, with a blank before each.
pub fn print_shape(text: &mut String, shape: &Shape) -> Result<(), Memory>
    ensures { OnOk result (string_bytes text.new ≡ string_bytes text.old ++ spaced (shape_words shape.now)) }
{
    match shape {
        Shape::Rect { x0, y0, x1, y1 } => write!(text, " box {x0} {y0} {x1} {y1}")?,
        Shape::Disc { x, y, r } => write!(text, " disc {x} {y} {r}")?,
        Shape::Poly(ring) => {
            text.push_str(" poly")?;
            print_ring(text, ring)?;
        }
    }
    Ok(())
}

/// Writes the coordinates of a ring at the end of the text, with a blank before each.
fn print_ring(text: &mut String, ring: &Ring) -> Result<(), Memory>
    ensures { OnOk result (string_bytes text.new ≡ string_bytes text.old ++ spaced (flat_map signed_words ring.now)) }
{
    for i in 0..ring.corners() {
        let (x, y) = (ring.x(i), ring.y(i));
        write!(text, " {x} {y}")?;
    }
    Ok(())
}
