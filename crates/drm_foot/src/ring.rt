//! Which columns of a row a ring touches.

ghost use Rattle.std.specs.Prelude.{◌≡◌, ◌+◌, ◌<◌, ◌↔◌, ℕ, pos, All};
ghost use Rattle.drm_grid.specs.Layout.{IsGrid, line_at};
ghost use Rattle.drm_grid.specs.Strips.{MeetsStrip, IsRangeUpTo, IsBetween};
ghost use Rattle.drm_shape.specs.Validity.{IsValid, IsCoordinate};
ghost use Rattle.drm_shape.specs.declared.Shape.TheVariants.{Poly};
ghost use Rattle.drm_foot.specs.Bounds.{IsBoundsOf};
ghost use Rattle.drm_foot.specs.Block.{AreColumns};
ghost use Rattle.drm_foot.specs.Sides.{IsMet, IsBeyondNone, Narrows};
ghost use Rattle.drm_num.specs.Small.{IsSmall};

use crate::bounds::Bounds;
use crate::side::{Side, Span};
use drm_grid::Grid;
use drm_shape::Ring;
use std::ops::Range;

/// A coordinate beyond all lines of a grid.
const BEYOND: i64 = 65_537;

/// The columns of the row in which the ring touches cells: those of its bounds that no side has beyond it.
pub(crate) fn ring_columns(grid: &Grid, ring: &Ring, bounds: &Bounds, row: u32) -> Range<u32>
    requires valid { IsValid (Poly ring.now) }
    requires bounds { IsBoundsOf (Poly ring.now) bounds.now }
    requires on_grid { row < grid.now.n }
    requires met { MeetsStrip grid.now bounds.now.y0 bounds.now.y1 row }
    ensures { AreColumns grid.now (Poly ring.now) row result }
{
    let whole = Span {
        low: i64::from(bounds.x0),
        high: i64::from(bounds.x1),
    };
    let bottom = i64::from(grid.line(row));
    let top = i64::from(grid.line(row + 1));
    columns_met(grid, narrowed(ring, whole, bottom, top))
}

/// The part of the span that all sides of the ring leave to it between two lines.
fn narrowed(ring: &Ring, whole: Span, bottom: i64, top: i64) -> Span
    requires range { All IsCoordinate ring.now }
    requires bottom { IsSmall (pos 65536) bottom }
    requires top { IsSmall (pos 65536) top }
    ensures { Narrows whole result (IsBeyondNone ring.now bottom top) }
{
    let mut span = whole;
    for i in 0..ring.corners() {
        span = Side::of(ring, i).narrow(span, bottom, top);
    }
    span
}

/// The columns that the span meets.
fn columns_met(grid: &Grid, span: Span) -> Range<u32>
    requires { IsGrid grid.now }
    ensures within { IsRangeUpTo grid.now.n result }
    ensures exact { (k : ℕ) → k < grid.now.n
        → IsMet span (line_at grid.now k) (line_at grid.now (k + 1)) ↔ IsBetween result k }
{
    let low = span.low.clamp(-BEYOND, BEYOND) as i32;
    let high = span.high.clamp(-BEYOND, BEYOND) as i32;
    if low <= high {
        return grid.strips_met(low, high);
    }
    columns_of_both(grid, low, high)
}

/// The columns that reach down to `high` and up to `low`, which may be the greater of the two.
fn columns_of_both(grid: &Grid, low: i32, high: i32) -> Range<u32>
    requires limits { IsGrid grid.now }
    requires low { IsSmall (pos 65537) low }
    requires high { IsSmall (pos 65537) high }
    ensures within { IsRangeUpTo grid.now.n result }
    ensures exact { (k : ℕ) → k < grid.now.n → MeetsStrip grid.now low high k ↔ IsBetween result k }
{
    let from = grid.strips_met(low, BEYOND as i32);
    let up_to = grid.strips_met(-(BEYOND as i32), high);
    let start = from.start.max(up_to.start);
    let end = from.end.min(up_to.end);
    start..end.max(start)
}
