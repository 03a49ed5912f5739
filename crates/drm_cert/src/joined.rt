//! Which edge joins two nodes.

ghost use Rattle.std.specs.Prelude.{◌≡◌, ◌↔◌, ℕ, IsTrue, Some};
ghost use Rattle.drm_road.specs.Road.{IsRoad};
ghost use Rattle.drm_cellmap.specs.Elements.{HasEnds};
ghost use Rattle.drm_cellmap.specs.Routes.{HasFlagsOf, Joins};

use drm_cellmap::Snap;
use drm_road::{Edge, Road};

/// The weight of the edge that joins two nodes, in either direction. `None` exactly where no edge joins them, or one
/// that is barred.
pub(crate) fn joined(road: &Road, snap: &Snap, u: u32, v: u32) -> Option<u64>
    requires { HasFlagsOf road.now snap.now }
    ensures { (w : ℕ) → Joins road.now snap.now u v w ↔ (result ≡ Some w) }
{
    let edge = edge_between(road, u.min(v), u.max(v))?;
    if snap.edge_barred(edge) {
        return None;
    }
    Some(road.weight(edge))
}

/// The number of the edge from one node to another. `None` exactly where there is none.
fn edge_between(road: &Road, a: u32, b: u32) -> Option<u32>
    ensures exact { (edge : ℕ) → HasEnds road.now edge a b ↔ (result ≡ Some edge) }
    ensures limits { IsRoad road.now }
{
    let mut low = 0;
    let mut high = road.edges();
    while low < high {
        let middle = low + (high - low) / 2;
        let edge = road.edge(middle);
        if edge.precedes(a, b) {
            low = middle + 1;
        } else if leads(&edge, a, b) {
            return Some(middle);
        } else {
            high = middle;
        }
    }
    None
}

/// Says whether the edge is the one from a to b.
fn leads(edge: &Edge, a: u32, b: u32) -> bool
    ensures { IsTrue result ↔ ((edge.now.0 ≡ a) × (edge.now.1 ≡ b)) }
{
    edge.a == a && edge.b == b
}
