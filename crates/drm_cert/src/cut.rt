//! The test of a cut certificate.

ghost use Rattle.std.specs.Prelude.{◌≡◌, ◌↔◌, ◌<◌, ℕ, IsTrue, All, Contains};
ghost use Rattle.std.specs.List.Sorted.{IsStrictlyIncreasing};
ghost use Rattle.drm_cellmap.specs.Elements.{edge_count, HasEnds};
ghost use Rattle.drm_cellmap.specs.Routes.{HasFlagsOf};
ghost use Rattle.drm_cellmap.specs.Certificates.{CutCert};
ghost use Rattle.drm_cert.specs.Near.{AreAlike, AreNodes, IsClosed, PartsEnds};

use drm_cellmap::Snap;
use drm_road::{Edge, Road};

/// Says whether the side, in increasing order, has the one node and lacks the other, and each edge between it and the
/// rest is barred. Exactly the definition, for any side.
pub fn holds_cut(road: &Road, snap: &Snap, from: u32, to: u32, side: &[u32]) -> bool
    requires { HasFlagsOf road.now snap.now }
    ensures { IsTrue result ↔ CutCert road.now snap.now from to side.now }
{
    parts_ends(road, from, to, side) && is_closed(road, snap, side)
}

/// Says whether the side is a list of nodes in increasing order that has the one node and lacks the other.
fn parts_ends(road: &Road, from: u32, to: u32, side: &[u32]) -> bool
    ensures { IsTrue result ↔ PartsEnds road.now from to side.now }
{
    are_nodes(road, side) && contains(side, from) && !contains(side, to)
}

/// Says whether the side is a list of nodes in increasing order.
fn are_nodes(road: &Road, side: &[u32]) -> bool
    ensures { IsTrue result ↔ AreNodes road.now side.now }
{
    is_increasing(side) && all_below(side, road.nodes())
}

/// Says whether each node is greater than the one before it.
fn is_increasing(side: &[u32]) -> bool
    ensures { IsTrue result ↔ IsStrictlyIncreasing side.now }
{
    for i in 1..side.len() {
        if side[i] <= side[i - 1] {
            return false;
        }
    }
    true
}

/// Says whether all nodes are below `count`.
fn all_below(side: &[u32], count: u32) -> bool
    ensures { IsTrue result ↔ All (λ node. node < count) side.now }
{
    side.iter().all(|node| *node < count)
}

/// Says whether the side has the node.
fn contains(side: &[u32], node: u32) -> bool
    requires { IsStrictlyIncreasing side.now }
    ensures { IsTrue result ↔ Contains side.now node }
{
    side.binary_search(&node).is_ok()
}

/// Says whether each edge that is not barred has both ends in the side, or neither.
fn is_closed(road: &Road, snap: &Snap, side: &[u32]) -> bool
    requires flags { HasFlagsOf road.now snap.now }
    requires increasing { IsStrictlyIncreasing side.now }
    ensures { IsTrue result ↔ IsClosed road.now snap.now side.now }
{
    for i in 0..road.edges() {
        if !snap.edge_barred(i) && !edge_stays(road, side, i) {
            return false;
        }
    }
    true
}

/// Says whether both ends of the edge are in the side, or neither.
fn edge_stays(road: &Road, side: &[u32], i: u32) -> bool
    requires edge { i < edge_count road.now }
    requires increasing { IsStrictlyIncreasing side.now }
    ensures { (a b : ℕ) → HasEnds road.now i a b → (IsTrue result ↔ AreAlike side.now a b) }
{
    let Edge { a, b } = road.edge(i);
    contains(side, a) == contains(side, b)
}
