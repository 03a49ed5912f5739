//! Labels of the nodes: how far each is from the first.

ghost use Rattle.std.specs.Prelude.{◌≡◌, ◌↔◌, ◌<◌, ◌≤◌, ◌+◌, ℕ, IsTrue, length};
ghost use Rattle.drm_road.specs.Road.{weight_of};
ghost use Rattle.drm_cellmap.specs.Elements.{node_count, edge_count, HasEnds};
ghost use Rattle.drm_cellmap.specs.Routes.{HasFlagsOf};
ghost use Rattle.drm_cellmap.specs.Certificates.{IsLabel, Agrees};
ghost use Rattle.drm_cert.specs.Near.{AreNear, label_at};

use drm_cellmap::Snap;
use drm_road::{Edge, Road};

/// Says whether the node has this label.
pub(crate) fn has_label(labels: &[Option<u64>], node: u32, label: u64) -> bool
    ensures { IsTrue result ↔ IsLabel labels.now node label }
{
    (node as usize) < labels.len() && labels[node as usize] == Some(label)
}

/// Says whether at each edge that is not barred both ends have labels, which differ by at most the weight, or neither
/// has one.
pub(crate) fn labels_agree(road: &Road, snap: &Snap, labels: &[Option<u64>]) -> bool
    requires flags { HasFlagsOf road.now snap.now }
    requires one_each { length labels.now ≡ node_count road.now }
    ensures { IsTrue result ↔ Agrees road.now snap.now labels.now }
{
    for i in 0..road.edges() {
        if !snap.edge_barred(i) && !edge_agrees(road, labels, i) {
            return false;
        }
    }
    true
}

/// Says whether the ends of the edge both have labels, which differ by at most the weight, or neither has one.
fn edge_agrees(road: &Road, labels: &[Option<u64>], i: u32) -> bool
    requires edge { i < edge_count road.now }
    requires one_each { length labels.now ≡ node_count road.now }
    ensures { (a b : ℕ) → HasEnds road.now i a b
        → (IsTrue result ↔ AreNear (label_at labels.now a) (label_at labels.now b) (weight_of road.now a b)) }
{
    let Edge { a, b } = road.edge(i);
    are_near(labels[a as usize], labels[b as usize], road.weight(i))
}

/// Says whether both are labels, and neither is above the other by more than the weight, or neither is one.
fn are_near(one: Option<u64>, other: Option<u64>, weight: u64) -> bool
    ensures { IsTrue result ↔ AreNear one other weight }
{
    match (one, other) {
        (Some(x), Some(y)) => is_within(x, y, weight) && is_within(y, x, weight),
        (None, None) => true,
        _ => false,
    }
}

/// Says whether y is at most x and the weight together, without adding them.
fn is_within(x: u64, y: u64, weight: u64) -> bool
    ensures { IsTrue result ↔ (y ≤ x + weight) }
{
    y <= x || y - x <= weight
}
