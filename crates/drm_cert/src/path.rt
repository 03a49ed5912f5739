//! The test of a path certificate.

ghost use Rattle.std.specs.Prelude.{◌↔◌, IsTrue, All};
ghost use Rattle.drm_cellmap.specs.Routes.{HasFlagsOf, IsOpen, IsWay, IsRoute};
ghost use Rattle.drm_cellmap.specs.Certificates.{PathCert};
ghost use Rattle.drm_cert.specs.Near.{AreLabels};

use crate::joined::joined;
use crate::labels::{has_label, labels_agree};
use drm_cellmap::Snap;
use drm_road::Road;

/// Says whether the nodes are a route of this length between the two nodes, and the labels show that it is a shortest
/// one. Exactly the definition, for any nodes, length and labels: nothing is added up that might not fit.
pub fn holds_path(
    road: &Road,
    snap: &Snap,
    from: u32,
    to: u32,
    nodes: &[u32],
    length: u64,
    labels: &[Option<u64>],
) -> bool
    requires { HasFlagsOf road.now snap.now }
    ensures { IsTrue result ↔ PathCert road.now snap.now from to nodes.now length labels.now }
{
    are_labels(road, from, to, length, labels)
        && is_route(road, snap, from, to, nodes, length)
        && labels_agree(road, snap, labels)
}

/// Says whether there is one label for each node, 0 for the first node of the route and the length for the last one.
fn are_labels(road: &Road, from: u32, to: u32, length: u64, labels: &[Option<u64>]) -> bool
    ensures { IsTrue result ↔ AreLabels road.now from to length labels.now }
{
    labels.len() == road.nodes() as usize
        && has_label(labels, from, 0)
        && has_label(labels, to, length)
}

/// Says whether the nodes are a route of this length between the two nodes.
fn is_route(road: &Road, snap: &Snap, from: u32, to: u32, nodes: &[u32], length: u64) -> bool
    requires { HasFlagsOf road.now snap.now }
    ensures { IsTrue result ↔ IsRoute road.now snap.now nodes.now from to length }
{
    let [first, rest @ ..] = nodes else {
        return false;
    };
    *first == from && all_open(road, snap, nodes) && is_way(road, snap, from, to, rest, length)
}

/// Says whether the road has all these nodes, and none is barred.
fn all_open(road: &Road, snap: &Snap, nodes: &[u32]) -> bool
    requires { HasFlagsOf road.now snap.now }
    ensures { IsTrue result ↔ All (IsOpen road.now snap.now) nodes.now }
{
    for &node in nodes {
        if !is_open(road, snap, node) {
            return false;
        }
    }
    true
}

/// Says whether the road has the node, and it is not barred.
fn is_open(road: &Road, snap: &Snap, node: u32) -> bool
    requires { HasFlagsOf road.now snap.now }
    ensures { IsTrue result ↔ IsOpen road.now snap.now node }
{
    node < road.nodes() && !snap.node_barred(node)
}

/// Says whether edges that are not barred lead from a node to those of the rest in their turn, the last of which is
/// `to`, with this length in all. The weights are taken off the length one by one.
fn is_way(road: &Road, snap: &Snap, from: u32, to: u32, rest: &[u32], length: u64) -> bool
    requires { HasFlagsOf road.now snap.now }
    ensures { IsTrue result ↔ IsWay road.now snap.now from rest.now to length }
{
    let mut at = from;
    let mut left = length;
    for &next in rest {
        let Some(weight) = joined(road, snap, at, next) else {
            return false;
        };
        if left < weight {
            return false;
        }
        left -= weight;
        at = next;
    }
    at == to && left == 0
}
