//! The search for a shortest route, or for what shows that there is none.

ghost use Rattle.std.specs.Prelude.{◌≡◌, ◌↔◌, ◌<◌, ◌≤◌, ℕ, IsTrue, IfOk, Some, length, slice_get, Contains};
ghost use Rattle.std.specs.List.Sorted.{IsStrictlyIncreasing};
ghost use Rattle.drm_road.specs.Limits.{max_nodes};
ghost use Rattle.drm_cellmap.specs.Elements.{node_count, edge_count};
ghost use Rattle.drm_cellmap.specs.Routes.{HasFlagsOf, IsSnapOn, IsOpen};
ghost use Rattle.drm_cellmap.specs.Certificates.{IsLabel, Agrees};
ghost use Rattle.drm_route.specs.Labels.{HasGrounds};
ghost use Rattle.drm_route.specs.Trace.{StepsOver, IsLeastStep, IsLesser, Makes, AreStep, IsTraced};
ghost use Rattle.drm_route.specs.Search.{IsFound, IsCertified, HasLabel};

use crate::labels::{label_of, settled};
use drm_cellmap::Snap;
use drm_outside::{List, Memory};
use drm_road::{Edge, Road};
use std::alloc::Global;

/// What a search found.
#[derive(Debug, Drop)]
pub enum Found {
    /// A shortest route.
    Path {
        /// The nodes of the route, in their turn. Before each but the first stands the least-numbered node whose label
        /// makes, with the weight of an edge that is not barred, the node's own.
        nodes: List<u32>,
        /// The length of the route.
        length: u64,
        /// For each node of the road the least length of a route to it, or none where there is no route.
        labels: List<Option<u64>>,
    },
    /// There is no route.
    Cut {
        /// The nodes to which there is a route, in increasing order.
        side: List<u32>,
    },
}

/// A shortest route between two nodes that are not barred, over nodes and edges that are not barred, or the cut that
/// shows that there is none. Lengths and labels are sums of weights, in units of coordinates. `Memory` where there is
/// no room for the labels or for what is found, and nothing else is refused. The contract does not say how many rounds
/// over the edges the search takes.
pub fn search(alloc: Global, road: &Road, snap: &Snap, from: u32, to: u32) -> Result<Found, Memory>
    requires snapshot { IsSnapOn road.now snap.now }
    requires start { IsOpen road.now snap.now from }
    requires goal { IsOpen road.now snap.now to }
    ensures exact { IfOk result (IsFound road.now snap.now from to) }
    ensures certified { IfOk result (IsCertified road.now snap.now from to) }
{
    let labels = settled(alloc, road, snap, from)?;
    match label_of(&labels, to) {
        Some(length) => {
            let nodes = path_back(alloc, road, snap, &labels, from, to)?;
            Ok(Found::Path {
                nodes: List::from_vec(nodes),
                length,
                labels: List::from_vec(labels),
            })
        }
        None => Ok(Found::Cut {
            side: List::from_vec(labelled_nodes(alloc, &labels)?),
        }),
    }
}

/// The nodes that have a label, in increasing order.
fn labelled_nodes(alloc: Global, labels: &[Option<u64>]) -> Result<Vec<u32>, Memory>
    requires { length labels.now ≤ max_nodes }
    ensures increasing { IfOk result (λ side. IsStrictlyIncreasing side.items) }
    ensures exact { IfOk result (λ side. (v : ℕ) → Contains side.items v ↔ HasLabel labels.now v) }
{
    let mut side = Vec::new(alloc);
    for v in 0..labels.len() as u32 {
        if has_label(labels, v) {
            side.push(v)?;
        }
    }
    Ok(side)
}

/// Says whether the node has a label.
fn has_label(labels: &[Option<u64>], v: u32) -> bool
    requires { v < length labels.now }
    ensures { IsTrue result ↔ HasLabel labels.now v }
{
    label_of(labels, v).is_some()
}

/// The nodes that are traced back from `to` by least-numbered nodes, the first one first.
fn path_back(
    alloc: Global,
    road: &Road,
    snap: &Snap,
    labels: &[Option<u64>],
    from: u32,
    to: u32,
) -> Result<Vec<u32>, Memory>
    requires snapshot { IsSnapOn road.now snap.now }
    requires grounds { HasGrounds road.now snap.now from labels.now }
    requires agrees { Agrees road.now snap.now labels.now }
    requires goal { HasLabel labels.now to }
    ensures { IfOk result (λ nodes. IsTraced road.now snap.now labels.now from to nodes.items) }
{
    let mut nodes = Vec::new(alloc);
    nodes.push(to)?;
    let mut at = to;
    while let Some(before) = step_back(road, snap, labels, at) {
        nodes.push(before)?;
        at = before;
    }
    nodes.reverse();
    Ok(nodes)
}

/// The least-numbered node from which an edge that is not barred makes the node's label, or none.
fn step_back(road: &Road, snap: &Snap, labels: &[Option<u64>], v: u32) -> Option<u32>
    requires flags { HasFlagsOf road.now snap.now }
    requires one_each { length labels.now ≡ node_count road.now }
    ensures { IsLeastStep road.now snap.now labels.now v (edge_count road.now) result }
{
    let mut least = None;
    for i in 0..road.edges() {
        least = lesser(least, offer(road, snap, labels, v, i));
    }
    least
}

/// The other end of the edge, where it is not barred and makes, with that end's label, the label of v.
fn offer(road: &Road, snap: &Snap, labels: &[Option<u64>], v: u32, i: u32) -> Option<u32>
    requires flags { HasFlagsOf road.now snap.now }
    requires one_each { length labels.now ≡ node_count road.now }
    requires edge { i < edge_count road.now }
    ensures { (u : ℕ) → StepsOver road.now snap.now labels.now i u v ↔ (result ≡ Some u) }
{
    let Edge { a, b } = road.edge(i);
    if a != v && b != v {
        return None;
    }
    if snap.edge_barred(i) {
        return None;
    }
    let weight = road.weight(i);
    if steps(labels, a, b, v, weight) {
        return Some(a);
    }
    if steps(labels, b, a, v, weight) {
        return Some(b);
    }
    None
}

/// Says whether the far node is v, and its label is that of the near one and the weight.
fn steps(labels: &[Option<u64>], near: u32, far: u32, v: u32, weight: u64) -> bool
    requires near { near < length labels.now }
    requires far { far < length labels.now }
    ensures { IsTrue result ↔ ((far ≡ v) × AreStep labels.now near far weight) }
{
    far == v && makes(label_of(labels, near), label_of(labels, far), weight)
}

/// Says whether both are labels, and the second is the first and the weight, without adding them.
fn makes(near: Option<u64>, far: Option<u64>, weight: u64) -> bool
    ensures { IsTrue result ↔ Makes near far weight }
{
    match (near, far) {
        (Some(near), Some(far)) => near <= far && far - near == weight,
        _ => false,
    }
}

/// The lesser of two numbers, of which either may be missing.
fn lesser(one: Option<u32>, other: Option<u32>) -> Option<u32>
    ensures { IsLesser one other result }
{
    match (one, other) {
        (Some(a), Some(b)) => Some(a.min(b)),
        (Some(a), None) => Some(a),
        (None, other) => other,
    }
}
