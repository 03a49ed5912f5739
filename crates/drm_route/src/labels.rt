//! The labels of a search: the least length of a route to each node.

ghost use Rattle.std.specs.Prelude.{◌≡◌, ◌↔◌, ◌<◌, ◌≤◌, ◌+◌, ℕ, IsTrue, IfOk, Some, length, slice_get};
ghost use Rattle.drm_road.specs.Limits.{max_nodes};
ghost use Rattle.drm_road.specs.Road.{IsRoad, weight_of};
ghost use Rattle.drm_cellmap.specs.Elements.{node_count, edge_count, HasEnds};
ghost use Rattle.drm_cellmap.specs.Snapshot.{Snapshot};
ghost use Rattle.drm_cellmap.specs.Routes.{HasFlagsOf, IsSnapOn, IsOpen};
ghost use Rattle.drm_cellmap.specs.Certificates.{Agrees};
ghost use Rattle.drm_route.specs.Limits.{max_weight};
ghost use Rattle.drm_route.specs.Labels.{HasGrounds, AreBest};
ghost use Rattle.drm_route.specs.Rounds.{AreSmall, MayBeLowered, IsAtMost, Lowers, Relaxes, RelaxesAt, IsRound};

use drm_cellmap::Snap;
use drm_outside::Memory;
use drm_road::{Edge, Road};
use std::alloc::Global;

/// One label for each node: the least length of a route to it, or none where there is no route. Rounds over all edges
/// lower the labels until a round changes nothing.
pub(crate) fn settled(
    alloc: Global,
    road: &Road,
    snap: &Snap,
    from: u32,
) -> Result<Vec<Option<u64>>, Memory>
    requires snapshot { IsSnapOn road.now snap.now }
    requires start { IsOpen road.now snap.now from }
    ensures grounds { IfOk result (λ labels. HasGrounds road.now snap.now from labels.items) }
    ensures agrees { IfOk result (λ labels. Agrees road.now snap.now labels.items) }
    ensures best { IfOk result (λ labels. AreBest road.now snap.now from labels.items) }
    ensures limits { IsRoad road.now }
{
    let mut labels = first_labels(alloc, road, from)?;
    settle(road, snap, &mut labels);
    Ok(labels)
}

/// Rounds over all edges, until one changes nothing.
fn settle(road: &Road, snap: &Snap, labels: &mut [Option<u64>])
    requires flags { HasFlagsOf road.now snap.now }
    requires ready { MayBeLowered road.now labels.old }
    ensures one_each { length labels.new ≡ length labels.old }
    ensures grounds { (from : ℕ)
        → HasGrounds road.now snap.now from labels.old → HasGrounds road.now snap.now from labels.new }
    ensures agrees { Agrees road.now snap.now labels.new }
{
    while relax(road, snap, labels) {}
}

/// The label 0 for the first node, and none for the others.
fn first_labels(alloc: Global, road: &Road, from: u32) -> Result<Vec<Option<u64>>, Memory>
    requires { from < node_count road.now }
    ensures grounds { IfOk result (λ labels. (snap : Snapshot) → HasGrounds road.now snap from labels.items) }
    ensures small { IfOk result (λ labels. AreSmall labels.items) }
    ensures one_each { IfOk result (λ labels. length labels.items ≡ node_count road.now) }
{
    let mut labels = vec![in alloc; None; road.nodes() as usize]?;
    labels[from as usize] = Some(0);
    Ok(labels)
}

/// One round over all edges that are not barred. Says whether a label was lowered.
fn relax(road: &Road, snap: &Snap, labels: &mut [Option<u64>]) -> bool
    requires flags { HasFlagsOf road.now snap.now }
    requires ready { MayBeLowered road.now labels.old }
    ensures { IsRound road.now snap.now labels.old (edge_count road.now) labels.new result }
{
    let mut changed = false;
    for i in 0..road.edges() {
        if relax_at(road, snap, labels, i) {
            changed = true;
        }
    }
    changed
}

/// Lowers a label at one end of the edge by that of the other, unless the edge is barred. Says whether one was lowered.
fn relax_at(road: &Road, snap: &Snap, labels: &mut [Option<u64>], i: u32) -> bool
    requires flags { HasFlagsOf road.now snap.now }
    requires ready { MayBeLowered road.now labels.old }
    requires edge { i < edge_count road.now }
    ensures { RelaxesAt road.now snap.now labels.old i labels.new result }
{
    if snap.edge_barred(i) {
        return false;
    }
    relax_edge(road, labels, i)
}

/// Lowers a label at one end of the edge by that of the other. Says whether one was lowered.
fn relax_edge(road: &Road, labels: &mut [Option<u64>], i: u32) -> bool
    requires ready { MayBeLowered road.now labels.old }
    requires edge { i < edge_count road.now }
    ensures { (a b : ℕ) → HasEnds road.now i a b → Relaxes labels.old a b (weight_of road.now a b) labels.new result }
{
    let Edge { a, b } = road.edge(i);
    let weight = road.weight(i);
    if lower(labels, a, b, weight) {
        return true;
    }
    lower(labels, b, a, weight)
}

/// Lowers the label of v to that of u and the weight, where it has none or a greater one. Says whether it was lowered.
fn lower(labels: &mut [Option<u64>], u: u32, v: u32, weight: u64) -> bool
    requires few { length labels.old ≤ max_nodes }
    requires small { AreSmall labels.old }
    requires weight { weight ≤ max_weight }
    requires first { u < length labels.old }
    requires second { v < length labels.old }
    ensures { Lowers labels.old u v weight labels.new result }
{
    let Some(near) = label_of(labels, u) else {
        return false;
    };
    let far = near + weight;
    if is_at_most(label_of(labels, v), far) {
        return false;
    }
    labels[v as usize] = Some(far);
    true
}

/// The label of the node, or none.
pub(crate) fn label_of(labels: &[Option<u64>], v: u32) -> Option<u64>
    requires { v < length labels.now }
    ensures { slice_get labels.now v ≡ Some result }
{
    labels[v as usize]
}

/// Says whether it is a label, and no greater one.
fn is_at_most(label: Option<u64>, far: u64) -> bool
    ensures { IsTrue result ↔ IsAtMost label far }
{
    match label {
        Some(label) => label <= far,
        None => false,
    }
}
