//! Which nodes an edge joins.
ghost use Rattle.std.specs.Prelude.{◌≡◌, ◌≢◌, ℕ, ◌*◌, ◌<◌, ◌≤◌, ℤ, List, [], ◌∷◌, ◌++◌, length as count_of, slice_get, Some, map, IfOk, OnOk};
ghost use Rattle.drm_road.specs.declared.pairing.Place.{Place};
ghost use Rattle.drm_road.specs.Limits.{max_nodes, max_near};
ghost use Rattle.drm_road.specs.Pairs.{ArePairs, AreLikeNodes, gap, edge_between};
ghost use Rattle.drm_road.specs.Nearest.{AreNearest, IsByDistance, Offers};

use crate::edge::Edge;
use drm_arm::{Config, length};
use drm_outside::{List, Memory};
use std::alloc::Global;

/// The greatest number of nearest nodes that each node is joined to; the least is 1.
pub const MAX_NEAR: u32 = 16;

/// Another node, with its distance from the node whose nearest are sought.
#[derive(Clone, Copy)]
struct Place {
    far: u64,
    node: u32,
}

/// The edges between nodes of which one is among the `near` nearest of the other, in increasing order.
///
/// The nearest of a node are the first other nodes in the order of their distances from it, and of their numbers
/// where the distances are equal; they are all others where there are no more than `near`.
pub fn pairs(alloc: Global, nodes: &[Config], near: u32) -> Result<List<Edge>, Memory>
    requires some { 1 ≤ count_of nodes.now }
    requires few { count_of nodes.now ≤ max_nodes }
    requires alike { AreLikeNodes nodes.now }
    requires near_some { 1 ≤ near }
    requires near_few { near ≤ max_near }
    ensures pairs { IfOk result (ArePairs nodes.now near) }
    ensures few { IfOk result (λ edges. count_of edges ≤ count_of nodes.now * near) }
{
    let mut edges = Vec::new(alloc);
    let mut best = Vec::new(alloc);
    for i in 0..nodes.len() as u32 {
        nearest(nodes, i, near as usize, &mut best)?;
        join(&mut edges, i, &best)?;
    }
    edges.sort_unstable();
    edges.dedup();
    Ok(List::from_vec(edges))
}

fn join(edges: &mut Vec<Edge>, i: u32, best: &[Place]) -> Result<(), Memory>
    ensures { OnOk result (edges.new.items ≡ edges.old.items ++ map (λ place. edge_between i place.node) best.now) }
{
    for place in best {
        edges.push(edge_of(i, place.node))?;
    }
    Ok(())
}

fn edge_of(i: u32, j: u32) -> Edge
    ensures { result ≡ edge_between i j }
{
    if i < j {
        Edge { a: i, b: j }
    } else {
        Edge { a: j, b: i }
    }
}

fn nearest(nodes: &[Config], i: u32, near: usize, best: &mut Vec<Place>) -> Result<(), Memory>
    requires node { i < count_of nodes.now }
    requires few { count_of nodes.now ≤ max_nodes }
    requires alike { AreLikeNodes nodes.now }
    requires near { 1 ≤ near }
    ensures { OnOk result (AreNearest nodes.now near i (count_of nodes.now) best.new.items) }
{
    best.clear();
    let from = &nodes[i as usize];
    for j in 0..nodes.len() as u32 {
        if j != i {
            let far = length(from, &nodes[j as usize]);
            offer(best, near, Place { far, node: j })?;
        }
    }
    Ok(())
}

fn offer(best: &mut Vec<Place>, near: usize, place: Place) -> Result<(), Memory>
    requires near { 1 ≤ near }
    requires few { count_of best.old.items ≤ near }
    requires sorted { IsByDistance best.old.items }
    ensures { OnOk result (Offers near best.old.items place best.new.items) }
{
    let at = rank(best, place.far);
    if at == near {
        return Ok(());
    }
    best.truncate(near - 1);
    best.insert(at, place)?;
    Ok(())
}

fn rank(best: &[Place], far: u64) -> usize
    requires { IsByDistance best.now }
    ensures within { result ≤ count_of best.now }
    ensures below { (p : ℕ) (e : Place) → p < result → slice_get best.now p ≡ Some e → e.far ≤ far }
    ensures above { (p : ℕ) (e : Place) → result ≤ p → slice_get best.now p ≡ Some e → far < e.far }
{
    let mut at = best.len();
    while at > 0 && far < best[at - 1].far {
        at -= 1;
    }
    at
}
