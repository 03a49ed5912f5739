//! Which nodes are tried for a configuration, and in which order.

ghost use Rattle.std.specs.Prelude.{◌+◌, ◌<◌, ◌≤◌, ℕ, All, IfOk, length as count_of, slice_index_or};
ghost use Rattle.drm_arm.specs.Config.{IsConfig};
ghost use Rattle.drm_attach.specs.Candidates.{AreCandidates, AreFirst, IsLike, IsByDistance, gap};

use arrayvec::ArrayVec;
use drm_arm::{Config, length};
use drm_cellmap::Map;
use drm_outside::{List, Memory};
use drm_road::Road;
use std::alloc::Global;

/// The greatest number of nodes that are tried for a configuration.
pub const MAX_CANDIDATES: u32 = 12;

/// A list of so many nodes at most, which lies where it stands and takes no memory.
pub(crate) type Nearest = ArrayVec<u32, 12>;

/// The nodes that are tried for the configuration, in their turn: the first 12 in the order of their distances from it,
/// and of their numbers where the distances are equal; all where there are no more than 12.
///
/// Want of memory is the only refusal.
pub fn candidates(alloc: Global, map: &Map, at: &Config) -> Result<List<u32>, Memory>
    requires { IsConfig map.now.arm at.now }
    ensures exact { IfOk result (AreCandidates map.now.road at.now) }
{
    let nodes = Vec::from_slice(alloc, nearest(map, at).as_slice())?;
    Ok(List::from_vec(nodes))
}

/// The same nodes, held without memory of their own.
pub(crate) fn nearest(map: &Map, at: &Config) -> Nearest
    requires { IsConfig map.now.arm at.now }
    ensures exact { AreCandidates map.now.road at.now result.items }
{
    let road = map.road();
    let mut nodes = Nearest::new();
    for node in 0..road.nodes() {
        offer(road, at, &mut nodes, node);
    }
    nodes
}

/// Puts the node to its place among the first nodes, of which the last is dropped where there are more than 12.
fn offer(road: &Road, at: &Config, nodes: &mut Nearest, node: u32)
    requires node { node < count_of road.now.nodes }
    requires like { IsLike road.now at.now }
    requires first { AreFirst road.now at.now node nodes.old.items }
    ensures { AreFirst road.now at.now (node + 1) nodes.new.items }
{
    let far = length(at, &road.node(node));
    let place = rank(road, at, nodes.as_slice(), far);
    if place < MAX_CANDIDATES as usize {
        nodes.truncate(MAX_CANDIDATES as usize - 1);
        nodes.insert(place, node);
    }
}

/// How many of the nodes come before one that is `far` from the configuration and has a greater number.
fn rank(road: &Road, at: &Config, nodes: &[u32], far: u64) -> usize
    requires like { IsLike road.now at.now }
    requires in_range { All (λ node. node < count_of road.now.nodes) nodes.now }
    requires sorted { IsByDistance road.now at.now nodes.now }
    ensures within { result ≤ count_of nodes.now }
    ensures near { (k d : ℕ) → k < result → gap road.now at.now (slice_index_or nodes.now k d) ≤ far }
    ensures further { (k d : ℕ) → result ≤ k → k < count_of nodes.now
        → far < gap road.now at.now (slice_index_or nodes.now k d) }
{
    let mut place = nodes.len();
    while place > 0 && far < length(at, &road.node(nodes[place - 1])) {
        place -= 1;
    }
    place
}
