//! Roadmaps of an arm's configurations: how nodes are drawn, which of them an edge joins, and the roadmap that keeps
//! both.
//!
//! Nodes and edges are numbered from 0. An edge's weight is the distance of its two nodes.
#![tactic(auto)]

ghost use Rattle.std.specs.Prelude.{◌≡◌};
ghost use Rattle.drm_road.specs.Limits.{max_nodes, max_edges, max_draws, max_near};

mod edge;
mod met;
mod pairing;
mod road;
mod sampling;

pub use edge::Edge;
pub use pairing::{MAX_NEAR, pairs};
pub use road::{MAX_EDGES, MAX_NODES, Road, RoadFault};
pub use sampling::{MAX_DRAWS, drawn_nodes_are_configurations, sample};

/// A law: the limits of the code are those of which the definitions speak, at most 2,048 nodes, 32,768 edges and
/// 2,048 draws, and at most 16 nodes to which each is joined.
pub fn limits_are_those_defined()
    ensures nodes { MAX_NODES ≡ max_nodes }
    ensures edges { MAX_EDGES ≡ max_edges }
    ensures draws { MAX_DRAWS ≡ max_draws }
    ensures near { MAX_NEAR ≡ max_near }
{}

#[cfg(test)]
mod tests;
