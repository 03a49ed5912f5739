//! The roadmap: nodes, and edges between them.
ghost use Rattle.std.specs.Prelude.{◌≡◌, ◌⊎◌, ◌↔◌, ℕ, ◌<◌, ◌≤◌, not, List, length as count_of, position, IfOk, MatchResult, IfSome, None, Some, slice_get, slice_index_or};
ghost use Rattle.std.specs.List.{range_with_len};
ghost use Rattle.drm_road.specs.Elements.{element_count, element_at};
ghost use Rattle.drm_road.specs.Road.{HasEnds, IsRoad, IsPart, node_of, weight_of, motion_of};
ghost use Rattle.drm_road.specs.FaultText.{fault_text};
ghost use Rattle.drm_road.specs.RoadFaults.{road_fault, keeps_nodes, keeps_edges, precedes};

use crate::edge::Edge;
use crate::met::is_new;
use drm_arm::{Config, Motion, length};
use drm_outside::{List, Memory};
use drm_talk::Element;
use std::alloc::Global;
use std::collections::HashSet;
use std::error::Error;
use std::fmt;
use std::marker::Model;

/// The greatest number of nodes; the least is 1.
pub const MAX_NODES: usize = 2_048;
/// The greatest number of edges.
pub const MAX_EDGES: usize = 32_768;

/// A roadmap: different configurations with equally many joints, and edges between them in increasing order.
#[derive(Debug, Drop)]
pub struct Road {
    nodes: List<Config>,
    edges: List<Edge>,
}

impl Model for Road {
    ghost use Rattle.drm_road.specs.Road.{Road, IsRoad};

    ghost Value = { Road };

    ghost view = { λ road. record { nodes = road.nodes; edges = road.edges } };

    ghost invariant = { λ road. IsRoad (record { nodes = road.nodes; edges = road.edges }) };
}

/// Why nodes and edges are no roadmap. Where several rules are broken, the first variant counts.
#[derive(Debug, Clone, Copy, PartialEq, Eq)]
pub enum RoadFault {
    /// The number of nodes is not 1 to 2,048: the number.
    Nodes(u64),
    /// A node equals an earlier one, or has another number of joints than node 0: the first such node.
    Node(u32),
    /// The number of edges is over 32,768: the number.
    Edges(u64),
    /// An edge is not from a node to a greater one, or is not greater than the edge before it: the first such edge.
    Edge(u32),
    /// There was no memory for the test.
    Memory,
}

impl fmt::Display for RoadFault {
    ghost output = { λ fault. Some (fault_text fault) };

    fn fmt<W: fmt::Write>(&self, f: &mut fmt::Formatter<W>) -> fmt::Result {
        match *self {
            RoadFault::Nodes(n) => write!(f, "there are {n} nodes, and 1 to 2048 are allowed"),
            RoadFault::Node(i) => write!(
                f,
                "node {i} equals an earlier node, or has another number of joints"
            ),
            RoadFault::Edges(n) => write!(f, "there are {n} edges, and 32768 are allowed at most"),
            RoadFault::Edge(i) => write!(
                f,
                "edge {i} does not lead to a greater node, or does not follow the edge before it"
            ),
            RoadFault::Memory => f.write_str("there was no memory to test the roadmap"),
        }
    }
}

impl Error for RoadFault {}

impl Road {
    /// The roadmap with these nodes and edges, or the first rule that they break. `Memory` may come in place of any
    /// answer.
    #[tactic(auto, using(crate::proofs::RoadLemmas::road_or_not))]
    pub fn new(alloc: Global, nodes: List<Config>, edges: List<Edge>) -> Result<Road, RoadFault>
        ensures fault { MatchResult result (λ _. road_fault nodes edges ≡ None)
            (λ fault. (fault ≡ RoadFault.Memory) ⊎ (road_fault nodes edges ≡ Some fault)) }
        ensures made { IfOk result (λ road. road ≡ record { nodes = nodes; edges = edges }) }
        ensures limits { IfOk result IsRoad }
        ensures valid { (road_fault nodes edges ≡ None) ↔ IsRoad (record { nodes = nodes; edges = edges }) }
    {
        match first_fault(alloc, nodes.as_slice(), edges.as_slice()) {
            Ok(None) => Ok(Road { nodes, edges }),
            Ok(Some(fault)) => Err(fault),
            Err(_) => Err(RoadFault::Memory),
        }
    }

    /// How many nodes there are: 1 to 2,048.
    pub fn nodes(&self) -> u32
        ensures count { result ≡ count_of self.now.nodes }
        ensures limits { IsRoad self.now }
    {
        self.nodes.as_slice().len() as u32
    }

    /// How many edges there are: at most 32,768.
    pub fn edges(&self) -> u32
        ensures count { result ≡ count_of self.now.edges }
        ensures limits { IsRoad self.now }
    {
        self.edges.as_slice().len() as u32
    }

    /// The configuration at the node with this number.
    pub fn node(&self, i: u32) -> Config
        requires { i < count_of self.now.nodes }
        ensures place { slice_get self.now.nodes i ≡ Some result }
        ensures exact { result ≡ node_of self.now i }
    {
        self.nodes.as_slice()[i as usize]
    }

    /// The edge with this number.
    pub fn edge(&self, i: u32) -> Edge
        requires { i < count_of self.now.edges }
        ensures place { slice_get self.now.edges i ≡ Some result }
        ensures ends { (result.0 < result.1) × (result.1 < count_of self.now.nodes) }
        ensures limits { IsRoad self.now }
    {
        self.edges.as_slice()[i as usize]
    }

    /// The weight of the edge with this number: the distance of its two nodes.
    pub fn weight(&self, i: u32) -> u64
        requires { i < count_of self.now.edges }
        ensures { (a b : ℕ) → HasEnds self.now i a b → result ≡ weight_of self.now a b }
    {
        let Edge { a, b } = self.edge(i);
        length(&self.node(a), &self.node(b))
    }

    /// The element at a place among all: the nodes come first, and then the edges.
    pub fn element(&self, place: u32) -> Element
        requires { place < element_count self.now }
        ensures exact { result ≡ element_at self.now place }
        ensures part { IsPart self.now result }
        ensures limits { IsRoad self.now }
    {
        let nodes = self.nodes();
        if place < nodes {
            Element::Node(place)
        } else {
            Element::Edge(place - nodes)
        }
    }

    /// The motion of an element: of a node from it to itself, of an edge from its lesser node to its greater one.
    pub fn motion(&self, e: Element) -> Motion
        requires { IsPart self.now e }
        ensures { result ≡ motion_of self.now e }
    {
        match e {
            Element::Node(i) => Motion {
                from: self.node(i),
                to: self.node(i),
            },
            Element::Edge(i) => {
                let Edge { a, b } = self.edge(i);
                Motion {
                    from: self.node(a),
                    to: self.node(b),
                }
            }
        }
    }
}

fn first_fault(alloc: Global, nodes: &[Config], edges: &[Edge]) -> Result<Option<RoadFault>, Memory>
    ensures { IfOk result (λ fault. fault ≡ road_fault nodes.now edges.now) }
{
    if nodes.is_empty() || MAX_NODES < nodes.len() {
        return Ok(Some(RoadFault::Nodes(nodes.len() as u64)));
    }
    if let Some(i) = first_bad_node(alloc, nodes)? {
        return Ok(Some(RoadFault::Node(i as u32)));
    }
    if MAX_EDGES < edges.len() {
        return Ok(Some(RoadFault::Edges(edges.len() as u64)));
    }
    Ok(first_bad_edge(nodes.len() as u32, edges).map(|i| RoadFault::Edge(i as u32)))
}

fn first_bad_node(alloc: Global, nodes: &[Config]) -> Result<Option<usize>, Memory>
    requires { 1 ≤ count_of nodes.now }
    ensures place { IfOk result
        (λ place. place ≡ position (λ i. not (keeps_nodes nodes.now i)) (range_with_len 0 (count_of nodes.now))) }
    ensures bound { IfOk result (λ place. IfSome place (λ i. i < count_of nodes.now)) }
{
    let mut met = HashSet::new(alloc);
    let joints = nodes[0].joints();
    for (i, node) in nodes.iter().enumerate() {
        if node.joints() != joints {
            return Ok(Some(i));
        }
        if !is_new(&mut met, node)? {
            return Ok(Some(i));
        }
    }
    Ok(None)
}

fn first_bad_edge(nodes: u32, edges: &[Edge]) -> Option<usize>
    ensures place { result
        ≡ position (λ i. not (keeps_edges nodes edges.now i)) (range_with_len 0 (count_of edges.now)) }
    ensures bound { IfSome result (λ i. i < count_of edges.now) }
{
    for i in 0..edges.len() {
        if !keeps(nodes, edges, i) {
            return Some(i);
        }
    }
    None
}

fn keeps(nodes: u32, edges: &[Edge], i: usize) -> bool
    requires { i < count_of edges.now }
    ensures { result ≡ keeps_edges nodes edges.now i }
{
    let edge = &edges[i];
    edge.a < edge.b && edge.b < nodes && (i == 0 || precedes(&edges[i - 1], edge))
}

fn precedes(first: &Edge, second: &Edge) -> bool
    ensures { result ≡ precedes first.now second.now }
{
    first.a < second.a || (first.a == second.a && first.b < second.b)
}
