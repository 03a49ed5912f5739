//! Snapshots of the occupied cells and of what they bar.

ghost use Rattle.std.specs.Prelude.{◌≡◌, ◌<◌, ◌≤◌, ◌↔◌, ◌⊎◌, IfOk, IsTrue, ◌^◌, length, slice_index};
ghost use Rattle.std.specs.List.{range_with_len};
ghost use Rattle.drm_grid.specs.Layout.{cell_count};
ghost use Rattle.drm_grid.specs.CellSet.{Has};
ghost use Rattle.drm_road.specs.Elements.{node_count, edge_count};
ghost use Rattle.drm_cellmap.specs.Roadmap.{Roadmap, IsRoadmap};
ghost use Rattle.drm_cellmap.specs.Barred.{AreCounts, AreTotals};
ghost use Rattle.drm_cellmap.specs.Snapshot.{IsSnapOf, AreFlags, IsEdgeMet};
ghost use Rattle.drm_cellmap.specs.Tally.{IsTally};

use crate::{Counts, Map};
use drm_grid::CellSet;
use drm_outside::Memory;
use drm_road::Edge;
use drm_talk::Element;
use std::alloc::Global;
use std::marker::Model;

/// The occupied cells after a number of edits, and the nodes and edges that they bar.
#[derive(Debug, Drop)]
pub struct Snap {
    number: u32,
    occupied: CellSet,
    nodes: Vec<bool>,
    edges: Vec<bool>,
}

impl Model for Snap {
    ghost use Rattle.drm_cellmap.specs.Snapshot.{Snapshot, HasFewFlags, of_flags};

    ghost Value = { Snapshot };

    ghost view = { λ snap. of_flags snap.number snap.occupied snap.nodes.items snap.edges.items };

    ghost invariant = { λ snap. HasFewFlags (of_flags snap.number snap.occupied snap.nodes.items snap.edges.items) };
}

impl Snap {
    /// The snapshot of a map after `number` accepted edits, with these occupied cells, which were counted before.
    /// `Memory` where there is no room for the flags of the nodes and edges; the set is dropped then.
    pub fn of(
        alloc: Global,
        map: &Map,
        number: u32,
        occupied: CellSet,
        counts: &Counts,
    ) -> Result<Snap, Memory>
        requires cells { length occupied ≡ cell_count map.now.grid }
        requires counts { AreCounts map.now (Has occupied) counts.now }
        ensures number { IfOk result (λ snap. snap.number ≡ number) }
        ensures occupied { IfOk result (λ snap. snap.occupied ≡ occupied) }
        ensures barred { IfOk result (λ snap. IsSnapOf map.now snap) }
    {
        let nodes = barred_nodes(alloc, map, counts)?;
        let edges = barred_edges(alloc, map, counts, &nodes)?;
        Ok(Snap {
            number,
            occupied,
            nodes,
            edges,
        })
    }

    /// How many edits had been accepted.
    pub fn number(&self) -> u32
        ensures { result ≡ self.now.number }
    {
        self.number
    }

    /// The occupied cells.
    pub fn occupied(&self) -> &CellSet
        ensures { result.now ≡ self.now.occupied }
    {
        &self.occupied
    }

    /// Says whether a node is barred: whether a cell of its stored sweep is occupied.
    pub fn node_barred(&self, i: u32) -> bool
        requires { i < length self.now.nodes }
        ensures { IsTrue result ↔ Has self.now.nodes i }
    {
        self.nodes[i as usize]
    }

    /// Says whether an edge is barred: whether a cell of its own stored sweep, or of that of one of its ends, is
    /// occupied.
    pub fn edge_barred(&self, i: u32) -> bool
        requires { i < length self.now.edges }
        ensures { IsTrue result ↔ Has self.now.edges i }
    {
        self.edges[i as usize]
    }

    /// How many nodes and how many edges are barred.
    pub fn totals(&self) -> (u32, u32)
        ensures { (map : Roadmap) → IsSnapOf map self.now → AreTotals map (Has self.now.occupied) result.0 result.1 }
    {
        (raised(&self.nodes), raised(&self.edges))
    }
}

/// For each node, whether its count is not 0.
fn barred_nodes(alloc: Global, map: &Map, counts: &Counts) -> Result<Vec<bool>, Memory>
    requires { length counts.now ≡ length map.now.sweeps }
    ensures flags { IfOk result
        (λ flags. AreFlags (node_count map.now.road) (λ i. 0 < slice_index counts.now i) flags.items) }
    ensures limits { IsRoadmap map.now }
{
    let count = map.road.nodes();
    let mut flags = Vec::with_capacity(alloc, count as usize)?;
    for i in 0..count {
        flags.push(counts.get(i) != 0)?;
    }
    Ok(flags)
}

/// For each edge, whether its count is not 0 or one of its ends is barred.
fn barred_edges(
    alloc: Global,
    map: &Map,
    counts: &Counts,
    nodes: &[bool],
) -> Result<Vec<bool>, Memory>
    requires counts { length counts.now ≡ length map.now.sweeps }
    requires nodes { length nodes.now ≡ node_count map.now.road }
    ensures { IfOk result
        (λ flags. AreFlags (edge_count map.now.road) (IsEdgeMet map.now counts.now nodes.now) flags.items) }
{
    let count = map.road.edges();
    let mut flags = Vec::with_capacity(alloc, count as usize)?;
    for i in 0..count {
        flags.push(edge_met(map, counts, nodes, i))?;
    }
    Ok(flags)
}

/// Says whether the edge's count is not 0 or one of its ends is barred.
fn edge_met(map: &Map, counts: &Counts, nodes: &[bool], i: u32) -> bool
    requires counts { length counts.now ≡ length map.now.sweeps }
    requires nodes { length nodes.now ≡ node_count map.now.road }
    requires edge { i < edge_count map.now.road }
    ensures { IsTrue result ↔ IsEdgeMet map.now counts.now nodes.now i }
{
    let Edge { a, b } = map.road.edge(i);
    is_any_raised(counts, map.place(Element::Edge(i)), nodes, a, b)
}

/// Says whether the count at the place is not 0 or one of two nodes is barred.
fn is_any_raised(counts: &Counts, place: u32, nodes: &[bool], a: u32, b: u32) -> bool
    requires place { place < length counts.now }
    requires first { a < length nodes.now }
    requires second { b < length nodes.now }
    ensures { IsTrue result ↔ ((0 < slice_index counts.now place) ⊎ (Has nodes.now a ⊎ Has nodes.now b)) }
{
    counts.get(place) != 0 || nodes[a as usize] || nodes[b as usize]
}

/// How many flags are raised.
fn raised(flags: &[bool]) -> u32
    requires { length flags.now < 2 ^ 32 }
    ensures { IsTally (Has flags.now) (range_with_len 0 (length flags.now)) result }
{
    let mut count = 0;
    for &flag in flags {
        if flag {
            count += 1;
        }
    }
    count
}
