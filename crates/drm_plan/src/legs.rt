//! The edges of a route, and the first of them that sweeps an occupied cell.

ghost use Rattle.std.specs.Prelude.{◌≡◌, ◌+◌, ◌<◌, ℕ, MatchOption, length};
ghost use Rattle.drm_grid.specs.CellSet.{IsLeast};
ghost use Rattle.drm_grid.specs.Layout.{cell_count};
ghost use Rattle.drm_road.specs.Road.{IsRoad};
ghost use Rattle.drm_cellmap.specs.Elements.{edge_count, HasEnds};
ghost use Rattle.drm_cellmap.specs.Snapshot.{Snapshot, IsSnapOf};
ghost use Rattle.drm_plan.specs.Legs.{IsLeg, HasLegs, EdgeMeets, AreClear, IsFirstMet};

use drm_cellmap::{Map, Snap};
use drm_grid::CellSet;
use drm_road::{Edge, Road};
use drm_sweep::first_meeting_with;
use drm_talk::Element;

/// An edge, and the least occupied cell that it sweeps.
#[derive(Debug, Clone, Copy)]
pub(crate) struct Met {
    pub(crate) edge: u32,
    pub(crate) cell: u32,
}

/// The first edge of the route that sweeps an occupied cell, with the least such cell, or none. The edges are swept in a set
/// of the grid's size that the caller lends.
pub(crate) fn first_met(map: &Map, snap: &Snap, nodes: &[u32], left: &mut CellSet) -> Option<Met>
    requires of_map { IsSnapOf map.now snap.now }
    requires legs { HasLegs map.now.road snap.now nodes.now }
    requires lent { length left.old ≡ cell_count map.now.grid }
    ensures { MatchOption result (AreClear map.now snap.now nodes.now)
        (λ met. IsFirstMet map.now snap.now nodes.now met.edge met.cell) }
{
    for k in 0..nodes.len().saturating_sub(1) {
        let edge = leg(map.road(), nodes, k);
        match edge_meeting(map, snap, edge, left) {
            Some(cell) => return Some(Met { edge, cell }),
            None => {}
        }
    }
    None
}

/// The least occupied cell that the motion of the edge sweeps, or none.
fn edge_meeting(map: &Map, snap: &Snap, edge: u32, left: &mut CellSet) -> Option<u32>
    requires of_map { IsSnapOf map.now snap.now }
    requires edge { edge < edge_count map.now.road }
    requires lent { length left.old ≡ cell_count map.now.grid }
    ensures least { IsLeast (EdgeMeets map.now snap.now edge) result }
    ensures lent { length left.new ≡ length left.old }
{
    let motion = map.road().motion(Element::Edge(edge));
    first_meeting_with(map.arm(), map.grid(), &motion, 0, snap.occupied(), left)
}

/// The edge that joins node k of the route and the next one.
fn leg(road: &Road, nodes: &[u32], k: usize) -> u32
    requires limits { IsRoad road.now }
    requires next { k + 1 < length nodes.now }
    requires there { (snap : Snapshot) × (edge : ℕ) × IsLeg road.now snap nodes.now k edge }
    ensures { (snap : Snapshot) (edge : ℕ) → IsLeg road.now snap nodes.now k edge → edge ≡ result }
{
    let u = nodes[k];
    let v = nodes[k + 1];
    edge_between(road, u.min(v), u.max(v))
}

/// The number of the edge between the two nodes, of which there is one.
fn edge_between(road: &Road, a: u32, b: u32) -> u32
    requires limits { IsRoad road.now }
    requires there { (edge : ℕ) × HasEnds road.now edge a b }
    ensures { (edge : ℕ) → HasEnds road.now edge a b → edge ≡ result }
{
    let sought = Edge { a, b };
    let mut low = 0;
    let mut high = road.edges();
    while high - low > 1 {
        let middle = low + (high - low) / 2;
        let Edge {
            a: lesser,
            b: greater,
        } = road.edge(middle);
        if sought.precedes(lesser, greater) {
            high = middle;
        } else {
            low = middle;
        }
    }
    low
}
