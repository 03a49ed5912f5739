//! How an end of a motion is joined to the roadmap.

ghost use Rattle.std.specs.Prelude.{◌≡◌, ◌<◌, IfOk, MatchOption, length};
ghost use Rattle.drm_arm.specs.Config.{IsConfig};
ghost use Rattle.drm_arm.specs.Motion.{IsMotion};
ghost use Rattle.drm_grid.specs.Layout.{cell_count};
ghost use Rattle.drm_cellmap.specs.Roadmap.{IsRoadmap};
ghost use Rattle.drm_cellmap.specs.Snapshot.{IsSnapOf};
ghost use Rattle.drm_attach.specs.Attached.{joining_motion, IsAttached, IsFree, Refuses};

use crate::nearest::nearest;
use drm_arm::{Config, Motion};
use drm_cellmap::{Map, Snap};
use drm_grid::CellSet;
use drm_outside::{List, Memory};
use drm_sweep::first_meeting_with;
use drm_talk::{End, Tried, Why};
use std::alloc::Global;

/// Which way a joining motion goes.
#[derive(Debug, Clone, Copy, PartialEq, Eq)]
pub enum Way {
    /// From the configuration out to the node.
    Out,
    /// From the node home to the configuration.
    Home,
}

/// What becomes of the attempt to join a configuration to the roadmap.
#[derive(Debug, Drop)]
pub enum Attached {
    /// The node that joins it, and those that were refused before.
    Found(End),
    /// All candidates were refused.
    Nothing(List<Tried>),
}

/// The motion that joins the configuration and the node.
pub fn joining(map: &Map, at: &Config, node: u32, way: Way) -> Motion
    requires config { IsConfig map.now.arm at.now }
    requires node { node < length map.now.road.nodes }
    ensures exact { result ≡ joining_motion map.now.road at.now way node }
    ensures motion { IsMotion map.now.arm result }
    ensures limits { IsRoadmap map.now }
{
    let there = map.road().node(node);
    match way {
        Way::Out => Motion {
            from: *at,
            to: there,
        },
        Way::Home => Motion {
            from: there,
            to: *at,
        },
    }
}

/// Tries the candidates of the configuration in their turn. One is refused where its node is barred, and else where the
/// joining motion sweeps an occupied cell; the first that is not refused joins the configuration to the roadmap.
///
/// The snapshot is one of the map. Want of memory is the only refusal.
pub fn attach(
    alloc: Global,
    map: &Map,
    snap: &Snap,
    at: &Config,
    way: Way,
) -> Result<Attached, Memory>
    requires config { IsConfig map.now.arm at.now }
    requires of_map { IsSnapOf map.now snap.now }
    ensures exact { IfOk result (IsAttached map.now snap.now at.now way) }
{
    let mut left = CellSet::new(alloc, map.grid().cells())?;
    attach_with(alloc, map, snap, at, way, &mut left)
}

/// The same by a set of the grid's size that the caller lends, of which nothing is known afterwards but its size: all
/// joining motions are swept in it.
pub fn attach_with(
    alloc: Global,
    map: &Map,
    snap: &Snap,
    at: &Config,
    way: Way,
    left: &mut CellSet,
) -> Result<Attached, Memory>
    requires config { IsConfig map.now.arm at.now }
    requires of_map { IsSnapOf map.now snap.now }
    requires lent { length left.old ≡ cell_count map.now.grid }
    ensures exact { IfOk result (IsAttached map.now snap.now at.now way) }
    ensures lent { length left.new ≡ length left.old }
{
    let nodes = nearest(map, at);
    let mut tried = Vec::new(alloc);
    for &node in nodes.as_slice() {
        match refusal(map, snap, at, way, node, left) {
            Some(why) => tried.push(Tried { node, why })?,
            None => {
                let tried = List::from_vec(tried);
                return Ok(Attached::Found(End { node, tried }));
            }
        }
    }
    Ok(Attached::Nothing(List::from_vec(tried)))
}

/// Why the node does not join the configuration, or `None` where it does.
fn refusal(
    map: &Map,
    snap: &Snap,
    at: &Config,
    way: Way,
    node: u32,
    left: &mut CellSet,
) -> Option<Why>
    requires config { IsConfig map.now.arm at.now }
    requires of_map { IsSnapOf map.now snap.now }
    requires node { node < length map.now.road.nodes }
    requires lent { length left.old ≡ cell_count map.now.grid }
    ensures why { MatchOption result
        (IsFree map.now snap.now at.now way node) (Refuses map.now snap.now at.now way node) }
    ensures lent { length left.new ≡ length left.old }
{
    if snap.node_barred(node) {
        return Some(Why::Barred);
    }
    let motion = joining(map, at, node, way);
    match first_meeting_with(map.arm(), map.grid(), &motion, 0, snap.occupied(), left) {
        Some(cell) => Some(Why::Cell(cell)),
        None => None,
    }
}
