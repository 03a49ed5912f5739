//! The rules of maps, in the order in which they are tested.

ghost use Rattle.std.specs.Prelude.{◌≡◌, ◌<◌, ◌≤◌, ◌^◌, IfSome, None, length, All, not, position};
ghost use Rattle.std.specs.List.{list_all, zip};
ghost use Rattle.drm_arm.specs.Arm.{IsArm};
ghost use Rattle.drm_arm.specs.Config.{allows};
ghost use Rattle.drm_road.specs.Elements.{node_count, element_count};
ghost use Rattle.drm_cellmap.specs.Roadmap.{entries_of, of_parts};
ghost use Rattle.drm_cellmap.specs.MapFaults.{map_fault, is_config, is_sweep, AreParts};

use crate::map::{MAX_ENTRIES, MapFault};
use drm_arm::{Arm, Config, Link};
use drm_grid::Grid;
use drm_outside::List;
use drm_road::Road;

/// The first rule that the parts of a map break, or none.
pub(crate) fn first_fault(
    arm: &Arm,
    grid: &Grid,
    road: &Road,
    sweeps: &[List<u16>],
) -> Option<MapFault>
    ensures first { result ≡ map_fault (of_parts arm.now grid.now road.now sweeps.now) }
    ensures parts { (result ≡ None) → AreParts (of_parts arm.now grid.now road.now sweeps.now) }
{
    if !grid.fits(arm) {
        return Some(MapFault::Fit);
    }
    if let Some(i) = first_bad_node(arm, road) {
        return Some(MapFault::Node(i));
    }
    if sweeps.len() as u64 != u64::from(road.nodes()) + u64::from(road.edges()) {
        return Some(MapFault::Sweeps(sweeps.len() as u64));
    }
    if let Some(i) = first_bad_sweep(grid.cells(), sweeps) {
        return Some(MapFault::Order(i as u32));
    }
    let total = entries(sweeps);
    if MAX_ENTRIES < total {
        return Some(MapFault::Total(total));
    }
    None
}

/// The first node that is no configuration of the arm.
fn first_bad_node(arm: &Arm, road: &Road) -> Option<u32>
    ensures first { result ≡ position (λ node. not (is_config arm.now node)) road.now.nodes }
    ensures limits { IsArm arm.now }
{
    let joints = arm.links();
    for i in 0..road.nodes() {
        let node = road.node(i);
        if node.joints() != joints || !is_within(arm, &node) {
            return Some(i);
        }
    }
    None
}

/// Says whether each joint stands within its limits.
fn is_within(arm: &Arm, node: &Config) -> bool
    requires { length arm.now ≡ length node.now }
    ensures { result ≡ list_all (λ pair. allows pair.0 pair.1) (zip arm.now node.now) }
{
    for j in 0..arm.links() {
        if !allows(&arm.link(j), node.at(j)) {
            return false;
        }
    }
    true
}

/// Says whether the joint of the link may stand at the coordinate.
fn allows(link: &Link, at: i32) -> bool
    ensures { result ≡ allows link.now at }
{
    link.lo <= at && at <= link.hi
}

/// The first list whose cells do not rise, or are not all below `count`.
fn first_bad_sweep(count: u32, sweeps: &[List<u16>]) -> Option<usize>
    ensures place { result ≡ position (λ cells. not (is_sweep count cells)) sweeps.now }
    ensures bound { IfSome result (λ i. i < length sweeps.now) }
{
    sweeps
        .iter()
        .position(|cells| !is_sweep(count, cells.as_slice()))
}

/// Says whether the cells rise and are all below `count`.
fn is_sweep(count: u32, cells: &[u16]) -> bool
    ensures { result ≡ is_sweep count cells.now }
{
    let mut least = 0;
    for &cell in cells {
        if u32::from(cell) < least || count <= u32::from(cell) {
            return false;
        }
        least = u32::from(cell) + 1;
    }
    true
}

/// How many cells the lists have together.
pub(crate) fn entries(sweeps: &[List<u16>]) -> u64
    requires few { length sweeps.now < 2 ^ 32 }
    requires short { All (λ cells. length cells ≤ 65536) sweeps.now }
    ensures { result ≡ entries_of sweeps.now }
{
    let mut total = 0;
    for cells in sweeps {
        total += cells.as_slice().len() as u64;
    }
    total
}
