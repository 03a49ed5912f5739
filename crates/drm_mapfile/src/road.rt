// The nodes and edges.
ghost use Rattle.std.specs.Prelude.{◌≡◌, ◌≤◌, [], length, IfOk};
ghost use Rattle.drm_arm.specs.Config.{allows, IsConfig};
ghost use Rattle.drm_road.specs.Limits.{max_nodes};
ghost use Rattle.drm_mapfile.specs.Fields.{Gives, signed_field, many};
ghost use Rattle.drm_mapfile.specs.Reading.{coordinates_at, node_at, nodes_at, edge_at, last_edge, edges_at, road_at};

use crate::fault::FileFault;
use crate::fields::{coordinate_at, field, u16_at, u32_at};
use drm_arm::{Arm, Config, Link};
use drm_outside::List;
use drm_road::{Edge, MAX_EDGES, MAX_NODES, Road};
use std::alloc::Global;

/// The road at the front of the bytes, and the bytes behind it.
#[tactic(auto, unfolding(crate::specs::Reading::road_at))]
pub fn take_road<'a>(
    alloc: Global,
    total: usize,
    arm: &Arm,
    bytes: &'a [u8],
) -> Result<(Road, &'a [u8]), FileFault>
    ensures { Gives (λ x. (x.0, x.1.now)) result (road_at total arm.now bytes.now) }
{
    let (nodes, rest) = take_nodes(alloc, total, arm, bytes)?;
    let (edges, rest) = take_edges(alloc, total, nodes.len() as u32, rest)?;
    match Road::new(alloc, List::from_vec(nodes), List::from_vec(edges)) {
        Ok(road) => Ok((road, rest)),
        // Each rule of roads was tested where its field stands, so this is want of memory.
        Err(_) => Err(FileFault::Memory),
    }
}

/// The nodes at the front of the bytes, and the bytes behind them.
#[tactic(auto, unfolding(crate::specs::Reading::nodes_at))]
fn take_nodes<'a>(
    alloc: Global,
    total: usize,
    arm: &Arm,
    bytes: &'a [u8],
) -> Result<(Vec<Config>, &'a [u8]), FileFault>
    ensures exact { Gives (λ x. (x.0.items, x.1.now)) result (nodes_at total arm.now bytes.now) }
    ensures few { IfOk result (λ x. length x.0.items ≤ max_nodes) }
{
    let (count, rest) = u16_at(total, bytes)?;
    if count < 1 || MAX_NODES < count as usize {
        return Err(field(total, bytes));
    }
    take_all_nodes(alloc, total, arm, count, rest)
}

fn take_all_nodes<'a>(
    alloc: Global,
    total: usize,
    arm: &Arm,
    count: u16,
    bytes: &'a [u8],
) -> Result<(Vec<Config>, &'a [u8]), FileFault>
    ensures exact { Gives (λ x. (x.0.items, x.1.now)) result (many (node_at total arm.now) count [] bytes.now) }
    ensures counted { IfOk result (λ x. length x.0.items ≡ count) }
{
    let mut nodes = Vec::new(alloc);
    let mut rest = bytes;
    for _ in 0..count {
        let (values, after) = take_node(alloc, total, arm, &nodes, rest)?;
        let node = config_of(arm, values.as_slice());
        nodes.push(node)?;
        rest = after;
    }
    Ok((nodes, rest))
}

/// The coordinates of a node that differs from those before it.
#[tactic(auto, unfolding(crate::specs::Reading::node_at))]
fn take_node<'a>(
    alloc: Global,
    total: usize,
    arm: &Arm,
    before: &[Config],
    bytes: &'a [u8],
) -> Result<(Vec<i32>, &'a [u8]), FileFault>
    ensures exact { Gives (λ x. (x.0.items, x.1.now)) result (node_at total arm.now before.now bytes.now) }
    ensures config { IfOk result (λ x. IsConfig arm.now x.0.items) }
{
    let (values, rest) = take_coordinates(alloc, total, arm, bytes)?;
    let node = config_of(arm, values.as_slice());
    if before.contains(&node) {
        return Err(field(total, bytes));
    }
    Ok((values, rest))
}

/// The configuration with these coordinates, which are within the limits of the arm's joints.
fn config_of(arm: &Arm, values: &[i32]) -> Config
    requires { IsConfig arm.now values.now }
    ensures { result ≡ values.now }
{
    match arm.config(values) {
        Ok(node) => node,
        Err(_) => unreachable!(),
    }
}

/// A coordinate for each joint, within its limits.
fn take_coordinates<'a>(
    alloc: Global,
    total: usize,
    arm: &Arm,
    bytes: &'a [u8],
) -> Result<(Vec<i32>, &'a [u8]), FileFault>
    ensures exact { Gives (λ x. (x.0.items, x.1.now)) result (coordinates_at total arm.now bytes.now) }
    ensures config { IfOk result (λ x. IsConfig arm.now x.0.items) }
{
    let mut values = Vec::new(alloc);
    let mut rest = bytes;
    for j in 0..arm.links() {
        let (value, after) = take_coordinate(total, &arm.link(j), rest)?;
        values.push(value)?;
        rest = after;
    }
    Ok((values, rest))
}

/// A coordinate within the limits of the link's joint.
fn take_coordinate<'a>(
    total: usize,
    link: &Link,
    bytes: &'a [u8],
) -> Result<(i32, &'a [u8]), FileFault>
    ensures { Gives (λ x. (x.0, x.1.now)) result (signed_field total (allows link.now) bytes.now) }
{
    let (value, rest) = coordinate_at(total, bytes)?;
    if value < link.lo || link.hi < value {
        return Err(field(total, bytes));
    }
    Ok((value, rest))
}

/// The edges at the front of the bytes between so many nodes, and the bytes behind them.
#[tactic(auto, unfolding(crate::specs::Reading::edges_at))]
fn take_edges(
    alloc: Global,
    total: usize,
    nodes: u32,
    bytes: &[u8],
) -> Result<(Vec<Edge>, &[u8]), FileFault>
    ensures { Gives (λ x. (x.0.items, x.1.now)) result (edges_at total nodes bytes.now) }
{
    let (count, rest) = u32_at(total, bytes)?;
    if MAX_EDGES < count as usize {
        return Err(field(total, bytes));
    }
    take_all_edges(alloc, total, nodes, count, rest)
}

fn take_all_edges(
    alloc: Global,
    total: usize,
    nodes: u32,
    count: u32,
    bytes: &[u8],
) -> Result<(Vec<Edge>, &[u8]), FileFault>
    ensures { Gives (λ x. (x.0.items, x.1.now)) result
        (many (λ front. edge_at total nodes (last_edge front)) count [] bytes.now) }
{
    let mut edges = Vec::new(alloc);
    let mut last = Edge { a: 0, b: 0 };
    let mut rest = bytes;
    for _ in 0..count {
        let ((a, b), after) = take_edge(total, nodes, &last, rest)?;
        last = Edge { a, b };
        edges.push(last)?;
        rest = after;
    }
    Ok((edges, rest))
}

/// The two nodes of an edge that comes after the one before it.
#[tactic(auto, unfolding(crate::specs::Reading::edge_at))]
fn take_edge<'a>(
    total: usize,
    nodes: u32,
    before: &Edge,
    bytes: &'a [u8],
) -> Result<((u32, u32), &'a [u8]), FileFault>
    ensures { Gives (λ x. (x.0, x.1.now)) result (edge_at total nodes before.now bytes.now) }
{
    let (a, at_b) = u16_at(total, bytes)?;
    let a = u32::from(a);
    if nodes <= a || a < before.a {
        return Err(field(total, bytes));
    }
    let (b, rest) = u16_at(total, at_b)?;
    let b = u32::from(b);
    if b <= a || nodes <= b || (a <= before.a && b <= before.b) {
        return Err(field(total, at_b));
    }
    Ok(((a, b), rest))
}
