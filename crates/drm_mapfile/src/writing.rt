//! Writing a map file.
ghost use Rattle.std.specs.Prelude.{◌≡◌, ◌++◌, ◌<◌, ◌^◌, flat_map, length, slice_get, Some, ℕ, ℤ, IfOk, OnOk};
ghost use Rattle.drm_arm.specs.Arm.{IsLink};
ghost use Rattle.drm_mapfile.specs.Elements.{IsShort, AreShort};
ghost use Rattle.drm_mapfile.specs.Text.{number, signed, link_text, arm_text, grid_text, node_text, nodes_text, edge_text, edges_text, sweep_text};
ghost use Rattle.drm_mapfile.specs.MapFile.{map_text};

use crate::reading::{MAGIC, VERSION};
use drm_arm::{Arm, Config, Link};
use drm_cellmap::Map;
use drm_grid::Grid;
use drm_outside::Memory;
use drm_road::{Edge, Road};
use std::alloc::Global;

/// The file of the map: its one spelling. Want of memory is the only refusal.
pub fn write(alloc: Global, map: &Map) -> Result<Vec<u8>, Memory>
    ensures { IfOk result (λ bytes. bytes.items ≡ map_text map.now) }
{
    let mut out = Vec::with_capacity(alloc, size(map))?;
    out.extend_from_slice(&MAGIC)?;
    out.extend_from_slice(&VERSION.to_be_bytes())?;
    put_arm(&mut out, map.arm())?;
    put_grid(&mut out, map.grid())?;
    put_nodes(&mut out, map)?;
    put_edges(&mut out, map.road())?;
    put_sweeps(&mut out, map)?;
    Ok(out)
}

/// How many bytes the file has, or somewhat more, so that its bytes are put where they stay.
fn size(map: &Map) -> usize {
    let elements = map.road().nodes() + map.road().edges();
    65_536 + 16 * elements as usize + 2 * map.entries() as usize
}

fn put_arm(out: &mut Vec<u8>, arm: &Arm) -> Result<(), Memory>
    ensures { OnOk result (out.new.items ≡ out.old.items ++ arm_text arm.now) }
{
    out.push(arm.links() as u8)?;
    put_links(out, arm)
}

fn put_links(out: &mut Vec<u8>, arm: &Arm) -> Result<(), Memory>
    ensures { OnOk result (out.new.items ≡ out.old.items ++ flat_map link_text arm.now) }
{
    for k in 0..arm.links() {
        put_link(out, &arm.link(k))?;
    }
    Ok(())
}

fn put_link(out: &mut Vec<u8>, link: &Link) -> Result<(), Memory>
    requires { IsLink link.now }
    ensures { OnOk result (out.new.items ≡ out.old.items ++ link_text link.now) }
{
    out.extend_from_slice(&(link.len as u16).to_be_bytes())?;
    out.extend_from_slice(&(link.radius as u16).to_be_bytes())?;
    put_coordinate(out, link.lo)?;
    put_coordinate(out, link.hi)
}

fn put_coordinate(out: &mut Vec<u8>, value: i32) -> Result<(), Memory>
    requires { IsShort value }
    ensures { OnOk result (out.new.items ≡ out.old.items ++ signed value) }
{
    out.extend_from_slice(&(value as i16).to_be_bytes())?;
    Ok(())
}

fn put_grid(out: &mut Vec<u8>, grid: &Grid) -> Result<(), Memory>
    ensures { OnOk result (out.new.items ≡ out.old.items ++ grid_text grid.now) }
{
    out.extend_from_slice(&(grid.side() as u16).to_be_bytes())?;
    out.push(grid.n() as u8)?;
    Ok(())
}

fn put_nodes(out: &mut Vec<u8>, map: &Map) -> Result<(), Memory>
    ensures { OnOk result (out.new.items ≡ out.old.items ++ nodes_text (map.now.road).nodes) }
{
    out.extend_from_slice(&(map.road().nodes() as u16).to_be_bytes())?;
    put_all_nodes(out, map)
}

fn put_all_nodes(out: &mut Vec<u8>, map: &Map) -> Result<(), Memory>
    ensures { OnOk result (out.new.items ≡ out.old.items ++ flat_map node_text (map.now.road).nodes) }
{
    let road = map.road();
    for i in 0..road.nodes() {
        put_node(out, &road.node(i))?;
    }
    Ok(())
}

fn put_node(out: &mut Vec<u8>, node: &Config) -> Result<(), Memory>
    requires { AreShort node.now }
    ensures { OnOk result (out.new.items ≡ out.old.items ++ node_text node.now) }
{
    for j in 0..node.joints() {
        put_coordinate(out, node.at(j))?;
    }
    Ok(())
}

fn put_edges(out: &mut Vec<u8>, road: &Road) -> Result<(), Memory>
    ensures { OnOk result (out.new.items ≡ out.old.items ++ edges_text road.now.edges) }
{
    out.extend_from_slice(&road.edges().to_be_bytes())?;
    put_all_edges(out, road)
}

fn put_all_edges(out: &mut Vec<u8>, road: &Road) -> Result<(), Memory>
    ensures { OnOk result (out.new.items ≡ out.old.items ++ flat_map edge_text road.now.edges) }
{
    for i in 0..road.edges() {
        put_edge(out, &road.edge(i))?;
    }
    Ok(())
}

fn put_edge(out: &mut Vec<u8>, edge: &Edge) -> Result<(), Memory>
    requires lesser { edge.now.0 < 2 ^ 16 }
    requires greater { edge.now.1 < 2 ^ 16 }
    ensures { OnOk result (out.new.items ≡ out.old.items ++ edge_text edge.now) }
{
    out.extend_from_slice(&(edge.a as u16).to_be_bytes())?;
    out.extend_from_slice(&(edge.b as u16).to_be_bytes())?;
    Ok(())
}

fn put_sweeps(out: &mut Vec<u8>, map: &Map) -> Result<(), Memory>
    ensures { OnOk result (out.new.items ≡ out.old.items ++ flat_map sweep_text map.now.sweeps) }
{
    let road = map.road();
    for place in 0..road.nodes() + road.edges() {
        put_sweep(out, map.stored(road.element(place)))?;
    }
    Ok(())
}

fn put_sweep(out: &mut Vec<u8>, cells: &[u16]) -> Result<(), Memory>
    requires { length cells.now < 2 ^ 16 }
    ensures { OnOk result (out.new.items ≡ out.old.items ++ sweep_text cells.now) }
{
    out.extend_from_slice(&(cells.len() as u16).to_be_bytes())?;
    put_cells(out, cells)
}

fn put_cells(out: &mut Vec<u8>, cells: &[u16]) -> Result<(), Memory>
    ensures { OnOk result (out.new.items ≡ out.old.items ++ flat_map number cells.now) }
{
    for cell in cells {
        out.extend_from_slice(&cell.to_be_bytes())?;
    }
    Ok(())
}
