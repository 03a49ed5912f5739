//! Checking that the stored sweeps of a map are those of its arm.
ghost use Rattle.std.specs.Prelude.{◌≡◌, ◌↔◌, ℕ, length, Contains, IfOk};
ghost use Rattle.drm_grid.specs.CellSet.{Has};
ghost use Rattle.drm_grid.specs.Layout.{cell_count};
ghost use Rattle.drm_cellmap.specs.Roadmap.{IsElement, IsSweep};
ghost use Rattle.drm_mapfile.specs.Verdict.{IsStoredSet, FindsLacking, FindsTooMuch, Judges, IsVerdict};

use drm_cellmap::Map;
use drm_grid::{CellSet, Grid};
use drm_outside::Memory;
use drm_sweep::{first_meeting, take_swept};
use drm_talk::Element;
use std::alloc::Global;

/// What a check of the stored sweeps finds.
#[derive(Debug, Clone, Copy, PartialEq, Eq)]
pub enum MapVerdict {
    /// Each stored sweep has every cell that is swept without a pad, and only cells that are swept with half of a
    /// cell's side as pad.
    Passed,
    /// The first element at fault, and the least cell that is swept without a pad and not stored.
    Lacks(Element, u32),
    /// The first element at fault, which lacks no cell, and the least stored cell that is not swept with half of a
    /// cell's side as pad.
    Loose(Element, u32),
}

/// Says whether the stored sweep of each element passes, or which element is the first that does not, nodes before
/// edges, and its least cell. Want of memory is the only refusal.
pub fn check(alloc: Global, map: &Map) -> Result<MapVerdict, Memory>
    ensures { IfOk result (IsVerdict map.now) }
{
    let road = map.road();
    for place in 0..road.nodes() + road.edges() {
        match judge(alloc, map, road.element(place))? {
            MapVerdict::Passed => {}
            verdict => return Ok(verdict),
        }
    }
    Ok(MapVerdict::Passed)
}

/// What is found of one element.
fn judge(alloc: Global, map: &Map, e: Element) -> Result<MapVerdict, Memory>
    requires { IsElement map.now e }
    ensures { IfOk result (Judges map.now e) }
{
    let stored = stored_set(alloc, map, e)?;
    if let Some(cell) = first_lacking(alloc, map, e, &stored)? {
        return Ok(MapVerdict::Lacks(e, cell));
    }
    if let Some(cell) = first_loose(map, e, stored) {
        return Ok(MapVerdict::Loose(e, cell));
    }
    Ok(MapVerdict::Passed)
}

/// The stored cells of an element as a set.
fn stored_set(alloc: Global, map: &Map, e: Element) -> Result<CellSet, Memory>
    requires { IsElement map.now e }
    ensures size { IfOk result (λ set. length set ≡ cell_count map.now.grid) }
    ensures exact { IfOk result (IsStoredSet map.now e) }
{
    set_of(alloc, map.grid(), map.stored(e))
}

fn set_of(alloc: Global, grid: &Grid, cells: &[u16]) -> Result<CellSet, Memory>
    requires { IsSweep grid.now cells.now }
    ensures size { IfOk result (λ set. length set ≡ cell_count grid.now) }
    ensures exact { IfOk result (λ set. (cell : ℕ) → Has set cell ↔ Contains cells.now cell) }
{
    let mut set = CellSet::new(alloc, grid.cells())?;
    for cell in cells {
        set.insert(u32::from(*cell));
    }
    Ok(set)
}

/// The least cell that is swept without a pad and not stored.
fn first_lacking(
    alloc: Global,
    map: &Map,
    e: Element,
    stored: &CellSet,
) -> Result<Option<u32>, Memory>
    requires element { IsElement map.now e }
    requires size { length stored.now ≡ cell_count map.now.grid }
    requires exact { IsStoredSet map.now e stored.now }
    ensures { IfOk result (FindsLacking map.now e) }
{
    let mut missing = CellSet::full(alloc, map.grid().cells())?;
    missing.remove_all(stored);
    let motion = map.road().motion(e);
    first_meeting(alloc, map.arm(), map.grid(), &motion, 0, &missing)
}

/// The least stored cell that is not swept with half of a cell's side as pad.
fn first_loose(map: &Map, e: Element, mut stored: CellSet) -> Option<u32>
    requires element { IsElement map.now e }
    requires size { length stored ≡ cell_count map.now.grid }
    requires exact { IsStoredSet map.now e stored }
    ensures { FindsTooMuch map.now e result }
{
    let motion = map.road().motion(e);
    let pad = map.grid().side() / 2;
    take_swept(map.arm(), map.grid(), &motion, pad, &mut stored);
    stored.next_in(0, stored.size())
}
