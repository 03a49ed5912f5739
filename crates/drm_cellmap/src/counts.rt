//! How many cells of each stored sweep are occupied.

ghost use Rattle.std.specs.Prelude.{◌≡◌, ◌^◌, ◌<◌, IfOk, Some, length, slice_get, All};
ghost use Rattle.drm_grid.specs.Layout.{cell_count};
ghost use Rattle.drm_grid.specs.CellSet.{Has};
ghost use Rattle.drm_cellmap.specs.Barred.{AreCounts};
ghost use Rattle.drm_cellmap.specs.Tally.{IsTally};

use crate::Map;
use drm_grid::CellSet;
use drm_outside::Memory;
use std::alloc::Global;
use std::marker::Model;

/// One count for each element of a map, nodes before edges.
#[derive(Debug, Drop)]
pub struct Counts {
    counts: Vec<u32>,
}

impl Model for Counts {
    ghost use Rattle.std.specs.Prelude.{ℕ, List};

    ghost Value = { List ℕ };

    ghost view = { λ counts. counts.counts.items };
}

impl Counts {
    /// Counts the occupied cells of each stored sweep, for a set of the cells of the map's grid. `Memory` where there
    /// is no room for the list of counts.
    pub fn of(alloc: Global, map: &Map, occupied: &CellSet) -> Result<Counts, Memory>
        requires { length occupied.now ≡ cell_count map.now.grid }
        ensures { IfOk result (λ counts. AreCounts map.now (Has occupied.now) counts) }
    {
        let mut counts = Vec::with_capacity(alloc, map.sweeps.as_slice().len())?;
        for sweep in map.sweeps.as_slice() {
            counts.push(tally(sweep.as_slice(), occupied))?;
        }
        Ok(Counts { counts })
    }

    /// The count of the element at this place, as [`Map::index`] numbers them.
    pub fn get(&self, i: u32) -> u32
        requires { i < length self.now }
        ensures { slice_get self.now i ≡ Some result }
    {
        self.counts[i as usize]
    }
}

/// How many of the cells are in the set.
fn tally(cells: &[u16], set: &CellSet) -> u32
    requires in_set { All (λ cell. cell < length set.now) cells.now }
    requires few { length cells.now < 2 ^ 32 }
    ensures { IsTally (Has set.now) cells.now result }
{
    let mut count = 0;
    for &cell in cells {
        if set.has(cell as u32) {
            count += 1;
        }
    }
    count
}
