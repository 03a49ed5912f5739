//! A set of cells, and how many it has.

ghost use Rattle.std.specs.Prelude.{◌≡◌, IfOk};
ghost use Rattle.drm_grid.specs.CellSet.{AreCells};
ghost use Rattle.drm_build.specs.Sets.{HasCells};

use drm_grid::CellSet;
use drm_outside::{List, Memory};
use std::alloc::Global;
use std::marker::Model;

/// A set whose cells were counted, which contracts see as the set.
#[derive(Drop)]
pub(crate) struct Counted {
    set: CellSet,
    cells: u64,
}

impl Model for Counted {
    ghost use Rattle.std.specs.Prelude.{List, Bool};

    ghost Value = { List Bool };

    ghost use Rattle.drm_build.specs.Sets.{HasCells};

    ghost view = { λ counted. counted.set };

    ghost invariant = { λ counted. HasCells counted.set counted.cells };
}

impl Counted {
    /// The set, with its cells counted.
    pub(crate) fn new(alloc: Global, set: CellSet) -> Result<Counted, Memory>
        ensures { IfOk result (λ counted. counted ≡ set) }
    {
        let cells = set.to_list(alloc)?.as_slice().len() as u64;
        Ok(Counted { set, cells })
    }

    /// How many cells the set has.
    pub(crate) fn cells(&self) -> u64
        ensures { HasCells self.now result }
    {
        self.cells
    }

    /// The cells of the set, in increasing order.
    pub(crate) fn to_list(&self, alloc: Global) -> Result<List<u16>, Memory>
        ensures { IfOk result (AreCells self.now) }
    {
        self.set.to_list(alloc)
    }
}
