//! Laws of tallies and snapshots, for those who reason about what is barred, and of the limit on stored cells.

ghost use Rattle.std.specs.Prelude.{◌≡◌};
ghost use Rattle.drm_cellmap.specs.Limits.{max_entries};
ghost use Rattle.drm_cellmap.specs.Laws.{SetsHaveTallies, FoundCellsAreTallied, OpenNodesAreClear, OpenEdgesAreClear};

use crate::map::MAX_ENTRIES;

/// A law: the limit of the code is the one of which the definitions speak, 16,777,216 stored cells.
pub fn limits_are_those_defined()
    ensures { MAX_ENTRIES ≡ max_entries }
{}

/// The law that every list of cells has a tally of those in a set.
pub fn sets_have_tallies()
    ensures { SetsHaveTallies }
{}

/// The law that a tally is above 0 where a cell of the list is in the set.
pub fn found_cells_are_tallied()
    ensures { FoundCellsAreTallied }
{}

/// The law that what is not barred has no occupied cell in its stored sweep.
pub fn open_elements_are_clear()
    ensures nodes { OpenNodesAreClear }
    ensures edges { OpenEdgesAreClear }
{}
