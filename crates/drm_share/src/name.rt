//! The name of a planner.

use drm_history::Naming;
use std::marker::Brand;
use std::sync::ledger::Ledger;

/// Which planner it is. Each call that opens one picks its name, at the marker type `Brand`.
///
/// It tells the book of the planner's history (`book` of [`Naming`]), its map, and the number of its callers, which is the
/// number of parts of its ledger (`parts` of [`Ledger`]).
pub trait PlannerName: Ledger + Naming {
    ghost use Rattle.drm_cellmap.specs.Roadmap.{Roadmap};

    ghost map: { Roadmap };
}

impl PlannerName for Brand {
    ghost use Rattle.drm_cellmap.specs.Sample.{sample};

    ghost map = { sample };
}
