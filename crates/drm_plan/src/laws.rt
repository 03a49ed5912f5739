//! What right answers to asks are worth. Each law calls the laws of the layers below that it rests on.

ghost use Rattle.drm_plan.specs.AskLaws.{PlansAreRight, PlansAreDetermined, PlannedAnswersAreDetermined, RightPathsAreUntouched, RightAnswersAreTruthful, PassedMapsAreNeverUnsound};

use drm_after::snaps_are_determined;
use drm_attach::attachments_are_determined;
use drm_cellmap::open_elements_are_clear;
use drm_cert::paths_are_shortest;
use drm_foot::holds_are_in_foot;
use drm_route::{found_is_certified, found_is_determined};
use drm_sweep::{near_cells_are_swept, reached_points_are_in_cells, swept_cells_are_near};

/// The law that the plan is right: what it tells is certified, and no leg that it passes by sweeps an occupied cell.
pub fn plans_are_right()
    ensures { PlansAreRight }
{
    found_is_certified();
}

/// The law that an ask has one plan: over a snapshot, and after a history.
pub fn plans_are_determined()
    ensures over { PlansAreDetermined }
    ensures after { PlannedAnswersAreDetermined }
{
    attachments_are_determined();
    found_is_determined();
    snaps_are_determined();
}

/// The law that the motions of a right path touch no shape whose footprint lies in the occupied cells, at any rational
/// moment.
pub fn right_paths_are_untouched()
    ensures { RightPathsAreUntouched }
{
    reached_points_are_in_cells();
    near_cells_are_swept();
    holds_are_in_foot();
}

/// The law that right answers are truthful: what they tell is true of the obstacles themselves. A motion that sweeps no
/// occupied cell touches no obstacle at any rational moment, since each point that the arm reaches lies in a cell.
pub fn right_answers_are_truthful()
    ensures { RightAnswersAreTruthful }
{
    reached_points_are_in_cells();
    near_cells_are_swept();
    swept_cells_are_near();
    holds_are_in_foot();
    open_elements_are_clear();
    paths_are_shortest();
}

/// The law that over a map whose stored sweeps pass, no right answer tells of an unsound edge.
pub fn passed_maps_are_never_unsound()
    ensures { PassedMapsAreNeverUnsound }
{
    open_elements_are_clear();
}
