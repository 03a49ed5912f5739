//! The planner's answer to an ask.

ghost use Rattle.std.specs.Prelude.{IfOk};
ghost use Rattle.drm_arm.specs.Config.{IsConfig};
ghost use Rattle.drm_sweep.specs.Laws.{IsPassed};
ghost use Rattle.drm_cellmap.specs.Roadmap.{IsRoadmap, EachStored};
ghost use Rattle.drm_cellmap.specs.Snapshot.{IsSnapOf};
ghost use Rattle.drm_plan.specs.Plan.{IsPlan};
ghost use Rattle.drm_plan.specs.Right.{IsRight, TellsUnsound};
ghost use Rattle.drm_plan.specs.Truthful.{IsUntouched, IsTruthfulOver};

use crate::laws::{
    passed_maps_are_never_unsound, plans_are_right, right_answers_are_truthful,
    right_paths_are_untouched,
};
use crate::legs::first_met;
use drm_arm::Config;
use drm_attach::{Attached, Way, attach_with};
use drm_cellmap::{Map, Snap};
use drm_grid::CellSet;
use drm_outside::Memory;
use drm_route::{Found, search};
use drm_talk::Answer;
use std::alloc::Global;

/// The answer to an ask for a way from the start to the goal, over the obstacles of a snapshot of the map.
///
/// The start is joined to the roadmap, then the goal; a shortest route between their attachments is searched over what is
/// not barred; each edge of it is swept in its turn. The answer tells the first of these that fails, or the whole path.
/// Lengths are in units of coordinates. One set of cells serves all sweeps. Want of memory is the only refusal.
pub fn ask(
    alloc: Global,
    map: &Map,
    snap: &Snap,
    start: &Config,
    goal: &Config,
) -> Result<Answer, Memory>
    requires of_map { IsSnapOf map.now snap.now }
    requires start { IsConfig map.now.arm start.now }
    requires goal { IsConfig map.now.arm goal.now }
    ensures plan { IfOk result (IsPlan map.now snap.now start.now goal.now) }
    ensures right { IfOk result (IsRight map.now snap.now start.now goal.now) }
    ensures untouched { IfOk result (IsUntouched map.now snap.now start.now goal.now) }
    ensures truthful { IfOk result (IsTruthfulOver map.now snap.now start.now goal.now) }
    ensures sound { IfOk result (λ answer. EachStored IsPassed map.now → ¬ TellsUnsound answer) }
{
    plans_are_right();
    right_paths_are_untouched();
    right_answers_are_truthful();
    passed_maps_are_never_unsound();
    plan(alloc, map, snap, start, goal)
}

/// The plan, of which the laws tell what it is worth.
fn plan(
    alloc: Global,
    map: &Map,
    snap: &Snap,
    start: &Config,
    goal: &Config,
) -> Result<Answer, Memory>
    requires of_map { IsSnapOf map.now snap.now }
    requires start { IsConfig map.now.arm start.now }
    requires goal { IsConfig map.now.arm goal.now }
    ensures plan { IfOk result (IsPlan map.now snap.now start.now goal.now) }
    ensures limits { IsRoadmap map.now }
{
    let road = map.road();
    let mut left = CellSet::new(alloc, map.grid().cells())?;
    let first = match attach_with(alloc, map, snap, start, Way::Out, &mut left)? {
        Attached::Found(end) => end,
        Attached::Nothing(tried) => return Ok(Answer::NoStart { tried }),
    };
    let last = match attach_with(alloc, map, snap, goal, Way::Home, &mut left)? {
        Attached::Found(end) => end,
        Attached::Nothing(tried) => return Ok(Answer::NoGoal { tried }),
    };
    match search(alloc, road, snap, first.node, last.node)? {
        Found::Cut { side } => Ok(Answer::Cut {
            start: first,
            goal: last,
            side,
        }),
        Found::Path {
            nodes,
            length,
            labels,
        } => match first_met(map, snap, nodes.as_slice(), &mut left) {
            Some(met) => Ok(Answer::Unsound {
                start: first,
                goal: last,
                edge: met.edge,
                cell: met.cell,
            }),
            None => Ok(Answer::Path {
                start: first,
                goal: last,
                length,
                nodes,
                labels,
            }),
        },
    }
}
