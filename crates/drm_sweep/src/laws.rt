//! The laws of swept cells, each as the contract of a function, which calls the laws of the layers below that it rests on.

ghost use Rattle.drm_sweep.specs.Laws.{NearCellsAreSwept, SweptCellsAreNear, SoundSweepsPass, DeepestPosesAreLeaves, ReversedMotionsSweepTheSame, ReachedPointsAreInCells};

use drm_arm::links_are_within_limits;
use drm_grid::{cell_near_has_points_near, points_near_make_cell_near, points_within_are_in_cells};
use drm_pose::{
    deep_poses_are_leaves, each_link_has_boxes, halves_cover, part_has_its_start, parts_cover,
    parts_hold_the_axis, parts_of_leaves_are_narrow, piece_has_its_start, reached_is_within,
    reversed_poses, whole_has_each_moment,
};

/// The law that the cells which a motion comes near are swept.
pub fn near_cells_are_swept()
    ensures { NearCellsAreSwept }
{
    links_are_within_limits();
    whole_has_each_moment();
    halves_cover();
    parts_cover();
    each_link_has_boxes();
    parts_hold_the_axis();
    points_near_make_cell_near();
}

/// The law that a motion comes within the pad and a quarter of a cell's side of each swept cell.
pub fn swept_cells_are_near()
    ensures { SweptCellsAreNear }
{
    links_are_within_limits();
    deep_poses_are_leaves();
    piece_has_its_start();
    part_has_its_start();
    parts_hold_the_axis();
    parts_of_leaves_are_narrow();
    cell_near_has_points_near();
}

/// The law that sound sweeps pass.
pub fn sound_sweeps_pass()
    ensures { SoundSweepsPass }
{
    near_cells_are_swept();
    swept_cells_are_near();
}

/// The law that a pose which was halved 20 times is a leaf.
pub fn deepest_poses_are_leaves()
    ensures { DeepestPosesAreLeaves }
{
    deep_poses_are_leaves();
}

/// The law that a motion and its reverse sweep the same cells.
pub fn reversed_motions_sweep_the_same()
    ensures { ReversedMotionsSweepTheSame }
{
    reversed_poses();
}

/// The law that each point which a motion reaches without a pad lies in a cell of the grid, where the arm stays within it.
pub fn reached_points_are_in_cells()
    ensures { ReachedPointsAreInCells }
{
    reached_is_within();
    points_within_are_in_cells();
}
