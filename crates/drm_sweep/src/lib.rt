//! The cells of a grid that the motion of an arm sweeps.
//!
//! A motion is halved until the boxes of its links are small; each link is cut in short pieces, and a cell is swept
//! where it is near the box of a piece. The swept cells hold every cell that the motion comes within the pad of, and
//! none that it does not come within the pad and a quarter of a cell's side of.
#![tactic(auto)]

mod ahead;
mod cells;
mod laws;
mod live;
mod pieces;
mod sweeper;
mod swept;
mod walk;

pub use laws::{
    deepest_poses_are_leaves, near_cells_are_swept, reached_points_are_in_cells,
    reversed_motions_sweep_the_same, sound_sweeps_pass, swept_cells_are_near,
};
pub use swept::{first_meeting, first_meeting_with, sweep, sweep_pose, take_swept};

#[cfg(test)]
mod tests;
