//! What a robot is.
ghost use Rattle.std.specs.Prelude.{◌≤◌};
ghost use Rattle.drm_grid.specs.Fits.{Fits};
ghost use Rattle.drm_road.specs.Limits.{max_draws, max_near};

use drm_arm::Arm;
use drm_grid::Grid;

/// A robot whose arm stays within its grid, and how its roadmap is drawn.
#[derive(Debug, Clone, Copy)]
pub struct Robot {
    /// The arm.
    pub arm: Arm,
    /// The grid of the workspace. The arm stays within it.
    pub grid: Grid,
    /// The seed of the draws.
    pub seed: u64,
    /// How many nodes are drawn: 1 to 2,048. There may be fewer nodes, since a draw that equals an earlier one is dropped.
    pub draws: u32,
    /// To how many of the nearest nodes each node is joined: 1 to 16.
    pub near: u32,
    ghost fits: { Fits grid arm },
    ghost some_draws: { 1 ≤ draws },
    ghost few_draws: { draws ≤ max_draws },
    ghost some_near: { 1 ≤ near },
    ghost few_near: { near ≤ max_near },
}
