//! The grid of workspace cells, and sets of its cells.
#![tactic(auto)]

mod cell_set;
mod grid;
mod laws;
mod near;
mod quotients;
mod strips;

pub use cell_set::CellSet;
pub use grid::{Grid, GridFault, MAX_ROWS, MAX_SIDE, MIN_ROWS, MIN_SIDE, SIDE_STEP};
pub use laws::{
    cell_near_has_points_near, cells_are_at_places, cells_have_places,
    near_cells_are_in_near_strips, points_near_make_cell_near, points_within_are_in_cells,
};
pub use near::MAX_DISTANCE;

#[cfg(test)]
mod tests;
