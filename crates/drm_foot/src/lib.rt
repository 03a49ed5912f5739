//! Footprints: which cells of a grid an obstacle touches.
#![tactic(auto)]

mod bounds;
mod cell_box;
mod disc;
mod footprint;
mod occupied;
mod ring;
mod side;

pub use cell_box::CellBox;
pub use footprint::{Footprint, foot, holds_are_in_foot, in_foot};
pub use occupied::{covered_cells, is_covered};

#[cfg(test)]
mod tests;
