//! The map: an arm and its roadmap on a grid, with the cells that each element of the roadmap may sweep; the counts of
//! occupied cells, and snapshots of what is barred.
#![tactic(auto)]

mod counts;
mod laws;
mod map;
mod rules;
mod sample;
mod snap;
#[cfg(test)]
mod tests;

pub use counts::Counts;
pub use laws::{
    found_cells_are_tallied, limits_are_those_defined, open_elements_are_clear, sets_have_tallies,
};
pub use map::{MAX_ENTRIES, Map, MapFault};
pub use sample::sample_map;
pub use snap::Snap;
