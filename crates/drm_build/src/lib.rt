//! The map of a robot: its nodes are drawn, its edges pair nodes that are near each other, and what each element sweeps
//! is found by several threads at once.
#![tactic(auto)]

mod building;
mod counted;
mod hands;
mod laws;
mod order;
mod sets;

pub use building::{BuildFault, build};
pub use laws::{
    maps_of_robots_are_sound, robots_have_one_map, robots_near_few_cells_have_maps, sound_maps_pass,
};

#[cfg(test)]
mod tests;
