//! The planner's answer to an ask: the definitions that an answer is held to, and what an answer is worth.
//!
//! An answer is a motion that touches no obstacle, or what shows why there is none: an end that no candidate joins to the
//! roadmap, a cut, or an edge whose stored sweep lacks a cell. What a right answer tells is true of the obstacles themselves.
#![tactic(auto)]

mod answer;
mod laws;
mod legs;

pub use answer::ask;
pub use laws::{
    passed_maps_are_never_unsound, plans_are_determined, plans_are_right,
    right_answers_are_truthful, right_paths_are_untouched,
};

#[cfg(test)]
mod tests;
