//! What a robot is, and how it is read from JSON: its arm, the grid in which it works, and how its roadmap is drawn.
#![tactic(auto)]

mod fault;
mod fields;
mod json;
mod robot;

pub use fault::{FieldName, RobotFault};
pub use json::read;
pub use robot::Robot;

#[cfg(test)]
mod tests;
