//! A planar arm of up to six links, its configurations and its motions, with their limits.
//!
//! Lengths and radii are in whole units. A joint coordinate `T` stands for the angle whose half has the
//! tangent `T/1024`. Links and joints are numbered from 0.
#![tactic(auto)]

mod arm;
mod config;
mod fault_texts;

pub use arm::{
    Arm, ArmFault, Link, MAX_COORDINATE, MAX_LENGTH, MAX_LINKS, MAX_RADIUS, MAX_REACH,
    MIN_COORDINATE, links_are_within_limits,
};
pub use config::{Config, ConfigFault, Motion, length};

#[cfg(test)]
mod tests;
