//! Maps as files: reading them from bytes with the exact place of the first fault, writing them, and checking that
//! their stored sweeps are those of their arm.
#![tactic(auto)]

mod arm;
mod fault;
mod fields;
mod grid;
mod judging;
mod reading;
mod road;
mod sweeps;
mod writing;

pub use fault::FileFault;
pub use judging::{MapVerdict, check};
pub use reading::read;
pub use writing::write;

#[cfg(test)]
mod tests;
