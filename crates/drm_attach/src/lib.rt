//! How a configuration is joined to the roadmap: the nearest nodes are tried one after another.
#![tactic(auto)]

mod ends;
mod laws;
mod nearest;

pub use ends::{Attached, Way, attach, attach_with, joining};
pub use laws::{attachments_are_determined, limits_are_those_defined};

#[cfg(test)]
mod tests;

pub use nearest::{MAX_CANDIDATES, candidates};
