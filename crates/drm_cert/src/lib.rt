//! Tests of certificates: that a route of the roadmap is a shortest one, and that there is no route.
//!
//! A certificate that holds proves what it certifies, whoever made it. No test takes memory.
#![tactic(auto)]

mod cut;
mod joined;
mod labels;
mod laws;
mod path;
#[cfg(test)]
mod tests;

pub use cut::holds_cut;
pub use laws::{cuts_have_no_route, paths_are_shortest};
pub use path::holds_path;
