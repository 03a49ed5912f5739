//! The search for a shortest route of the roadmap over what is not barred, by rounds over its edges.
#![tactic(auto)]

mod labels;
mod laws;
mod shortest;
#[cfg(test)]
mod tests;

pub use laws::{found_is_certified, found_is_determined};
pub use shortest::{Found, search};
