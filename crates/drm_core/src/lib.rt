//! The slow machine: one history over a single list of events, which recounts everything from the obstacles.
#![tactic(auto)]

mod event;
mod machine;
mod table;

pub use event::{CoreFault, Event, Told};
pub use machine::{Core, play};

#[cfg(test)]
mod tests;
