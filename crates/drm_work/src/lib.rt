//! Callers' threads: a worker for each caller of a log, all over one planner.
#![tactic(auto)]

mod callers;
mod gather;
mod serve;
mod worker;

pub use callers::{Replayed, replay};
pub use worker::work;

#[cfg(test)]
mod tests;
