//! The state of a planner: its map, the journal of accepted edits, and the counts that follow from them.
#![tactic(auto)]

mod covered;
mod op;
mod state;

pub use op::Op;
pub use state::State;

#[cfg(test)]
mod tests;
