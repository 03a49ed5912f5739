//! Tests of the crates below, over their contracts: worked examples, and what no clause says.
//!
//! They call the crates as any caller does. A crate with tests of its own would be proved twice.
#![tactic(auto)]

#[cfg(test)]
mod arithmetic;
