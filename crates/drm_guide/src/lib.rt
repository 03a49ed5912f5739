//! Use of the planner as a library: what `docs/LIBRARY.md` shows is the code of this crate's test.
#![tactic(auto)]

#[cfg(test)]
mod two_callers;
