//! Cosine and sine of a turn, enclosed for an interval of half-angle tangents.
#![tactic(auto)]

mod laws;
mod turning;
mod values;

pub use laws::turns_keep_inclusion;
pub use turning::{End, Spin, turn, turn_between};
