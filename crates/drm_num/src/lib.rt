//! Interval arithmetic in fixed point, with ends that are whole numbers of 2^-30.
//!
//! Every operation gives an interval that holds the exact result for all numbers of its arguments.
#![tactic(auto)]

mod interval;
mod laws;
mod product;

pub use interval::Iv;
pub use laws::{inclusion_is_of_numbers, operations_keep_inclusion};
pub use product::{mul_add2, mul_sub2};
