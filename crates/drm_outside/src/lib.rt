//! The outside as the planner sees it: sources of bytes, sinks for bytes, shelves of named bytes, counts of their
//! faults, and gates where a test may hold a caller.
//!
//! Each trait tells its meaning in ghost members. `MemSource`, `MemSink` and `MemShelf` keep their bytes in memory and
//! fail where a plan says so. `StdSource` and `StdSink` stand over the standard streams and `FileShelf` over files;
//! they tell no content.
#![tactic(auto)]

mod fault_texts;
mod faults;
mod file_shelf;
mod gate;
mod list;
mod mem_shelf;
mod mem_sink;
mod mem_source;
mod shelf;
mod sink;
mod source;
mod std_sink;
mod std_source;
mod word;

pub use faults::{Failed, LoadFault, Memory, ReadAllFault, WriteFault};
pub use file_shelf::FileShelf;
pub use gate::{Gate, NoGate};
pub use list::List;
pub use mem_shelf::MemShelf;
pub use mem_sink::MemSink;
pub use mem_source::MemSource;
pub use shelf::Shelf;
pub use sink::{Sink, write_all};
pub use source::{Source, read_all};
pub use std_sink::StdSink;
pub use std_source::StdSource;
pub use word::Word;

#[cfg(test)]
mod shelf_tests;
#[cfg(test)]
mod tests;
