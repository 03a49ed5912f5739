//! `drm_tool build ROBOT MAP`, `check MAP`, `replay MAP brief` and `replay MAP full`: builds the map of a robot, judges a map, or replays a
//! log from standard input over it, with a thread for each of the log's callers, and writes what comes of it to standard output.
//! Where it does not do what was asked, it says why on standard error.
#![tactic(auto)]

#[cfg(test)]
mod caller_tests;
mod commands;
mod named;
mod run;
mod served;
#[cfg(test)]
mod shelf_tests;
mod start;
#[cfg(test)]
mod tests;

use drm_command::StdNotes;
use drm_outside::{FileShelf, NoGate, StdSink, StdSource};
use start::start;
use std::env;
use std::process::ExitCode;

fn main(rt: HostRuntime) -> ExitCode {
    let mut shelf = FileShelf::new(&rt);
    let mut log = StdSource::new(&rt);
    let mut out = StdSink::new(&rt);
    let errors = rt.stderr();
    let mut notes = StdNotes::new(&errors);
    let arguments = env::args(&rt);
    start(
        &rt,
        rt.alloc(),
        arguments,
        &mut shelf,
        &mut log,
        &mut out,
        &mut notes,
        &NoGate,
    )
}
