//! Logs and reports as text: reading and printing the requests of a log, and the replies to them.
//!
//! Both are lines of words with one blank between each two, and a line feed at the end of each line. Each value has
//! one spelling: a number has no leading zero and no plus sign, and zero no minus sign.
#![tactic(auto)]

ghost use Rattle.std.specs.Prelude.{◌≡◌, Some};
ghost use Rattle.drm_script.specs.declared.LinesFault.TheVariants.{Memory as no_lines_memory};
ghost use Rattle.drm_script.specs.declared.LogFault.TheVariants.{Memory as no_memory};
ghost use Rattle.drm_script.specs.declared.ReportFault.TheVariants.{Memory as no_report_memory};
ghost use Rattle.drm_script.specs.FaultText.{lines_fault_text, log_fault_text, report_fault_text};

use drm_outside::List;
use drm_talk::Line;
use std::alloc::AllocFailed;
use std::error::Error;
use std::fmt;

mod acts;
mod answers;
mod fields;
mod lists;
mod log;
mod number;
mod print;
mod print_answers;
mod replies;
mod report;
mod shapes;
mod words;

pub use log::{logs_read_one_way, read_good_lines, read_log};
pub use print::{print_brief, print_full, print_log};
pub use report::{read_report, reports_read_one_way};

#[cfg(test)]
mod tests;

/// The lines of a log before the first that is not in the grammar.
#[derive(Debug, Drop)]
pub struct GoodLines {
    /// The lines before the first bad one. All lines of the log, where none is bad.
    pub lines: List<Line>,
    /// The number, counted from 1, of the first line that is not in the grammar. `None` where the bytes are a log.
    pub bad: Option<u32>,
}

/// Why no line of a log was read.
#[derive(Clone, Copy, Debug, PartialEq, Eq)]
pub enum LinesFault {
    /// There are so many lines, which are over 200,000.
    Lines(u64),
    /// There was no memory for the lines.
    Memory,
}

impl fmt::Display for LinesFault {
    ghost output = { λ fault. Some (lines_fault_text fault) };

    fn fmt<W: fmt::Write>(&self, f: &mut fmt::Formatter<W>) -> fmt::Result {
        match *self {
            LinesFault::Lines(n) => write!(f, "there are {n} lines, and 200000 are read at most"),
            LinesFault::Memory => f.write_str("there was no memory to read the log"),
        }
    }
}

impl Error for LinesFault {}

impl<T: Drop> From<AllocFailed<T>> for LinesFault {
    ghost from_gives = { λ _ fault. fault ≡ no_lines_memory };

    fn from(_: AllocFailed<T>) -> Self {
        LinesFault::Memory
    }
}

/// Why a log was not read.
#[derive(Clone, Copy, Debug, PartialEq, Eq)]
pub enum LogFault {
    /// There are so many lines, which are over 200,000.
    Lines(u64),
    /// This line, counted from 1, is the first that is not in the grammar.
    Line(u32),
    /// There was no memory for the lines.
    Memory,
}

impl fmt::Display for LogFault {
    ghost output = { λ fault. Some (log_fault_text fault) };

    fn fmt<W: fmt::Write>(&self, f: &mut fmt::Formatter<W>) -> fmt::Result {
        match *self {
            LogFault::Lines(n) => write!(f, "there are {n} lines, and 200000 are read at most"),
            LogFault::Line(i) => write!(f, "line {i} is not in the grammar"),
            LogFault::Memory => f.write_str("there was no memory to read the log"),
        }
    }
}

impl Error for LogFault {}

impl<T: Drop> From<AllocFailed<T>> for LogFault {
    ghost from_gives = { λ _ fault. fault ≡ no_memory };

    fn from(_: AllocFailed<T>) -> Self {
        LogFault::Memory
    }
}

/// Why a report was not read.
#[derive(Clone, Copy, Debug, PartialEq, Eq)]
pub enum ReportFault {
    /// This line, counted from 1, is the first that a report may not have there, or the place of the missing end line.
    Line(u32),
    /// There was no memory for the replies.
    Memory,
}

impl fmt::Display for ReportFault {
    ghost output = { λ fault. Some (report_fault_text fault) };

    fn fmt<W: fmt::Write>(&self, f: &mut fmt::Formatter<W>) -> fmt::Result {
        match *self {
            ReportFault::Line(i) => {
                write!(
                    f,
                    "line {i} may not stand there, or the end line is missing there"
                )
            }
            ReportFault::Memory => f.write_str("there was no memory to read the report"),
        }
    }
}

impl Error for ReportFault {}

impl<T: Drop> From<AllocFailed<T>> for ReportFault {
    ghost from_gives = { λ _ fault. fault ≡ no_report_memory };

    fn from(_: AllocFailed<T>) -> Self {
        ReportFault::Memory
    }
}
