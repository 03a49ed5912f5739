//! What the faults print: one plain line each, with the limit where there is one.
ghost use Rattle.std.specs.Prelude.{Some};
ghost use Rattle.drm_outside.specs.FaultTexts.{memory_text, failed_text, write_fault_text, read_all_fault_text, load_fault_text};

use crate::{Failed, LoadFault, Memory, ReadAllFault, WriteFault};
use std::error::Error;
use std::fmt;

const MEMORY: &str = "no memory";

impl fmt::Display for Memory {
    ghost output = { λ _. Some memory_text };

    fn fmt<W: fmt::Write>(&self, f: &mut fmt::Formatter<W>) -> fmt::Result {
        f.write_str(MEMORY)
    }
}

impl Error for Memory {}

impl fmt::Display for Failed {
    ghost output = { λ _. Some failed_text };

    fn fmt<W: fmt::Write>(&self, f: &mut fmt::Formatter<W>) -> fmt::Result {
        f.write_str("the outside failed")
    }
}

impl Error for Failed {}

impl fmt::Display for WriteFault {
    ghost output = { λ fault. Some (write_fault_text fault) };

    fn fmt<W: fmt::Write>(&self, f: &mut fmt::Formatter<W>) -> fmt::Result {
        match self {
            WriteFault::Failed => f.write_str("the bytes could not be written"),
            WriteFault::Memory => f.write_str(MEMORY),
        }
    }
}

impl Error for WriteFault {}

impl fmt::Display for ReadAllFault {
    ghost output = { λ fault. Some (read_all_fault_text fault) };

    fn fmt<W: fmt::Write>(&self, f: &mut fmt::Formatter<W>) -> fmt::Result {
        match *self {
            ReadAllFault::Failed => f.write_str("the source could not be read"),
            ReadAllFault::TooLong(limit) => write!(f, "too long: more than {limit} bytes"),
            ReadAllFault::Memory => f.write_str(MEMORY),
        }
    }
}

impl Error for ReadAllFault {}

impl fmt::Display for LoadFault {
    ghost output = { λ fault. Some (load_fault_text fault) };

    fn fmt<W: fmt::Write>(&self, f: &mut fmt::Formatter<W>) -> fmt::Result {
        match *self {
            LoadFault::Failed => f.write_str("the name is missing, or could not be loaded"),
            LoadFault::TooLong(limit) => write!(f, "too long: more than {limit} bytes"),
            LoadFault::Memory => f.write_str(MEMORY),
        }
    }
}

impl Error for LoadFault {}
