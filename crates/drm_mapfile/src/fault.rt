//! Why bytes are no map file.
ghost use Rattle.std.specs.Prelude.{◌≡◌, Some};
ghost use Rattle.drm_mapfile.specs.declared.fault.FileFault.TheVariants.{Memory as no_memory};
ghost use Rattle.drm_mapfile.specs.FaultText.{fault_text};

use std::alloc::{AllocError, AllocFailed};
use std::error::Error;
use std::fmt;

/// Why bytes are no map file: the first fault from the left, where places count from 0.
#[derive(Debug, Clone, Copy, PartialEq, Eq)]
pub enum FileFault {
    /// One of the first four bytes that are there is not that of the mark `DRMP`.
    Magic,
    /// The version is not one that is read: which one it is.
    Version(u16),
    /// The bytes end before the field that stands next is whole: where they end.
    Short(u64),
    /// A field breaks its rule: the place of its first byte. A node that equals an earlier one is named at its first
    /// coordinate, after all its coordinates were read.
    Field(u64),
    /// More bytes stand behind a whole map: where it ends.
    Excess(u64),
    /// There was no memory to read the map.
    Memory,
}

impl fmt::Display for FileFault {
    ghost output = { λ fault. Some (fault_text fault) };

    fn fmt<W: fmt::Write>(&self, f: &mut fmt::Formatter<W>) -> fmt::Result {
        match *self {
            FileFault::Magic => f.write_str("the mark DRMP does not stand in front"),
            FileFault::Version(v) => write!(f, "the version is {v}, and 1 is read"),
            FileFault::Short(p) => write!(f, "the file ends at byte {p}, within a field"),
            FileFault::Field(p) => write!(f, "the field at byte {p} is not allowed there"),
            FileFault::Excess(p) => write!(f, "the map ends at byte {p}, and the file does not"),
            FileFault::Memory => f.write_str("there was no memory to read the map"),
        }
    }
}

impl Error for FileFault {}

impl<T: Drop> From<AllocFailed<T>> for FileFault {
    ghost from_gives = { λ _ fault. fault ≡ no_memory };

    fn from(_: AllocFailed<T>) -> FileFault {
        FileFault::Memory
    }
}

impl From<AllocError> for FileFault {
    ghost from_gives = { λ _ fault. fault ≡ no_memory };

    fn from(_: AllocError) -> FileFault {
        FileFault::Memory
    }
}
