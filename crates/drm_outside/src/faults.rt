// The causes that a call may name when it refuses.
ghost use Rattle.std.specs.Prelude.{◌≡◌};
ghost use Rattle.drm_outside.specs.declared.faults.LoadFault.TheVariants.{Memory as load_memory};
ghost use Rattle.drm_outside.specs.declared.faults.ReadAllFault.TheVariants.{Failed as read_failed, Memory as read_memory};
ghost use Rattle.drm_outside.specs.declared.faults.WriteFault.TheVariants.{Failed as write_failed, Memory as write_memory};

use std::alloc::{AllocError, AllocFailed};

/// There was no memory for what the call had to keep.
#[derive(Clone, Copy, Debug, PartialEq, Eq)]
pub struct Memory;

/// Something outside failed, and its count of faults rose.
#[derive(Clone, Copy, Debug, PartialEq, Eq)]
pub struct Failed;

/// Why a write took nothing.
#[derive(Clone, Copy, Debug, PartialEq, Eq)]
pub enum WriteFault {
    /// The sink failed, and its count of faults rose.
    Failed,
    /// The sink found no memory for the bytes.
    Memory,
}

/// Why `read_all` has no answer.
#[derive(Clone, Copy, Debug, PartialEq, Eq)]
pub enum ReadAllFault {
    /// The source failed, and its count of faults rose.
    Failed,
    /// The source has more bytes than this limit.
    TooLong(u64),
    /// There was no memory for the bytes.
    Memory,
}

/// Why a shelf gave nothing for a name.
#[derive(Clone, Copy, Debug, PartialEq, Eq)]
pub enum LoadFault {
    /// The shelf lacks the name, or failed at it; the name's count of load faults rose.
    Failed,
    /// The name holds more bytes than this limit.
    TooLong(u64),
    /// There was no memory for the bytes.
    Memory,
}

impl From<AllocError> for LoadFault {
    ghost from_gives = { λ _ fault. fault ≡ load_memory };

    fn from(_: AllocError) -> Self {
        LoadFault::Memory
    }
}

impl<T: Drop> From<AllocFailed<T>> for LoadFault {
    ghost from_gives = { λ _ fault. fault ≡ load_memory };

    fn from(_: AllocFailed<T>) -> Self {
        LoadFault::Memory
    }
}

impl From<AllocError> for Memory {
    fn from(_: AllocError) -> Self {
        Memory
    }
}

impl<T: Drop> From<AllocFailed<T>> for Memory {
    fn from(_: AllocFailed<T>) -> Self {
        Memory
    }
}

impl From<AllocError> for WriteFault {
    ghost from_gives = { λ _ fault. fault ≡ write_memory };

    fn from(_: AllocError) -> Self {
        WriteFault::Memory
    }
}

impl<T: Drop> From<AllocFailed<T>> for WriteFault {
    ghost from_gives = { λ _ fault. fault ≡ write_memory };

    fn from(_: AllocFailed<T>) -> Self {
        WriteFault::Memory
    }
}

impl From<Memory> for WriteFault {
    ghost from_gives = { λ _ fault. fault ≡ write_memory };

    fn from(_: Memory) -> Self {
        WriteFault::Memory
    }
}

impl From<Failed> for WriteFault {
    ghost from_gives = { λ _ fault. fault ≡ write_failed };

    fn from(_: Failed) -> Self {
        WriteFault::Failed
    }
}

impl From<AllocError> for ReadAllFault {
    ghost from_gives = { λ _ fault. fault ≡ read_memory };

    fn from(_: AllocError) -> Self {
        ReadAllFault::Memory
    }
}

impl<T: Drop> From<AllocFailed<T>> for ReadAllFault {
    ghost from_gives = { λ _ fault. fault ≡ read_memory };

    fn from(_: AllocFailed<T>) -> Self {
        ReadAllFault::Memory
    }
}

impl From<Memory> for ReadAllFault {
    ghost from_gives = { λ _ fault. fault ≡ read_memory };

    fn from(_: Memory) -> Self {
        ReadAllFault::Memory
    }
}

impl From<Failed> for ReadAllFault {
    ghost from_gives = { λ _ fault. fault ≡ read_failed };

    fn from(_: Failed) -> Self {
        ReadAllFault::Failed
    }
}
