//! Why an edit is refused.

/// Why an edit was not accepted. The faults are tested in this order; want of memory may come at any point after the first.
#[derive(Clone, Copy, Debug, PartialEq, Eq)]
pub enum EditFault {
    /// The slot is 1,024 or more.
    Slot,
    /// The history has this length, 65,536, and takes no more.
    Full(u32),
    /// The slot of a delete was empty after this many entries, the history's length then.
    Empty(u32),
    /// There was no memory for the edit, and nothing was changed.
    Memory,
}
