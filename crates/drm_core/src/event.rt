//! Events and their answers.

use drm_talk::Entry;

/// One event.
#[derive(Clone, Copy, Debug, PartialEq, Eq)]
pub enum Event {
    /// The entry is to be added to the history.
    Edit(Entry),
    /// The caller (first) looks at so many entries of the history.
    See(u32, u32),
}

/// The answer to an event.
#[derive(Clone, Copy, Debug, PartialEq, Eq)]
pub enum Told {
    /// The entry was added, as the entry of this number.
    Number(u32),
    /// The slot is 1,024 or more.
    Slot,
    /// The history has this length, 65,536, and takes no more.
    Full(u32),
    /// The slot of the delete was empty after this many entries, the history's length.
    Empty(u32),
    /// Whether the caller has now seen so many: it had seen no more, and there are as many.
    Seen(bool),
}

/// Why an edit was not taken, in the order in which it is tested. `Memory` may come at any time.
#[derive(Clone, Copy, Debug, PartialEq, Eq)]
pub enum CoreFault {
    /// The slot is 1,024 or more.
    Slot,
    /// The history has this length, 65,536, and takes no more.
    Full(u32),
    /// The slot of the delete was empty after this many entries, the history's length.
    Empty(u32),
    /// There was no memory for the entry.
    Memory,
}
