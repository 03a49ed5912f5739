// Where a caller may be held.

/// A place where a test may hold a caller between two of its lines. It gives no answer, and nothing depends on it.
pub trait Gate: Sync {
    /// Called in the caller's thread: before the line of that place of the whole log, counted from 1, and with 0 after
    /// the caller's last line. The caller goes on when the call returns.
    fn pass(&self, caller: u32, line: u32);
}

/// A gate that holds nobody.
#[derive(Debug, Clone, Copy, Default, PartialEq, Eq)]
pub struct NoGate;

impl Gate for NoGate {
    fn pass(&self, _caller: u32, _line: u32) {}
}
