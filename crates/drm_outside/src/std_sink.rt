// Standard output as a sink.
ghost use Rattle.std.specs.Prelude.{◌≡◌, None};

use crate::{Sink, WriteFault};
use std::marker::Model;

/// Standard output, written with no buffer: bytes that were taken have reached the system. It tells no content.
/// Contracts see it as its count of faults, which stands still at 2^64 - 1.
#[derive(Drop)]
pub struct StdSink<'a, R> {
    rt: &'a R,
    faults: u64,
}

impl<'a, R> Model for StdSink<'a, R> {
    ghost use Rattle.std.specs.Prelude.{ℕ};

    ghost Value = { ℕ };

    ghost view = { λ s. s.faults };
}

impl<'a, R: Print> StdSink<'a, R> {
    /// The standard output of `rt`, with no fault yet.
    pub fn new(rt: &'a R) -> StdSink<'a, R>
        ensures { result ≡ 0 }
    {
        StdSink { rt, faults: 0 }
    }
}

impl<R: Print> Sink for StdSink<'_, R> {
    ghost taken = { λ _. None };

    ghost faults = { λ count. count };

    fn write(&mut self, bytes: &[u8]) -> Result<usize, WriteFault> {
        match self.rt.write_some(bytes) {
            Ok(count) if count > 0 || bytes.is_empty() => Ok(count),
            _ => {
                self.faults = self.faults.saturating_add(1);
                Err(WriteFault::Failed)
            }
        }
    }
}
