// A sink that keeps its bytes in memory, and fails where a plan says so.
ghost use Rattle.std.specs.Prelude.{◌≡◌, ◌<◌, ◌↔◌, List as Row, Some, IfOk, IfErr};
ghost use Rattle.std.specs.Result.{IsErrOf};
ghost use Rattle.std.specs.Io.{WritesAtMost};
ghost use Rattle.std.specs.Io.KnownBytes.{WriteAppends};
ghost use Rattle.drm_outside.specs.Causes.{HasCause};
ghost use Rattle.drm_outside.specs.Writing.{TakesSome};
ghost use Rattle.drm_outside.specs.MemSink.{MemWrites, NextWriteFails, Took, unwritten, after_refused_write};

use crate::{List, Sink, WriteFault};
use std::alloc::Global;
use std::marker::Model;

/// A sink that keeps its bytes in memory. A write takes at most `piece` bytes. Writes are numbered from 1, and a
/// write fails exactly where its number is in `failing`. A write that finds no memory gets no number. Both counts
/// stand still at 2^64 - 1.
#[derive(Debug, Drop)]
pub struct MemSink {
    bytes: Vec<u8>,
    piece: usize,
    failing: List<u64>,
    calls: u64,
    faults: u64,
}

impl Model for MemSink {
    ghost use Rattle.std.specs.Prelude.{◌<◌};
    ghost use Rattle.drm_outside.specs.MemSink.{MemWrites};

    ghost Value = { MemWrites };

    ghost view = { λ s. record {
      taken = s.bytes.items;
      piece = s.piece;
      failing = s.failing;
      calls = s.calls;
      faults = s.faults;
    } };

    ghost invariant = { λ s. 0 < s.piece };
}

impl MemSink {
    /// A sink that has taken nothing, takes at most `piece` bytes a write, and fails at the writes whose numbers are
    /// in `failing`. Its writes take memory from `alloc`.
    pub fn new(alloc: Global, piece: usize, failing: List<u64>) -> MemSink
        requires { 0 < piece }
        ensures { result ≡ unwritten piece failing }
    {
        MemSink {
            bytes: Vec::new(alloc),
            piece,
            failing,
            calls: 0,
            faults: 0,
        }
    }

    /// The bytes taken so far, in their order.
    pub fn taken(&self) -> &[u8]
        ensures { result.now ≡ self.now.taken }
    {
        &self.bytes
    }
}

impl Sink for MemSink {
    ghost taken = { λ s. Some s.taken };

    ghost faults = { λ s. s.faults };

    fn write(&mut self, bytes: &[u8]) -> Result<usize, WriteFault>
        ensures bound { WritesAtMost result bytes.now }
        ensures some { TakesSome result bytes.now }
        ensures bytes { WriteAppends (Some self.old.taken) (Some self.new.taken) result bytes.now }
        ensures cause { HasCause (IsErrOf result WriteFault.Failed) self.old.faults self.new.faults }
        ensures planned { IsErrOf result WriteFault.Failed ↔ NextWriteFails self.old }
        ensures took { IfOk result (λ n. Took self.old self.new bytes.now n) }
        ensures refused { IfErr result (λ fault. self.new ≡ after_refused_write self.old fault) }
    {
        let number = self.calls.saturating_add(1);
        if self.failing.as_slice().contains(&number) {
            self.calls = number;
            self.faults = self.faults.saturating_add(1);
            return Err(WriteFault::Failed);
        }
        let count = bytes.len().min(self.piece);
        self.bytes.extend_from_slice(&bytes[..count])?;
        self.calls = number;
        Ok(count)
    }
}
