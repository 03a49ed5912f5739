// A source over bytes in memory, which fails where a plan says so.
ghost use Rattle.std.specs.Prelude.{◌≡◌, ◌<◌, ◌↔◌, List as Row, Some, IsErr, IfOk, OnErr};
ghost use Rattle.std.specs.Io.{ReadsAtMost};
ghost use Rattle.std.specs.Io.KnownBytes.{ReadConsumes};
ghost use Rattle.drm_outside.specs.Causes.{HasCause};
ghost use Rattle.drm_outside.specs.MemSource.{MemReads, NextReadFails, unread, gives, after_read, after_failed_read};

use crate::{Failed, List, Source};
use std::marker::Model;

/// A source over bytes in memory. A read gives at most `piece` bytes. Reads are numbered from 1, and a read fails
/// exactly where its number is in `failing`. Both counts stand still at 2^64 - 1.
#[derive(Debug, Drop)]
pub struct MemSource {
    bytes: List<u8>,
    given: usize,
    piece: usize,
    failing: List<u64>,
    calls: u64,
    faults: u64,
}

impl Model for MemSource {
    ghost use Rattle.std.specs.Prelude.{◌<◌, ◌≤◌, length, drop};
    ghost use Rattle.drm_outside.specs.MemSource.{MemReads};

    ghost Value = { MemReads };

    ghost view = { λ s. record {
      left = drop s.given s.bytes;
      piece = s.piece;
      failing = s.failing;
      calls = s.calls;
      faults = s.faults;
    } };

    ghost invariant = { λ s. (s.given ≤ length s.bytes) × (0 < s.piece) };
}

impl MemSource {
    /// A source that gives `bytes`, at most `piece` a read, and fails at the reads whose numbers are in `failing`.
    pub fn new(bytes: List<u8>, piece: usize, failing: List<u64>) -> MemSource
        requires { 0 < piece }
        ensures { result ≡ unread bytes piece failing }
    {
        MemSource {
            bytes,
            given: 0,
            piece,
            failing,
            calls: 0,
            faults: 0,
        }
    }
}

impl Source for MemSource {
    ghost left = { λ s. Some s.left };

    ghost faults = { λ s. s.faults };

    fn read(&mut self, into: &mut [u8]) -> Result<usize, Failed>
        ensures bound { ReadsAtMost result into.new }
        ensures bytes { ReadConsumes (Some self.old.left) (Some self.new.left) result into.new }
        ensures cause { HasCause (IsErr result) self.old.faults self.new.faults }
        ensures planned { IsErr result ↔ NextReadFails self.old }
        ensures given { IfOk result (λ n. (n ≡ gives self.old into.new) × (self.new ≡ after_read self.old n)) }
        ensures failed { OnErr result (self.new ≡ after_failed_read self.old) }
        ensures untouched { OnErr result (into.new ≡ into.old) }
    {
        self.calls = self.calls.saturating_add(1);
        if self.failing.as_slice().contains(&self.calls) {
            self.faults = self.faults.saturating_add(1);
            return Err(Failed);
        }
        let left = &self.bytes.as_slice()[self.given..];
        let count = into.len().min(self.piece).min(left.len());
        into[..count].copy_from_slice(&left[..count]);
        self.given += count;
        Ok(count)
    }
}
