// Where bytes come from.
ghost use Rattle.std.specs.Prelude.{ℕ, List, ◌^◌, ◌<◌, IfOk, IfErr, IsErr, Option};
ghost use Rattle.std.specs.Result.{IsErrOf};
ghost use Rattle.std.specs.Io.{ReadsAtMost};
ghost use Rattle.std.specs.Io.KnownBytes.{ReadConsumes};
ghost use Rattle.drm_outside.specs.Causes.{HasCause};
ghost use Rattle.drm_outside.specs.Reading.{ReadsAll, TookBefore};

use crate::{Failed, ReadAllFault};
use std::alloc::Global;

/// A source of bytes that counts its faults.
pub trait Source {
    /// The bytes that are left, where the source tells them.
    ghost left: { Self → Option (List ℕ) };

    /// How often the source has failed.
    ghost faults: { Self → ℕ };

    /// Moves the next bytes into the front of `into` and says how many. `Ok(0)` on a buffer that is not empty is
    /// the end. A read that fails moves nothing. Nothing is said of the rest of `into`.
    fn read(&mut self, into: &mut [u8]) -> Result<usize, Failed>
        ensures bound { ReadsAtMost result into.new }
        ensures bytes { ReadConsumes (left self.old) (left self.new) result into.new }
        ensures cause { HasCause (IsErr result) (faults self.old) (faults self.new) };
}

// How many bytes one read asks for at most.
const PIECE: usize = 65536;

/// All bytes up to the end of the source, if they are at most `limit`. `TooLong` carries the limit. No clause says
/// when memory is found.
pub fn read_all<S: Source>(
    alloc: Global,
    source: &mut S,
    limit: u64,
) -> Result<Vec<u8>, ReadAllFault>
    requires { limit < 2 ^ 32 }
    ensures ok { IfOk result (λ bytes. ReadsAll (S.left source.old) (S.left source.new) limit bytes.items) }
    ensures err { IfErr result (λ fault. TookBefore fault (S.left source.old) (S.left source.new) limit) }
    ensures cause { HasCause (IsErrOf result ReadAllFault.Failed) (S.faults source.old) (S.faults source.new) }
{
    let most = limit as usize;
    let mut piece = vec![in alloc; 0u8; PIECE.min(most + 1)]?;
    let mut bytes = Vec::new(alloc);
    loop {
        let room = piece.len().min(most - bytes.len() + 1);
        let part = &mut piece[..room];
        let count = source.read(part)?;
        if count == 0 {
            return Ok(bytes);
        }
        if most - bytes.len() < count {
            return Err(ReadAllFault::TooLong(limit));
        }
        bytes.extend_from_slice(&part[..count])?;
    }
}
