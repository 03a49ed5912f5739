// Where bytes go.
ghost use Rattle.std.specs.Prelude.{ℕ, List, OnOk, OnErr, Option};
ghost use Rattle.std.specs.Result.{IsErrOf};
ghost use Rattle.std.specs.Io.{WritesAtMost};
ghost use Rattle.std.specs.Io.KnownBytes.{Appends, WriteAppends};
ghost use Rattle.drm_outside.specs.Causes.{HasCause};
ghost use Rattle.drm_outside.specs.Writing.{AppendsPrefix, TakesSome};

use crate::WriteFault;

/// A sink for bytes that counts its faults.
pub trait Sink {
    /// The bytes that were taken, where the sink tells them.
    ghost taken: { Self → Option (List ℕ) };

    /// How often the sink has failed.
    ghost faults: { Self → ℕ };

    /// Takes the first of `bytes` and says how many: at least one, unless there are none. A write that is refused
    /// takes nothing. Want of memory is no fault, and every other cause is counted.
    fn write(&mut self, bytes: &[u8]) -> Result<usize, WriteFault>
        ensures bound { WritesAtMost result bytes.now }
        ensures some { TakesSome result bytes.now }
        ensures bytes { WriteAppends (taken self.old) (taken self.new) result bytes.now }
        ensures cause { HasCause (IsErrOf result WriteFault.Failed) (faults self.old) (faults self.new) };
}

/// Hands all of `bytes` to the sink. After a fault a prefix of them was taken. It takes no memory itself.
pub fn write_all<W: Sink>(sink: &mut W, bytes: &[u8]) -> Result<(), WriteFault>
    ensures ok { OnOk result (Appends (W.taken sink.old) (W.taken sink.new) bytes.now) }
    ensures err { OnErr result (AppendsPrefix (W.taken sink.old) (W.taken sink.new) bytes.now) }
    ensures cause { HasCause (IsErrOf result WriteFault.Failed) (W.faults sink.old) (W.faults sink.new) }
{
    let mut done = 0;
    while done < bytes.len() {
        done += sink.write(&bytes[done..])?;
    }
    Ok(())
}
