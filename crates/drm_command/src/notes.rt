// Where notes for a person go.
ghost use Rattle.std.specs.Prelude.{◌≡◌, ℕ, List, None, OnOk, OnErr, IsErr, Option};
ghost use Rattle.std.specs.Io.KnownBytes.{Appends};
ghost use Rattle.drm_outside.specs.Causes.{HasCause};
ghost use Rattle.drm_outside.specs.Writing.{AppendsPrefix};

use drm_outside::Failed;
use std::marker::Model;

/// Where notes for a person go, as standard error is. It needs no memory, and it counts its faults.
pub trait Notes {
    /// The bytes that were taken, where they are told.
    ghost taken: { Self → Option (List ℕ) };

    /// How often a note has failed.
    ghost faults: { Self → ℕ };

    /// Takes all of `text`. After a fault a prefix of it was taken.
    fn note(&mut self, text: &str) -> Result<(), Failed>
        ensures ok { OnOk result (Appends (taken self.old) (taken self.new) text.now) }
        ensures err { OnErr result (AppendsPrefix (taken self.old) (taken self.new) text.now) }
        ensures cause { HasCause (IsErr result) (faults self.old) (faults self.new) };
}

/// Standard error, or another stream that is printed to, written with no buffer. It tells no content. Contracts see it
/// as its count of faults, which stands still at 2^64 - 1.
#[derive(Drop)]
pub struct StdNotes<'a, R> {
    rt: &'a R,
    faults: u64,
}

impl<'a, R> Model for StdNotes<'a, R> {
    ghost use Rattle.std.specs.Prelude.{ℕ};

    ghost Value = { ℕ };

    ghost view = { λ s. s.faults };
}

impl<'a, R: Print> StdNotes<'a, R> {
    /// The stream of `rt`, with no fault yet. Standard error is that of `rt.stderr()`.
    pub fn new(rt: &'a R) -> StdNotes<'a, R>
        ensures { result ≡ 0 }
    {
        StdNotes { rt, faults: 0 }
    }
}

impl<R: Print> Notes for StdNotes<'_, R> {
    ghost taken = { λ _. None };

    ghost faults = { λ count. count };

    fn note(&mut self, text: &str) -> Result<(), Failed> {
        match self.rt.write_all(text.as_bytes()) {
            Ok(()) => Ok(()),
            Err(_) => {
                self.faults = self.faults.saturating_add(1);
                Err(Failed)
            }
        }
    }
}
