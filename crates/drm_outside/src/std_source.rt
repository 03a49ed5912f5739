// Standard input as a source.
ghost use Rattle.std.specs.Prelude.{◌≡◌};

use crate::{Failed, Source};
use std::io::Read;
use std::marker::Model;

/// Standard input, read with no buffer of its own. It tells the content that the runtime's reader tells: of the real
/// standard input none. Contracts see it as that and its count of faults, which stands still at 2^64 - 1.
#[derive(Drop)]
pub struct StdSource<'a, R: Input> {
    rt: &'a R,
    reader: R::Reader,
    faults: u64,
}

impl<'a, R: Input> Model for StdSource<'a, R> {
    ghost use Rattle.drm_outside.specs.StdSource.{StdReads};

    ghost Value = { StdReads };

    ghost view = { λ s. record { left = R.Reader.remaining s.reader; faults = s.faults } };
}

impl<'a, R: Input> StdSource<'a, R> {
    /// The standard input of `rt`, with no fault yet.
    pub fn new(rt: &'a R) -> StdSource<'a, R>
        ensures { result.faults ≡ 0 }
    {
        StdSource {
            rt,
            reader: rt.reader(),
            faults: 0,
        }
    }
}

impl<R: Input> Source for StdSource<'_, R> {
    ghost left = { λ s. s.left };

    ghost faults = { λ s. s.faults };

    fn read(&mut self, into: &mut [u8]) -> Result<usize, Failed> {
        match self.reader.read(into) {
            Ok(count) => Ok(count),
            Err(_) => {
                self.faults = self.faults.saturating_add(1);
                Err(Failed)
            }
        }
    }
}
