//! Why a command stops short.

ghost use Rattle.std.specs.Prelude.{◌≡◌};
ghost use Rattle.drm_command.specs.declared.stop.Stop.TheVariants.{Memory as no_memory};

use crate::refusal::Refusal;
use drm_outside::Memory;

/// Why a command has no text of its own. Its outcome is a `Result` of that text and of this.
#[derive(Clone, Copy, Debug, PartialEq, Eq)]
pub enum Stop {
    /// It is refused.
    Refused(Refusal),
    /// The shelf failed at the name that the command loads, or lacks it.
    Load,
    /// The shelf failed at the name that the command saves.
    Save,
    /// The source failed.
    Source,
    /// There was no memory.
    Memory,
}

impl From<Memory> for Stop {
    ghost from_gives = { λ _ stop. stop ≡ no_memory };

    fn from(_: Memory) -> Self {
        Stop::Memory
    }
}
