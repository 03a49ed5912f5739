//! How a call ends: the text of its outcome is written.

ghost use Rattle.std.specs.Prelude.{◌≡◌, ◌≢◌};
ghost use Rattle.drm_outside.specs.Causes.{HasCause};
ghost use Rattle.drm_command.specs.Refusal.{line_of};
ghost use Rattle.drm_command.specs.Ending.{Ends, IsWritten, status_of};
ghost use Rattle.drm_command.specs.declared.stop.Stop.TheVariants.{Refused};
ghost use Rattle.drm_command.specs.declared.ending.End.TheVariants.{Stopped, Sink as no_sink};

use crate::refusal::Refusal;
use crate::status::{DONE, NO_MEMORY, SHELF_FAILED, SINK_FAILED, SOURCE_FAILED};
use crate::stop::Stop;
use drm_outside::{Memory, Sink, WriteFault, write_all};
use std::alloc::Global;

/// What a call ends with.
#[derive(Clone, Copy, Debug, PartialEq, Eq)]
pub enum End {
    /// The command was done, and its text was written whole.
    Done,
    /// It stopped short. Where it was refused, the text of the refusal was written whole.
    Stopped(Stop),
    /// The sink failed at the text of the command or of its refusal.
    Sink,
}

impl End {
    /// The exit status.
    pub fn status(&self) -> u8
        ensures { result ≡ status_of self.now }
    {
        match self {
            End::Done => DONE,
            End::Stopped(Stop::Refused(refusal)) => refusal.status(),
            End::Stopped(Stop::Load | Stop::Save) => SHELF_FAILED,
            End::Stopped(Stop::Source) => SOURCE_FAILED,
            End::Stopped(Stop::Memory) => NO_MEMORY,
            End::Sink => SINK_FAILED,
        }
    }
}

/// Writes the text of the outcome, and says what the call ends with.
pub fn finish<W: Sink>(alloc: Global, outcome: Result<Vec<u8>, Stop>, out: &mut W) -> End
    ensures ended { Ends outcome result (W.taken out.old) (W.taken out.new) }
    ensures write_fault { HasCause (result ≡ no_sink) (W.faults out.old) (W.faults out.new) }
{
    match outcome {
        Ok(text) => write(End::Done, &text, out),
        Err(Stop::Refused(refusal)) => refuse(alloc, refusal, out),
        Err(stop) => End::Stopped(stop),
    }
}

/// Writes the text of the refusal.
fn refuse<W: Sink>(alloc: Global, refusal: Refusal, out: &mut W) -> End
    ensures ended { IsWritten (Stopped (Refused refusal)) (line_of refusal) result (W.taken out.old) (W.taken out.new) }
    ensures write_fault { HasCause (result ≡ no_sink) (W.faults out.old) (W.faults out.new) }
{
    match refusal.line(alloc) {
        Ok(line) => write(End::Stopped(Stop::Refused(refusal)), &line, out),
        Err(Memory) => End::Stopped(Stop::Memory),
    }
}

/// Writes the text, and says this end or why it was not written whole.
fn write<W: Sink>(whole: End, text: &[u8], out: &mut W) -> End
    requires { whole ≢ no_sink }
    ensures written { IsWritten whole text.now result (W.taken out.old) (W.taken out.new) }
    ensures write_fault { HasCause (result ≡ no_sink) (W.faults out.old) (W.faults out.new) }
{
    match write_all(out, text) {
        Ok(()) => whole,
        Err(WriteFault::Failed) => End::Sink,
        Err(WriteFault::Memory) => End::Stopped(Stop::Memory),
    }
}
