//! What the system hands to the program, and the exit code that it gets back.

ghost use Rattle.std.specs.Prelude.{◌≡◌, ◌⊎◌, IfOk, IsErr};
ghost use Rattle.std.specs.Io.KnownBytes.{Appends, Keeps};
ghost use Rattle.std.specs.Process.{exit_status};
ghost use Rattle.drm_outside.specs.Causes.{HasCause};
ghost use Rattle.drm_outside.specs.Shelving.{NeverFalls};
ghost use Rattle.drm_outside.specs.Writing.{AppendsPrefix};
ghost use Rattle.drm_command.specs.Status.{IsStatus, done, source_failed, sink_failed, shelf_failed, no_memory};
ghost use Rattle.drm_command.specs.Refusal.{IsRefusal, Refuses, Writes, Owes};
ghost use Rattle.drm_command.specs.Note.{IsTold};
ghost use Rattle.drm_tool.specs.Headline.{IsOverSample};
ghost use Rattle.drm_tool.specs.Outcome.{Does, CallsFor, Begins, BeginsLog, BeginsUnread, FailsAtName, FailsAtLoad, FailsAtSave, ChangesSaved};
ghost use Rattle.drm_tool.specs.Start.{LacksMemory, words_given};
ghost use Rattle.drm_tool.specs.Noted.{IsTrueEnd, IsNoted};

use crate::run::outcome_of;
use drm_command::{End, Notes, Stop, finish, tell};
use drm_outside::{Gate, Memory, Shelf, Sink, Source, Word};
use std::alloc::Global;
use std::env::Args;
use std::io;
use std::io::ErrorKind;
use std::process::ExitCode;
use std::sync::Wait;
use std::thread::Threads;

/// Runs the program on the arguments that the system gave, and tells `notes` what it ends with, unless it is done. Where
/// there was no memory for the arguments, nothing is run. The gate is passed as in a run.
pub fn start<R: Threads + Wait + Sync, H: Shelf, S: Source, W: Sink, N: Notes, G: Gate>(
    rt: &R,
    alloc: Global,
    arguments: io::Result<Args>,
    shelf: &mut H,
    log: &mut S,
    out: &mut W,
    notes: &mut N,
    gate: &G,
) -> ExitCode
    // The headline: the command was done, and its text was written. A replay read the whole log; whatever the schedule of
    // the callers' threads, the edits of its report number one history, every length that a reply names is no smaller than
    // its caller had seen, each count is recounted there, and each ask's answer is the plan there and tells what is true of
    // the obstacles. A check found that all stored sweeps pass; a build saved the map that its robot has.
    ensures done { exit_status result ≡ done → Writes
        (Does (words_given arguments) (H.held shelf.old) (H.held shelf.new) (S.left log.old) (S.left log.new))
        (Appends (W.taken out.old) (W.taken out.new)) }

    // A refusal has its cause, its text was written whole, and nothing was saved.
    ensures refused { IsRefusal (exit_status result) → Refuses (exit_status result)
        (CallsFor (words_given arguments) (H.held shelf.old) (H.held shelf.new) (S.left log.old) (S.left log.new))
        (Appends (W.taken out.old) (W.taken out.new)) }

    // The source failed: no more of it was taken than the limit, nothing was written, and nothing was saved.
    ensures source { exit_status result ≡ source_failed →
        BeginsLog (words_given arguments) (H.held shelf.old) (H.held shelf.new) (S.left log.old) (S.left log.new)
        × Keeps (W.taken out.old) (W.taken out.new) }
    ensures read_fault { HasCause (exit_status result ≡ source_failed) (S.faults log.old) (S.faults log.new) }

    // The shelf failed at a name of the command: the log was not touched, and nothing was written.
    ensures shelf { exit_status result ≡ shelf_failed →
        BeginsUnread (words_given arguments) (S.left log.old) (S.left log.new) × Keeps (W.taken out.old) (W.taken out.new) }
    ensures shelf_fault { exit_status result ≡ shelf_failed → FailsAtName (words_given arguments)
        (H.load_faults shelf.old) (H.load_faults shelf.new) (H.save_faults shelf.old) (H.save_faults shelf.new) }
    ensures loads { NeverFalls (H.load_faults shelf.old) (H.load_faults shelf.new) }
    ensures saves { NeverFalls (H.save_faults shelf.old) (H.save_faults shelf.new) }

    // The sink failed, and a prefix of one of the texts above was written. What was saved stays.
    ensures sink { exit_status result ≡ sink_failed → Owes
        (Does (words_given arguments) (H.held shelf.old) (H.held shelf.new) (S.left log.old) (S.left log.new))
        (CallsFor (words_given arguments) (H.held shelf.old) (H.held shelf.new) (S.left log.old) (S.left log.new))
        (AppendsPrefix (W.taken out.old) (W.taken out.new)) }
    ensures write_fault { HasCause (exit_status result ≡ sink_failed) (W.faults out.old) (W.faults out.new) }

    // There was no memory: for the arguments, and nothing was read or written; or as in a run.
    ensures memory { exit_status result ≡ no_memory →
        (Keeps (S.left log.old) (S.left log.new) × Keeps (W.taken out.old) (W.taken out.new))
        ⊎ ((Begins (words_given arguments) (S.left log.old) (S.left log.new) × Keeps (W.taken out.old) (W.taken out.new))
        ⊎ Owes
        (Does (words_given arguments) (H.held shelf.old) (H.held shelf.new) (S.left log.old) (S.left log.new))
        (CallsFor (words_given arguments) (H.held shelf.old) (H.held shelf.new) (S.left log.old) (S.left log.new))
        (AppendsPrefix (W.taken out.old) (W.taken out.new))) }
    ensures arguments { LacksMemory arguments → exit_status result ≡ no_memory }

    // The note of a true end with this status was taken, whole or, where `notes` failed, in part. There is none where the
    // command was done, and it lacks the reason of a fault where there was no memory for it.
    ensures noted { IsNoted (exit_status result) (words_given arguments)
        (IsTrueEnd (CallsFor (words_given arguments) (H.held shelf.old) (H.held shelf.new) (S.left log.old) (S.left log.new))
        (FailsAtLoad (words_given arguments) (H.load_faults shelf.old) (H.load_faults shelf.new))
        (FailsAtSave (words_given arguments) (H.save_faults shelf.old) (H.save_faults shelf.new)))
        (λ note. IsTold note (N.taken notes.old) (N.taken notes.new) (N.faults notes.old) (N.faults notes.new)) }
    ensures silent { exit_status result ≡ done → notes.new ≡ notes.old }

    // A command over the map that is built in leaves the shelf as it was: nothing was loaded.
    ensures sample { IsOverSample (words_given arguments) → shelf.new ≡ shelf.old }

    // No name of the shelf changes but the one that a build saves, and there is no other status.
    ensures names { ChangesSaved (words_given arguments) (H.held shelf.old) (H.held shelf.new) }
    ensures statuses { IsStatus (exit_status result) }
{
    match words_of(alloc, arguments) {
        Ok(words) => {
            let outcome = outcome_of(rt, alloc, &words, shelf, log, gate);
            let end = finish(alloc, outcome, out);
            tell(alloc, &end, &words, notes);
            ExitCode::from(end.status())
        }
        Err(Memory) => {
            let end = End::Stopped(Stop::Memory);
            tell(alloc, &end, &[], notes);
            ExitCode::from(end.status())
        }
    }
}

/// The words behind the program's name. Arguments that are no text give none, which is no command.
fn words_of(alloc: Global, arguments: io::Result<Args>) -> Result<Vec<Word>, Memory>
    ensures words { IfOk result (λ words. words.items ≡ words_given arguments) }
    ensures memory { LacksMemory arguments → IsErr result }
{
    match arguments {
        Ok(arguments) => Ok(arguments.skip(1).map(Word::of).collect(alloc)?),
        Err(error) if error.kind() == ErrorKind::OutOfMemory => Err(Memory),
        Err(_) => Ok(Vec::new(alloc)),
    }
}
