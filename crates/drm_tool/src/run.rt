//! The top call.

ghost use Rattle.std.specs.Prelude.{◌≡◌, ◌⊎◌, IfOk, IfErr};
ghost use Rattle.std.specs.Result.{IsErrOf};
ghost use Rattle.std.specs.Io.KnownBytes.{Appends, Keeps};
ghost use Rattle.drm_outside.specs.Causes.{HasCause};
ghost use Rattle.drm_outside.specs.Shelving.{NeverFalls};
ghost use Rattle.drm_outside.specs.Writing.{AppendsPrefix};
ghost use Rattle.drm_command.specs.Status.{IsStatus, done, source_failed, sink_failed, shelf_failed, no_memory};
ghost use Rattle.drm_command.specs.Refusal.{IsRefusal, Refuses, Writes, Owes};
ghost use Rattle.drm_command.specs.Ending.{StopsWith};
ghost use Rattle.drm_tool.specs.Headline.{IsOverSample};
ghost use Rattle.drm_tool.specs.Outcome.{Does, CallsFor, Begins, BeginsLog, BeginsUnread, FailsAtName, FailsAtLoad, FailsAtSave, ChangesSaved};

use crate::commands::build::build_map;
use crate::commands::check::check_map;
use crate::commands::replay::replay_map;
use drm_command::{Refusal, Stop, build_names, check_name, finish, replay_words};
use drm_outside::{Gate, Shelf, Sink, Source, Word};
use std::alloc::Global;
use std::sync::Wait;
use std::thread::Threads;

/// Does all that the program does: builds the map of a robot, checks a map, or replays the log that the source gives
/// over a map, as the words say, and writes what comes of it to the sink. The answer is the exit status.
///
/// A replay serves each caller of the log in a thread of its own, which passes the gate as [`drm_work::work`] tells. No
/// clause says when memory is found, that a call which waits for a lock returns, or what a shelf, a source or a sink holds
/// that does not tell.
pub fn run<R: Threads + Wait + Sync, H: Shelf, S: Source, W: Sink, G: Gate>(
    rt: &R,
    alloc: Global,
    words: &[Word],
    shelf: &mut H,
    log: &mut S,
    out: &mut W,
    gate: &G,
) -> u8
    // The headline: the command was done, and its text was written. A replay read the whole log; whatever the schedule of
    // the callers' threads, the edits of its report number one history, every length that a reply names is no smaller than
    // its caller had seen, each count is recounted there, and each ask's answer is the plan there and tells what is true of
    // the obstacles. A check found that all stored sweeps pass; a build saved the map that its robot has.
    ensures done { result ≡ done → Writes
        (Does words.now (H.held shelf.old) (H.held shelf.new) (S.left log.old) (S.left log.new))
        (Appends (W.taken out.old) (W.taken out.new)) }

    // A refusal has its cause, its text was written whole, and nothing was saved.
    ensures refused { IsRefusal result → Refuses result
        (CallsFor words.now (H.held shelf.old) (H.held shelf.new) (S.left log.old) (S.left log.new))
        (Appends (W.taken out.old) (W.taken out.new)) }

    // The source failed: no more of it was taken than the limit, nothing was written, and nothing was saved.
    ensures source { result ≡ source_failed →
        BeginsLog words.now (H.held shelf.old) (H.held shelf.new) (S.left log.old) (S.left log.new)
        × Keeps (W.taken out.old) (W.taken out.new) }
    ensures read_fault { HasCause (result ≡ source_failed) (S.faults log.old) (S.faults log.new) }

    // The shelf failed at a name of the command: the log was not touched, and nothing was written.
    ensures shelf { result ≡ shelf_failed → BeginsUnread words.now (S.left log.old) (S.left log.new)
        × Keeps (W.taken out.old) (W.taken out.new) }
    ensures shelf_fault { result ≡ shelf_failed → FailsAtName words.now
        (H.load_faults shelf.old) (H.load_faults shelf.new) (H.save_faults shelf.old) (H.save_faults shelf.new) }
    ensures loads { NeverFalls (H.load_faults shelf.old) (H.load_faults shelf.new) }
    ensures saves { NeverFalls (H.save_faults shelf.old) (H.save_faults shelf.new) }

    // The sink failed, and a prefix of one of the texts above was written. What was saved stays.
    ensures sink { result ≡ sink_failed → Owes
        (Does words.now (H.held shelf.old) (H.held shelf.new) (S.left log.old) (S.left log.new))
        (CallsFor words.now (H.held shelf.old) (H.held shelf.new) (S.left log.old) (S.left log.new))
        (AppendsPrefix (W.taken out.old) (W.taken out.new)) }
    ensures write_fault { HasCause (result ≡ sink_failed) (W.faults out.old) (W.faults out.new) }

    // There was no memory: nothing was written, and no more of the log was taken than its limit; or such a prefix.
    ensures memory { result ≡ no_memory →
        (Begins words.now (S.left log.old) (S.left log.new) × Keeps (W.taken out.old) (W.taken out.new))
        ⊎ Owes
        (Does words.now (H.held shelf.old) (H.held shelf.new) (S.left log.old) (S.left log.new))
        (CallsFor words.now (H.held shelf.old) (H.held shelf.new) (S.left log.old) (S.left log.new))
        (AppendsPrefix (W.taken out.old) (W.taken out.new)) }

    // A command over the map that is built in leaves the shelf as it was: nothing was loaded.
    ensures sample { IsOverSample words.now → shelf.new ≡ shelf.old }

    // No name of the shelf changes but the one that a build saves, and there is no other status.
    ensures names { ChangesSaved words.now (H.held shelf.old) (H.held shelf.new) }
    ensures statuses { IsStatus result }
{
    let outcome = outcome_of(rt, alloc, words, shelf, log, gate);
    finish(alloc, outcome, out).status()
}

/// What the words, the shelf and the log come to.
pub fn outcome_of<R: Threads + Wait + Sync, H: Shelf, S: Source, G: Gate>(
    rt: &R,
    alloc: Global,
    words: &[Word],
    shelf: &mut H,
    log: &mut S,
    gate: &G,
) -> Result<Vec<u8>, Stop>
    ensures done { IfOk result (λ text.
        Does words.now (H.held shelf.old) (H.held shelf.new) (S.left log.old) (S.left log.new) text.items) }
    ensures stop { IfErr result (StopsWith
        (CallsFor words.now (H.held shelf.old) (H.held shelf.new) (S.left log.old) (S.left log.new))) }
    ensures at_source { IsErrOf result Stop.Source →
        BeginsLog words.now (H.held shelf.old) (H.held shelf.new) (S.left log.old) (S.left log.new) }
    ensures at_load { IsErrOf result Stop.Load → BeginsUnread words.now (S.left log.old) (S.left log.new) }
    ensures at_save { IsErrOf result Stop.Save → BeginsUnread words.now (S.left log.old) (S.left log.new) }
    ensures at_memory { IsErrOf result Stop.Memory → Begins words.now (S.left log.old) (S.left log.new) }
    ensures read_fault { HasCause (IsErrOf result Stop.Source) (S.faults log.old) (S.faults log.new) }
    ensures load_fault { IsErrOf result Stop.Load →
        FailsAtLoad words.now (H.load_faults shelf.old) (H.load_faults shelf.new) }
    ensures save_fault { IsErrOf result Stop.Save →
        FailsAtSave words.now (H.save_faults shelf.old) (H.save_faults shelf.new) }
    ensures loads { NeverFalls (H.load_faults shelf.old) (H.load_faults shelf.new) }
    ensures saves { NeverFalls (H.save_faults shelf.old) (H.save_faults shelf.new) }
    ensures sample { IsOverSample words.now → shelf.new ≡ shelf.old }
    ensures names { ChangesSaved words.now (H.held shelf.old) (H.held shelf.new) }
{
    if let Some((robot, map)) = build_names(words) {
        return build_map(rt, alloc, shelf, robot, map);
    }
    if let Some(map) = check_name(words) {
        return check_map(alloc, shelf, map);
    }
    if let Some(replay) = replay_words(words) {
        return replay_map(rt, alloc, shelf, log, &replay, gate);
    }
    Err(Stop::Refused(Refusal::NoCommand))
}
