//! `check MAP`.

ghost use Rattle.std.specs.Prelude.{◌≡◌, ◌⊎◌, IfOk, IfErr};
ghost use Rattle.std.specs.Result.{IsErrOf};
ghost use Rattle.std.specs.Io.KnownBytes.{Appends, Keeps};
ghost use Rattle.drm_outside.specs.Causes.{HasCause};
ghost use Rattle.drm_outside.specs.Shelving.{HoldsTheSame, HasCauseAt, NeverFalls};
ghost use Rattle.drm_outside.specs.Writing.{AppendsPrefix};
ghost use Rattle.drm_command.specs.Status.{IsStatus, done, sink_failed, shelf_failed, no_memory};
ghost use Rattle.drm_command.specs.Refusal.{IsRefusal, Refuses, Writes, Owes};
ghost use Rattle.drm_command.specs.Command.{Check, IsCommand, IsCheck, sample_name};
ghost use Rattle.drm_command.specs.Ending.{StopsWith};
ghost use Rattle.drm_tool.specs.Named.{IsLookedUp};
ghost use Rattle.drm_tool.specs.Check.{PassesMap, CheckCallsFor, TellsVerdict, Passes, passed_text, CheckFails, ChecksWords, CheckWordsCallFor};

use crate::named::load_map;
use drm_cellmap::Map;
use drm_command::{Refusal, Stop, check_name, finish};
use drm_mapfile::{MapVerdict, check};
use drm_outside::{Memory, Shelf, Sink, Word};
use std::alloc::Global;

/// Does `check MAP`, and answers the exit status: loads the map, judges its stored sweeps and writes what is found.
/// Words of another command are none. No name of the shelf changes.
pub fn run_check<H: Shelf, W: Sink>(alloc: Global, words: &[Word], shelf: &mut H, out: &mut W) -> u8
    // The stored sweeps of the map all pass, and this was written.
    ensures done { result ≡ done → Writes (ChecksWords words.now (H.held shelf.old))
        (Appends (W.taken out.old) (W.taken out.new)) }

    // A refusal has its cause, and its text was written whole: among them is what is found of a map that does not pass.
    ensures refused { IsRefusal result → Refuses result (CheckWordsCallFor words.now (H.held shelf.old))
        (Appends (W.taken out.old) (W.taken out.new)) }

    // The shelf failed at the map, or lacks it: nothing was written.
    ensures shelf { result ≡ shelf_failed → Keeps (W.taken out.old) (W.taken out.new) }
    ensures shelf_fault { result ≡ shelf_failed →
        CheckFails words.now (H.load_faults shelf.old) (H.load_faults shelf.new) }

    // The sink failed, and a prefix of one of the texts above was written.
    ensures sink { result ≡ sink_failed → Owes (ChecksWords words.now (H.held shelf.old))
        (CheckWordsCallFor words.now (H.held shelf.old)) (AppendsPrefix (W.taken out.old) (W.taken out.new)) }
    ensures write_fault { HasCause (result ≡ sink_failed) (W.faults out.old) (W.faults out.new) }

    // There was no memory: nothing was written, or such a prefix.
    ensures memory { result ≡ no_memory → (IsCheck words.now × Keeps (W.taken out.old) (W.taken out.new))
        ⊎ Owes (ChecksWords words.now (H.held shelf.old))
        (CheckWordsCallFor words.now (H.held shelf.old)) (AppendsPrefix (W.taken out.old) (W.taken out.new)) }

    // A check of the map that is built in leaves the shelf as it was.
    ensures sample { IsCommand words.now (Check sample_name) → shelf.new ≡ shelf.old }

    // No name changes, no count falls, and there is no other status.
    ensures kept { HoldsTheSame (H.held shelf.old) (H.held shelf.new) }
    ensures loads { NeverFalls (H.load_faults shelf.old) (H.load_faults shelf.new) }
    ensures saves { NeverFalls (H.save_faults shelf.old) (H.save_faults shelf.new) }
    ensures statuses { IsStatus result }
{
    let outcome = check_words(alloc, words, shelf);
    finish(alloc, outcome, out).status()
}

/// What the words come to, if they are this command.
fn check_words<H: Shelf>(alloc: Global, words: &[Word], shelf: &mut H) -> Result<Vec<u8>, Stop>
    ensures done { IfOk result (λ text. ChecksWords words.now (H.held shelf.old) text.items) }
    ensures stop { IfErr result (StopsWith (CheckWordsCallFor words.now (H.held shelf.old))) }
    ensures no_save { ¬ IsErrOf result Stop.Save }
    ensures no_source { ¬ IsErrOf result Stop.Source }
    ensures at_memory { IsErrOf result Stop.Memory → IsCheck words.now }
    ensures sample { IsCommand words.now (Check sample_name) → shelf.new ≡ shelf.old }
    ensures kept { HoldsTheSame (H.held shelf.old) (H.held shelf.new) }
    ensures fault { IsErrOf result Stop.Load →
        CheckFails words.now (H.load_faults shelf.old) (H.load_faults shelf.new) }
    ensures loads { NeverFalls (H.load_faults shelf.old) (H.load_faults shelf.new) }
    ensures saves { NeverFalls (H.save_faults shelf.old) (H.save_faults shelf.new) }
{
    if let Some(map) = check_name(words) {
        return check_map(alloc, shelf, map);
    }
    Err(Stop::Refused(Refusal::NoCommand))
}

/// `passed`, where the stored sweeps of the map all pass.
pub fn check_map<H: Shelf>(alloc: Global, shelf: &mut H, name: &str) -> Result<Vec<u8>, Stop>
    ensures done { IfOk result (λ text. PassesMap (H.held shelf.old) name.now text.items) }
    ensures stop { IfErr result (StopsWith (CheckCallsFor (H.held shelf.old) name.now)) }
    ensures no_save { ¬ IsErrOf result Stop.Save }
    ensures no_source { ¬ IsErrOf result Stop.Source }
    ensures sample { name.now ≡ sample_name → shelf.new ≡ shelf.old }
    ensures kept { HoldsTheSame (H.held shelf.old) (H.held shelf.new) }
    ensures looked_up { IsErrOf result Stop.Load → IsLookedUp name.now }
    ensures cause { HasCauseAt (IsErrOf result Stop.Load) name.now (H.load_faults shelf.old) (H.load_faults shelf.new) }
    ensures save_cause { NeverFalls (H.save_faults shelf.old) (H.save_faults shelf.new) }
{
    let map = load_map(alloc, shelf, name)?;
    judge(alloc, &map)
}

/// `passed`, or what a check of the map finds.
fn judge(alloc: Global, map: &Map) -> Result<Vec<u8>, Stop>
    ensures done { IfOk result (λ text. Passes map.now text.items) }
    ensures stop { IfErr result (StopsWith (TellsVerdict map.now)) }
    ensures no_load { ¬ IsErrOf result Stop.Load }
    ensures no_save { ¬ IsErrOf result Stop.Save }
    ensures no_source { ¬ IsErrOf result Stop.Source }
{
    match check(alloc, map)? {
        MapVerdict::Passed => Ok(passed(alloc)?),
        MapVerdict::Lacks(element, cell) => Err(Stop::Refused(Refusal::Lacks(element, cell))),
        MapVerdict::Loose(element, cell) => Err(Stop::Refused(Refusal::Loose(element, cell))),
    }
}

/// The text that tells that a map passes.
fn passed(alloc: Global) -> Result<Vec<u8>, Memory>
    ensures { IfOk result (λ text. text.items ≡ passed_text) }
{
    Ok(Vec::from_slice(alloc, b"passed\n")?)
}
