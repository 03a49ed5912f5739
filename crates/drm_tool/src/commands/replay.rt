//! `replay MAP brief` and `replay MAP full`.

ghost use Rattle.std.specs.Prelude.{◌≡◌, ◌≤◌, All, IfOk, IfErr, length};
ghost use Rattle.std.specs.Result.{IsErrOf};
ghost use Rattle.std.specs.Io.KnownBytes.{Keeps};
ghost use Rattle.drm_outside.specs.Causes.{HasCause};
ghost use Rattle.drm_outside.specs.Reading.{TookAtMost};
ghost use Rattle.drm_outside.specs.Shelving.{HoldsTheSame, HasCauseAt, NeverFalls};
ghost use Rattle.drm_script.specs.Limits.{line_limit};
ghost use Rattle.drm_script.specs.Log.{IsLogLine};
ghost use Rattle.drm_command.specs.Command.{sample_name};
ghost use Rattle.drm_command.specs.Ending.{StopsWith};
ghost use Rattle.drm_command.specs.Limits.{log_limit};
ghost use Rattle.drm_tool.specs.Named.{IsLookedUp, HasMap};
ghost use Rattle.drm_tool.specs.Headline.{Replays, ReplaysOver, IsReportOf, IsReportText, IsServedLog, ReplayCallsFor, LogCallsFor, LogBytesCallFor, text_in};
ghost use Rattle.drm_tool.specs.Served.{IsServed};

use crate::named::load_map;
use crate::served::first_unserved;
use drm_cellmap::Map;
use drm_command::{Form, LOG_LIMIT, Refusal, ReplayWords, Stop};
use drm_outside::{Gate, List, Memory, ReadAllFault, Shelf, Source, read_all};
use drm_plan::passed_maps_are_never_unsound;
use drm_report::one_caller_is_exact;
use drm_script::{
    GoodLines, LinesFault, logs_read_one_way, print_brief, print_full, read_good_lines,
};
use drm_talk::{Line, Report};
use drm_work::replay;
use std::alloc::Global;
use std::sync::Wait;
use std::thread::Threads;

/// The text, in the form, of the report of the log that the source gives, over the map that the name stands for. The map
/// is there before the log is read. The callers pass the gate.
pub fn replay_map<R: Threads + Wait + Sync, H: Shelf, S: Source, G: Gate>(
    rt: &R,
    alloc: Global,
    shelf: &mut H,
    log: &mut S,
    words: &ReplayWords<'_>,
    gate: &G,
) -> Result<Vec<u8>, Stop>
    ensures done { IfOk result (λ text.
        Replays (H.held shelf.old) words.now.map.now words.now.form (S.left log.old) (S.left log.new) text.items) }
    ensures stop { IfErr result (StopsWith
        (ReplayCallsFor (H.held shelf.old) words.now.map.now (S.left log.old) (S.left log.new))) }
    ensures no_save { ¬ IsErrOf result Stop.Save }
    ensures at_load { IsErrOf result Stop.Load →
        IsLookedUp words.now.map.now × Keeps (S.left log.old) (S.left log.new) }
    ensures at_source { IsErrOf result Stop.Source →
        HasMap (H.held shelf.old) words.now.map.now × TookAtMost (S.left log.old) (S.left log.new) log_limit }
    ensures at_memory { IsErrOf result Stop.Memory → TookAtMost (S.left log.old) (S.left log.new) log_limit }
    ensures sample { words.now.map.now ≡ sample_name → shelf.new ≡ shelf.old }
    ensures kept { HoldsTheSame (H.held shelf.old) (H.held shelf.new) }
    ensures cause { HasCauseAt (IsErrOf result Stop.Load) words.now.map.now
        (H.load_faults shelf.old) (H.load_faults shelf.new) }
    ensures save_cause { NeverFalls (H.save_faults shelf.old) (H.save_faults shelf.new) }
    ensures read_cause { HasCause (IsErrOf result Stop.Source) (S.faults log.old) (S.faults log.new) }
{
    let map = load_map(alloc, shelf, words.map)?;
    replay_log(rt, alloc, map, log, words.form, gate)
}

/// The text of the report of the log that the source gives.
fn replay_log<R: Threads + Wait + Sync, S: Source, G: Gate>(
    rt: &R,
    alloc: Global,
    map: Map,
    log: &mut S,
    form: Form,
    gate: &G,
) -> Result<Vec<u8>, Stop>
    ensures done { IfOk result (λ text. ReplaysOver map form (S.left log.old) (S.left log.new) text.items) }
    ensures stop { IfErr result (StopsWith (LogCallsFor (length map.arm) (S.left log.old) (S.left log.new))) }
    ensures no_load { ¬ IsErrOf result Stop.Load }
    ensures no_save { ¬ IsErrOf result Stop.Save }
    ensures at_source { IsErrOf result Stop.Source → TookAtMost (S.left log.old) (S.left log.new) log_limit }
    ensures at_memory { IsErrOf result Stop.Memory → TookAtMost (S.left log.old) (S.left log.new) log_limit }
    ensures cause { HasCause (IsErrOf result Stop.Source) (S.faults log.old) (S.faults log.new) }
{
    match read_all(alloc, log, LOG_LIMIT) {
        Ok(bytes) => replay_bytes(rt, alloc, map, &bytes, form, gate),
        Err(ReadAllFault::Failed) => Err(Stop::Source),
        Err(ReadAllFault::TooLong(_)) => Err(Stop::Refused(Refusal::LongLog)),
        Err(ReadAllFault::Memory) => Err(Stop::Memory),
    }
}

/// The text of the report of these bytes of log.
fn replay_bytes<R: Threads + Wait + Sync, G: Gate>(
    rt: &R,
    alloc: Global,
    map: Map,
    bytes: &[u8],
    form: Form,
    gate: &G,
) -> Result<Vec<u8>, Stop>
    ensures done { IfOk result (λ text. IsReportOf map form bytes.now text.items) }
    ensures stop { IfErr result (StopsWith (LogBytesCallFor (length map.arm) bytes.now)) }
    ensures no_load { ¬ IsErrOf result Stop.Load }
    ensures no_save { ¬ IsErrOf result Stop.Save }
    ensures no_source { ¬ IsErrOf result Stop.Source }
{
    let lines = lines_of(alloc, bytes, map.arm().links())?;
    Ok(report_text(rt, alloc, map, lines, form, gate)?)
}

/// The lines of the log, all of which are served.
fn lines_of(alloc: Global, bytes: &[u8], joints: u32) -> Result<List<Line>, Stop>
    ensures lines { IfOk result (IsServedLog joints bytes.now) }
    ensures stop { IfErr result (StopsWith (LogBytesCallFor joints bytes.now)) }
    ensures no_load { ¬ IsErrOf result Stop.Load }
    ensures no_save { ¬ IsErrOf result Stop.Save }
    ensures no_source { ¬ IsErrOf result Stop.Source }
{
    // The law on which the proof rests.
    logs_read_one_way();

    let GoodLines { lines, bad } = match read_good_lines(alloc, bytes, joints) {
        Ok(found) => found,
        Err(LinesFault::Lines(count)) => return Err(Stop::Refused(Refusal::LongLines(count))),
        Err(LinesFault::Memory) => return Err(Stop::Memory),
    };
    // A line that is not served stands before the bad one.
    if let Some(line) = first_unserved(lines.as_slice()) {
        return Err(Stop::Refused(Refusal::Unserved(line)));
    }
    match bad {
        Some(line) => Err(Stop::Refused(Refusal::NoLog(line))),
        None => Ok(lines),
    }
}

/// The text of the report of these lines over the map, with each caller's lines served in a thread of the caller's own.
fn report_text<R: Threads + Wait + Sync, G: Gate>(
    rt: &R,
    alloc: Global,
    map: Map,
    lines: List<Line>,
    form: Form,
    gate: &G,
) -> Result<Vec<u8>, Memory>
    requires served { All IsServed lines }
    requires in_grammar { All (IsLogLine (length map.arm)) lines }
    requires few { length lines ≤ line_limit }
    ensures { IfOk result (λ text. IsReportText map form lines text.items) }
{
    // The laws on which the proof rests.
    passed_maps_are_never_unsound();
    one_caller_is_exact();

    let replayed = replay(rt, alloc, map, lines, gate)?;
    print(alloc, &replayed.report, form)
}

/// The text of the report in the form.
fn print(alloc: Global, report: &Report, form: Form) -> Result<Vec<u8>, Memory>
    ensures { IfOk result (λ text. text.items ≡ text_in form report.now) }
{
    match form {
        Form::Brief => print_brief(alloc, report),
        Form::Full => print_full(alloc, report),
    }
}
