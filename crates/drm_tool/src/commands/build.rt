//! `build ROBOT MAP`.

ghost use Rattle.std.specs.Prelude.{◌≡◌, ◌⊎◌, ◌<◌, IfOk, IfErr, OnOk};
ghost use Rattle.std.specs.Result.{IsErrOf};
ghost use Rattle.std.specs.Io.KnownBytes.{Appends, Keeps};
ghost use Rattle.drm_outside.specs.Causes.{HasCause, Rose};
ghost use Rattle.drm_outside.specs.Shelving.{HoldsAt, HoldsTheSame, HoldsOthers, HasCauseAt, NeverFalls};
ghost use Rattle.drm_outside.specs.Writing.{AppendsPrefix};
ghost use Rattle.drm_cellmap.specs.Roadmap.{entries_of};
ghost use Rattle.drm_command.specs.Status.{IsStatus, done, sink_failed, shelf_failed, no_memory};
ghost use Rattle.drm_command.specs.Refusal.{IsRefusal, Refuses, Writes, Owes};
ghost use Rattle.drm_command.specs.Command.{IsBuild};
ghost use Rattle.drm_command.specs.Ending.{StopsWith};
ghost use Rattle.drm_tool.specs.Build.{IsRobotOn, IsFileOf, BuildsMap, RobotCallsFor, RobotBytesCallFor, SweepsCallFor, BuildCallsFor, BuildIsRefused, ReadsRobot, built_line, BuildFails, BuildsWords, BuildWordsCallFor, element_at};
ghost use Rattle.drm_tool.specs.Outcome.{ChangesSaved};

use drm_build::{BuildFault, build};
use drm_cellmap::Map;
use drm_command::{ROBOT_LIMIT, Refusal, Stop, build_names, finish};
use drm_mapfile::write;
use drm_outside::{LoadFault, Memory, Shelf, Sink, Word, WriteFault};
use drm_robot::{Robot, RobotFault, read};
use drm_talk::Element;
use std::alloc::Global;
use std::thread::Threads;

/// Does `build ROBOT MAP`, and answers the exit status: loads the robot, builds its map, saves the map's file and writes
/// its numbers. Words of another command are none.
///
/// The threads change nothing in the result. After a save that failed nothing is known of the name that it was to save.
pub fn run_build<R: Threads + Sync, H: Shelf, W: Sink>(
    rt: &R,
    alloc: Global,
    words: &[Word],
    shelf: &mut H,
    out: &mut W,
) -> u8
    // The file of the map that the robot has stands under its name, and the map's numbers were written.
    ensures done { result ≡ done → Writes (BuildsWords words.now (H.held shelf.old) (H.held shelf.new))
        (Appends (W.taken out.old) (W.taken out.new)) }

    // A refusal has its cause, its text was written whole, and nothing was saved.
    ensures refused { IsRefusal result → Refuses result
        (BuildWordsCallFor words.now (H.held shelf.old) (H.held shelf.new))
        (Appends (W.taken out.old) (W.taken out.new)) }

    // The shelf failed at the robot or at the map, or lacks the robot: nothing was written.
    ensures shelf { result ≡ shelf_failed → Keeps (W.taken out.old) (W.taken out.new) }
    ensures shelf_fault { result ≡ shelf_failed → BuildFails words.now
        (H.load_faults shelf.old) (H.load_faults shelf.new) (H.save_faults shelf.old) (H.save_faults shelf.new) }
    ensures loads { NeverFalls (H.load_faults shelf.old) (H.load_faults shelf.new) }
    ensures saves { NeverFalls (H.save_faults shelf.old) (H.save_faults shelf.new) }

    // The sink failed, and a prefix of one of the texts above was written. What was saved stays.
    ensures sink { result ≡ sink_failed → Owes (BuildsWords words.now (H.held shelf.old) (H.held shelf.new))
        (BuildWordsCallFor words.now (H.held shelf.old) (H.held shelf.new))
        (AppendsPrefix (W.taken out.old) (W.taken out.new)) }
    ensures write_fault { HasCause (result ≡ sink_failed) (W.faults out.old) (W.faults out.new) }

    // There was no memory: nothing was written, or such a prefix.
    ensures memory { result ≡ no_memory → (IsBuild words.now × Keeps (W.taken out.old) (W.taken out.new))
        ⊎ Owes (BuildsWords words.now (H.held shelf.old) (H.held shelf.new))
        (BuildWordsCallFor words.now (H.held shelf.old) (H.held shelf.new))
        (AppendsPrefix (W.taken out.old) (W.taken out.new)) }

    // No name changes but the one that is saved, and there is no other status.
    ensures names { ChangesSaved words.now (H.held shelf.old) (H.held shelf.new) }
    ensures statuses { IsStatus result }
{
    let outcome = build_words(rt, alloc, words, shelf);
    finish(alloc, outcome, out).status()
}

/// What the words come to, if they are this command.
fn build_words<R: Threads + Sync, H: Shelf>(
    rt: &R,
    alloc: Global,
    words: &[Word],
    shelf: &mut H,
) -> Result<Vec<u8>, Stop>
    ensures done { IfOk result (λ text. BuildsWords words.now (H.held shelf.old) (H.held shelf.new) text.items) }
    ensures stop { IfErr result (StopsWith (BuildWordsCallFor words.now (H.held shelf.old) (H.held shelf.new))) }
    ensures no_source { ¬ IsErrOf result Stop.Source }
    ensures at_memory { IsErrOf result Stop.Memory → IsBuild words.now }
    ensures at_load { IsErrOf result Stop.Load → BuildFails words.now
        (H.load_faults shelf.old) (H.load_faults shelf.new) (H.save_faults shelf.old) (H.save_faults shelf.new) }
    ensures at_save { IsErrOf result Stop.Save → BuildFails words.now
        (H.load_faults shelf.old) (H.load_faults shelf.new) (H.save_faults shelf.old) (H.save_faults shelf.new) }
    ensures loads { NeverFalls (H.load_faults shelf.old) (H.load_faults shelf.new) }
    ensures saves { NeverFalls (H.save_faults shelf.old) (H.save_faults shelf.new) }
    ensures names { ChangesSaved words.now (H.held shelf.old) (H.held shelf.new) }
{
    if let Some((robot, map)) = build_names(words) {
        return build_map(rt, alloc, shelf, robot, map);
    }
    Err(Stop::Refused(Refusal::NoCommand))
}

/// The numbers of the map that is built for the robot of one name, and saved under the other.
pub fn build_map<R: Threads + Sync, H: Shelf>(
    rt: &R,
    alloc: Global,
    shelf: &mut H,
    robot: &str,
    map: &str,
) -> Result<Vec<u8>, Stop>
    ensures done { IfOk result (λ text. BuildsMap (H.held shelf.old) (H.held shelf.new) robot.now map.now text.items) }
    ensures stop { IfErr result (StopsWith (BuildIsRefused (H.held shelf.old) (H.held shelf.new) robot.now)) }
    ensures no_source { ¬ IsErrOf result Stop.Source }
    ensures others { HoldsOthers (H.held shelf.old) (H.held shelf.new) map.now }
    ensures at_load { IsErrOf result Stop.Load →
        Rose (H.load_faults shelf.old robot.now) (H.load_faults shelf.new robot.now) }
    ensures at_save { IsErrOf result Stop.Save →
        Rose (H.save_faults shelf.old map.now) (H.save_faults shelf.new map.now) }
    ensures loads { NeverFalls (H.load_faults shelf.old) (H.load_faults shelf.new) }
    ensures saves { NeverFalls (H.save_faults shelf.old) (H.save_faults shelf.new) }
{
    let robot = load_robot(alloc, shelf, robot)?;
    let (bytes, text) = file_of(rt, alloc, &robot)?;
    save(shelf, map, &bytes)?;
    Ok(text)
}

/// The robot that the name stands for.
fn load_robot<H: Shelf>(alloc: Global, shelf: &mut H, name: &str) -> Result<Robot, Stop>
    ensures robot { IfOk result (IsRobotOn (H.held shelf.old) name.now) }
    ensures stop { IfErr result (StopsWith (RobotCallsFor (H.held shelf.old) name.now)) }
    ensures no_save { ¬ IsErrOf result Stop.Save }
    ensures no_source { ¬ IsErrOf result Stop.Source }
    ensures kept { HoldsTheSame (H.held shelf.old) (H.held shelf.new) }
    ensures cause { HasCauseAt (IsErrOf result Stop.Load) name.now (H.load_faults shelf.old) (H.load_faults shelf.new) }
    ensures save_cause { NeverFalls (H.save_faults shelf.old) (H.save_faults shelf.new) }
{
    match shelf.load(alloc, name, ROBOT_LIMIT) {
        Ok(bytes) => robot_of(alloc, &bytes),
        Err(LoadFault::Failed) => Err(Stop::Load),
        Err(LoadFault::TooLong(_)) => Err(Stop::Refused(Refusal::LongRobot)),
        Err(LoadFault::Memory) => Err(Stop::Memory),
    }
}

/// The robot that the bytes describe.
fn robot_of(alloc: Global, bytes: &[u8]) -> Result<Robot, Stop>
    ensures robot { IfOk result (ReadsRobot bytes.now) }
    ensures stop { IfErr result (StopsWith (RobotBytesCallFor bytes.now)) }
    ensures no_load { ¬ IsErrOf result Stop.Load }
    ensures no_save { ¬ IsErrOf result Stop.Save }
    ensures no_source { ¬ IsErrOf result Stop.Source }
{
    match read(alloc, bytes) {
        Ok(robot) => Ok(robot),
        Err(RobotFault::Memory) => Err(Stop::Memory),
        Err(fault) => Err(Stop::Refused(Refusal::NoRobot(fault))),
    }
}

/// The file of the robot's map, and the text that tells its numbers.
fn file_of<R: Threads + Sync>(
    rt: &R,
    alloc: Global,
    robot: &Robot,
) -> Result<(Vec<u8>, Vec<u8>), Stop>
    ensures file { IfOk result (λ x. IsFileOf robot.now x.0.items x.1.items) }
    ensures stop { IfErr result (StopsWith (SweepsCallFor robot.now)) }
    ensures no_load { ¬ IsErrOf result Stop.Load }
    ensures no_save { ¬ IsErrOf result Stop.Save }
    ensures no_source { ¬ IsErrOf result Stop.Source }
{
    match build(rt, alloc, robot) {
        Ok(map) => Ok((write(alloc, &map)?, built(alloc, &map)?)),
        Err(BuildFault::Total(entries)) => Err(Stop::Refused(Refusal::LongSweeps(entries))),
        Err(BuildFault::Memory) => Err(Stop::Memory),
    }
}

/// The text that tells the numbers of a map.
fn built(alloc: Global, map: &Map) -> Result<Vec<u8>, Memory>
    ensures { IfOk result (λ text. text.items ≡ built_line map.now) }
{
    let (nodes, edges, entries) = (map.road().nodes(), map.road().edges(), entries(map));
    let mut text = String::new(alloc);
    writeln!(text, "built {nodes} {edges} {entries}")?;
    Ok(text.into_bytes())
}

/// How many cells the stored sweeps have together.
fn entries(map: &Map) -> u64
    ensures { result ≡ entries_of map.now.sweeps }
{
    let nodes = map.road().nodes();
    let mut total = 0;
    for place in 0..nodes + map.road().edges() {
        total += map.stored(element(nodes, place)).len() as u64;
    }
    total
}

/// The element at the place: the nodes come before the edges.
fn element(nodes: u32, place: u32) -> Element
    ensures { result ≡ element_at nodes place }
{
    if place < nodes {
        Element::Node(place)
    } else {
        Element::Edge(place - nodes)
    }
}

/// Leaves the name holding the bytes.
fn save<H: Shelf>(shelf: &mut H, name: &str, bytes: &[u8]) -> Result<(), Stop>
    ensures saved { OnOk result (HoldsAt (H.held shelf.new) name.now bytes.now) }
    ensures others { HoldsOthers (H.held shelf.old) (H.held shelf.new) name.now }
    ensures stop { IfErr result (λ stop. (stop ≡ Stop.Save) ⊎ (stop ≡ Stop.Memory)) }
    ensures cause { HasCauseAt (IsErrOf result Stop.Save) name.now (H.save_faults shelf.old) (H.save_faults shelf.new) }
    ensures load_cause { NeverFalls (H.load_faults shelf.old) (H.load_faults shelf.new) }
{
    match shelf.save(name, bytes) {
        Ok(()) => Ok(()),
        Err(WriteFault::Failed) => Err(Stop::Save),
        Err(WriteFault::Memory) => Err(Stop::Memory),
    }
}
