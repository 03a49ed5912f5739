//! The map that a name stands for.

ghost use Rattle.std.specs.Prelude.{◌≡◌, IfOk, IfErr};
ghost use Rattle.std.specs.Result.{IsErrOf};
ghost use Rattle.drm_outside.specs.Shelving.{HoldsTheSame, HasCauseAt, NeverFalls};
ghost use Rattle.drm_mapfile.specs.MapFile.{IsMapFile};
ghost use Rattle.drm_command.specs.Command.{sample_name};
ghost use Rattle.drm_command.specs.Ending.{StopsWith};
ghost use Rattle.drm_tool.specs.Named.{IsMapNamed, IsLookedUp, MapCallsFor, BytesCallFor};

use drm_cellmap::{Map, sample_map};
use drm_command::{MAP_LIMIT, Refusal, Stop};
use drm_mapfile::{FileFault, read};
use drm_outside::{LoadFault, Shelf};
use std::alloc::Global;

/// The map that the name stands for. The name `sample` is not loaded, and leaves the shelf as it was.
pub fn load_map<H: Shelf>(alloc: Global, shelf: &mut H, name: &str) -> Result<Map, Stop>
    ensures map { IfOk result (IsMapNamed (H.held shelf.old) name.now) }
    ensures stop { IfErr result (StopsWith (MapCallsFor (H.held shelf.old) name.now)) }
    ensures no_save { ¬ IsErrOf result Stop.Save }
    ensures no_source { ¬ IsErrOf result Stop.Source }
    ensures sample { name.now ≡ sample_name → shelf.new ≡ shelf.old }
    ensures kept { HoldsTheSame (H.held shelf.old) (H.held shelf.new) }
    ensures looked_up { IsErrOf result Stop.Load → IsLookedUp name.now }
    ensures cause { HasCauseAt (IsErrOf result Stop.Load) name.now (H.load_faults shelf.old) (H.load_faults shelf.new) }
    ensures save_cause { NeverFalls (H.save_faults shelf.old) (H.save_faults shelf.new) }
{
    if name == "sample" {
        return Ok(sample_map(alloc)?);
    }
    match shelf.load(alloc, name, MAP_LIMIT) {
        Ok(bytes) => map_of(alloc, &bytes),
        Err(LoadFault::Failed) => Err(Stop::Load),
        Err(LoadFault::TooLong(_)) => Err(Stop::Refused(Refusal::LongMap)),
        Err(LoadFault::Memory) => Err(Stop::Memory),
    }
}

/// The map whose file the bytes are.
fn map_of(alloc: Global, bytes: &[u8]) -> Result<Map, Stop>
    ensures map { IfOk result (IsMapFile bytes.now) }
    ensures stop { IfErr result (StopsWith (BytesCallFor bytes.now)) }
    ensures no_load { ¬ IsErrOf result Stop.Load }
    ensures no_save { ¬ IsErrOf result Stop.Save }
    ensures no_source { ¬ IsErrOf result Stop.Source }
{
    match read(alloc, bytes) {
        Ok(map) => Ok(map),
        Err(FileFault::Memory) => Err(Stop::Memory),
        Err(fault) => Err(Stop::Refused(Refusal::NoMap(fault))),
    }
}
