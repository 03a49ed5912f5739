//! Reading a map file.
ghost use Rattle.std.specs.Prelude.{◌≡◌, IfOk, MatchResult};
ghost use Rattle.drm_cellmap.specs.Roadmap.{Roadmap};
ghost use Rattle.drm_mapfile.specs.MapFile.{IsMapFile};
ghost use Rattle.drm_mapfile.specs.declared.fault.FileFault.TheVariants.{Memory as no_memory};
ghost use Rattle.drm_mapfile.specs.Fields.{Gives};
ghost use Rattle.drm_mapfile.specs.FileReading.{magic_at, version_at, map_at, map_in};

use crate::arm::take_arm;
use crate::fault::FileFault;
use crate::fields::u16_at;
use crate::grid::take_grid;
use crate::road::take_road;
use crate::sweeps::take_sweeps;
use drm_cellmap::Map;
use drm_outside::List;
use std::alloc::Global;

/// The mark at the front of a map file.
pub const MAGIC: [u8; 4] = *b"DRMP";
/// The version of the format that is read and written.
pub const VERSION: u16 = 1;

/// The map that the bytes spell, all of them, or the first fault from the left. `Memory` may come in place of any answer.
pub fn read(alloc: Global, bytes: &[u8]) -> Result<Map, FileFault>
    // What is read is spelled so.
    ensures found { IfOk result (IsMapFile bytes.now) }
    // What is spelled so is read, unless memory runs out.
    ensures again { (map : Roadmap) → IsMapFile bytes.now map →
        MatchResult result (λ found. found ≡ map) (λ fault. fault ≡ no_memory) }
    // Which map it is, or which fault, and where.
    ensures exact { Gives (λ map. map) result (map_in bytes.now) }
{
    take_file(alloc, bytes)
}

#[tactic(auto, unfolding(crate::specs::FileReading::map_in))]
fn take_file(alloc: Global, bytes: &[u8]) -> Result<Map, FileFault>
    ensures { Gives (λ map. map) result (map_in bytes.now) }
{
    let total = bytes.len();
    let rest = take_magic(total, bytes)?;
    let rest = take_version(total, rest)?;
    match take_map(alloc, total, rest) {
        Ok((map, rest)) => {
            if !rest.is_empty() {
                return Err(FileFault::Excess(total.saturating_sub(rest.len()) as u64));
            }
            Ok(map)
        }
        Err(fault) => Err(fault),
    }
}

/// What is behind the mark of a map file.
#[tactic(auto, unfolding(crate::specs::FileReading::magic_at))]
fn take_magic(total: usize, bytes: &[u8]) -> Result<&[u8], FileFault>
    ensures { Gives (λ rest. rest.now) result (magic_at total bytes.now) }
{
    let there = bytes.len().min(4);
    if bytes[..there] != MAGIC[..there] {
        return Err(FileFault::Magic);
    }
    if bytes.len() < 4 {
        return Err(FileFault::Short(total as u64));
    }
    Ok(&bytes[4..])
}

/// What is behind the version.
#[tactic(auto, unfolding(crate::specs::FileReading::version_at))]
fn take_version(total: usize, bytes: &[u8]) -> Result<&[u8], FileFault>
    ensures { Gives (λ rest. rest.now) result (version_at total bytes.now) }
{
    let (version, rest) = u16_at(total, bytes)?;
    if version != VERSION {
        return Err(FileFault::Version(version));
    }
    Ok(rest)
}

/// The map behind the version, and what is behind it.
#[tactic(auto, unfolding(crate::specs::FileReading::map_at))]
fn take_map(alloc: Global, total: usize, bytes: &[u8]) -> Result<(Map, &[u8]), FileFault>
    ensures { Gives (λ x. (x.0, x.1.now)) result (map_at total bytes.now) }
{
    let (arm, rest) = match take_arm(alloc, total, bytes) {
        Ok((arm, rest)) => (arm, rest),
        Err(fault) => return Err(fault),
    };
    let (grid, rest) = match take_grid(total, &arm, rest) {
        Ok((grid, rest)) => (grid, rest),
        Err(fault) => return Err(fault),
    };
    let (road, rest) = match take_road(alloc, total, &arm, rest) {
        Ok((road, rest)) => (road, rest),
        Err(fault) => return Err(fault),
    };
    let elements = road.nodes() + road.edges();
    let (sweeps, rest) = take_sweeps(alloc, total, grid.cells(), elements, rest)?;
    match Map::new(arm, grid, road, List::from_vec(sweeps)) {
        Ok(map) => Ok((map, rest)),
        // Each rule of maps was tested where its field stands, so this is want of memory.
        Err(_) => Err(FileFault::Memory),
    }
}
