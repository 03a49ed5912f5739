// The stored sweeps.
ghost use Rattle.std.specs.Prelude.{◌≡◌, ◌≤◌, ◌+◌, [], IfOk, length};
ghost use Rattle.drm_cellmap.specs.Limits.{max_entries};
ghost use Rattle.drm_cellmap.specs.Roadmap.{entries_of};
ghost use Rattle.drm_mapfile.specs.Fields.{Gives, many};
ghost use Rattle.drm_mapfile.specs.Reading.{cell_at, least_behind, sweep_at, sweeps_at};

use crate::fault::FileFault;
use crate::fields::{field, u16_at};
use drm_cellmap::MAX_ENTRIES;
use drm_outside::List;
use std::alloc::Global;

/// So many sweeps over a grid of `cells` cells, and the bytes behind them.
pub fn take_sweeps(
    alloc: Global,
    total: usize,
    cells: u32,
    elements: u32,
    bytes: &[u8],
) -> Result<(Vec<List<u16>>, &[u8]), FileFault>
    ensures { Gives (λ x. (x.0.items, x.1.now)) result (sweeps_at total cells elements bytes.now) }
{
    let mut sweeps = Vec::new(alloc);
    let mut so_far = 0;
    let mut rest = bytes;
    for _ in 0..elements {
        let (sweep, after) = take_sweep(alloc, total, cells, so_far, rest)?;
        so_far += sweep.as_slice().len() as u64;
        sweeps.push(sweep)?;
        rest = after;
    }
    Ok((sweeps, rest))
}

/// A sweep behind others that have `so_far` cells together.
#[tactic(auto, unfolding(crate::specs::Reading::sweep_at))]
fn take_sweep(
    alloc: Global,
    total: usize,
    cells: u32,
    so_far: u64,
    bytes: &[u8],
) -> Result<(List<u16>, &[u8]), FileFault>
    requires { so_far ≤ max_entries }
    ensures exact { Gives (λ x. (x.0, x.1.now)) result (sweep_at total cells so_far bytes.now) }
    ensures few { IfOk result (λ x. so_far + length x.0 ≤ max_entries) }
{
    let (count, rest) = u16_at(total, bytes)?;
    if cells < u32::from(count) || MAX_ENTRIES < so_far + u64::from(count) {
        return Err(field(total, bytes));
    }
    let (sweep, rest) = take_cells(alloc, total, cells, count, rest)?;
    Ok((List::from_vec(sweep), rest))
}

/// So many cells, each above the one before it.
fn take_cells(
    alloc: Global,
    total: usize,
    cells: u32,
    count: u16,
    bytes: &[u8],
) -> Result<(Vec<u16>, &[u8]), FileFault>
    ensures exact { Gives (λ x. (x.0.items, x.1.now)) result
        (many (λ front. cell_at total cells (least_behind front)) count [] bytes.now) }
    ensures counted { IfOk result (λ x. length x.0.items ≡ count) }
{
    let mut sweep = Vec::with_capacity(alloc, count as usize)?;
    let mut least = 0;
    let mut rest = bytes;
    for _ in 0..count {
        let (cell, after) = take_cell(total, cells, least, rest)?;
        sweep.push(cell)?;
        least = u32::from(cell) + 1;
        rest = after;
    }
    Ok((sweep, rest))
}

/// A cell that is the least one or above it.
fn take_cell(total: usize, cells: u32, least: u32, bytes: &[u8]) -> Result<(u16, &[u8]), FileFault>
    ensures { Gives (λ x. (x.0, x.1.now)) result (cell_at total cells least bytes.now) }
{
    let (cell, rest) = u16_at(total, bytes)?;
    if cells <= u32::from(cell) || u32::from(cell) < least {
        return Err(field(total, bytes));
    }
    Ok((cell, rest))
}
