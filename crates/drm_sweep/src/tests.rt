// The expected cells were worked out apart from this program: by hand, and by a plain program of the definition.
ghost use Rattle.std.specs.Prelude.{◌≤◌, ◌/◌, IfSome};
ghost use Rattle.drm_arm.specs.Motion.{IsMotion};
ghost use Rattle.drm_grid.specs.Fits.{Fits};

use super::*;
use drm_arm::{Arm, Link, Motion};
use drm_grid::{CellSet, Grid};
use drm_outside::{List, Memory};
use std::alloc::Global;
use std::test::Fail;

/// The length and the radius of the one link, the coordinates of both ends of its motion, the pad, and the swept cells.
const SWEPT: [(u32, u32, i32, i32, u32, &[u16]); 9] = [
    (200, 20, 0, 0, 0, &[5, 6, 7, 9, 10, 11]),
    (200, 20, 0, 0, 32, &[5, 6, 7, 9, 10, 11]),
    (200, 20, 0, 0, 64, &[5, 6, 7, 9, 10, 11]),
    (200, 20, 0, 1_024, 0, &[5, 6, 7, 9, 10, 11, 13, 14, 15]),
    // Stretched out, the link, its radius and the pad end on a line, and then a unit before it.
    (100, 28, 0, 0, 0, &[5, 6, 7, 9, 10, 11]),
    (100, 20, 0, 0, 8, &[5, 6, 7, 9, 10, 11]),
    (100, 20, 0, 0, 7, &[5, 6, 9, 10]),
    // They reach the line at one moment alone, between the ends of the motion.
    (100, 28, -8, 8, 0, &[5, 6, 7, 9, 10, 11]),
    (100, 28, 1_000, 1_050, 0, &[5, 6, 9, 10, 13, 14]),
];

fn link(len: u32, radius: u32) -> Link {
    Link {
        len,
        radius,
        lo: -4_096,
        hi: 4_096,
    }
}

/// The motion of an arm between two configurations, if they are within the limits.
fn motion_of(arm: &Arm, from: &[i32], to: &[i32]) -> Option<Motion>
    ensures { IfSome result (IsMotion arm.now) }
{
    match (arm.config(from), arm.config(to)) {
        (Ok(from), Ok(to)) => Some(Motion { from, to }),
        _ => None,
    }
}

/// The cells that a motion sweeps, and those that it meets one by one.
fn swept_and_met(
    alloc: Global,
    arm: &Arm,
    grid: &Grid,
    motion: &Motion,
    pad: u32,
) -> Result<(List<u16>, List<u16>), Memory>
    requires fits { Fits grid.now arm.now }
    requires motion { IsMotion arm.now motion.now }
    requires pad { pad ≤ grid.now.side / 2 }
{
    let swept = sweep(alloc, arm, grid, motion, pad)?.to_list(alloc)?;
    let mut met = Vec::new(alloc);
    for cell in 0..grid.cells() {
        let mut one = CellSet::new(alloc, grid.cells())?;
        one.insert(cell);
        if first_meeting(alloc, arm, grid, motion, pad, &one)? == Some(cell) {
            met.push(cell as u16)?;
        }
    }
    Ok((swept, List::from_vec(met)))
}

#[test]
fn sweeps_of_one_link(rt: HostRuntime) -> Result<(), Fail> {
    let grid = Grid::new(128, 4).ok().ok_or("a grid")?;
    for (len, radius, from, to, pad, want) in SWEPT {
        let arm = Arm::new(&[link(len, radius)]).ok().ok_or("an arm")?;
        let (Some(out), Some(back)) = (
            motion_of(&arm, &[from], &[to]),
            motion_of(&arm, &[to], &[from]),
        ) else {
            return Err("within limits".into());
        };
        if !grid.fits(&arm) || grid.side() / 2 < pad {
            return Err("a grid that the arm fits, and a pad within half a side".into());
        }
        let (swept, met) = swept_and_met(rt.alloc(), &arm, &grid, &out, pad)
            .ok()
            .ok_or("memory")?;
        assert_eq!(rt; swept.as_slice(), want);
        assert_eq!(rt; met.as_slice(), want);
        let (swept, _met) = swept_and_met(rt.alloc(), &arm, &grid, &back, pad)
            .ok()
            .ok_or("memory")?;
        assert_eq!(rt; swept.as_slice(), want);
    }
    Ok(())
}

/// How many cells six links of 4,096 units sweep where all joints turn as far as they can, and the first and the last.
const WIDEST: (usize, u16, u16) = (1_866, 4_932, 11_468);

#[test]
fn widest_sweep(rt: HostRuntime) -> Result<(), Fail> {
    let links = [
        link(683, 40),
        link(683, 40),
        link(683, 40),
        link(683, 40),
        link(682, 40),
        link(682, 40),
    ];
    let arm = Arm::new(&links).ok().ok_or("an arm")?;
    let grid = Grid::new(128, 128).ok().ok_or("a grid")?;
    let Some(motion) = motion_of(&arm, &[-4_096; 6], &[4_096; 6]) else {
        return Err("within limits".into());
    };
    if !grid.fits(&arm) {
        return Err("a grid that the arm fits".into());
    }
    let swept = sweep(rt.alloc(), &arm, &grid, &motion, 0)
        .ok()
        .ok_or("memory")?;
    let cells = swept.to_list(rt.alloc()).ok().ok_or("memory")?;
    let cells = cells.as_slice();
    let (Some(first), Some(last)) = (cells.first(), cells.last()) else {
        return Err("cells".into());
    };
    assert_eq!(rt; (cells.len(), *first, *last), WIDEST);
    let at_start = sweep_pose(rt.alloc(), &arm, &grid, &motion.from, 0)
        .ok()
        .ok_or("memory")?;
    if at_start.size() != swept.size() {
        return Err("sets of the same grid".into());
    }
    assert_eq!(rt; at_start.first_outside(&swept), None);
    Ok(())
}
