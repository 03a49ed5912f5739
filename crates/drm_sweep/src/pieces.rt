//! The pieces that a link of a pose is cut in, and the cells of a set that are near them.

ghost use Rattle.std.specs.Prelude.{◌≡◌, ◌<◌, ◌≤◌, false, length};
ghost use Rattle.drm_grid.specs.Layout.{cell_count};
ghost use Rattle.drm_grid.specs.Limits.{greatest_distance};
ghost use Rattle.drm_sweep.specs.Runs.{IsNearRun};
ghost use Rattle.drm_sweep.specs.Taken.{TakesOut, HasNone};

use crate::cells::Vicinity;
use drm_grid::{CellSet, Grid};
use drm_pose::{Cut, Pose};

/// A run of at most so many pieces is taken piece by piece: the boxes of its halves would cost as much.
const SHORT_RUN: u32 = 2;

/// A run of more pieces is not asked as a whole: its box, which may be two sides of a cell long, most often has a cell that
/// none of the pieces is near.
const LONG_RUN: u32 = 32;

/// The pieces of a link of a pose, at most 512 of them, and how far a cell may be from them to be near: `far` units.
#[derive(Drop)]
pub(crate) struct Pieces<'a> {
    pub(crate) grid: &'a Grid,
    pub(crate) pose: &'a Pose,
    pub(crate) link: u32,
    pub(crate) cut: Cut,
    pub(crate) far: u32,
    ghost link_fits: { link < length pose.now },
    ghost few: { cut ≤ 512 },
    ghost far_fits: { far ≤ greatest_distance },
}

impl Pieces<'_> {
    /// Takes the cells that are near a piece from `first` on and below `end` out of the set. Where the set has no cell near the
    /// box of such a run, there is nothing to take; else each half is asked.
    ///
    /// There are at most 512 pieces, so a call is nested in at most 8 others.
    pub(crate) fn take_run(&self, first: u32, end: u32, cells: &mut CellSet)
        requires some { first < end }
        requires pieces { end ≤ self.now.cut }
        requires size { length cells.old ≡ cell_count self.now.grid.now }
        ensures { TakesOut
            (IsNearRun self.now.grid.now self.now.pose.now self.now.link self.now.cut self.now.far first end)
            cells.old cells.new }
    {
        if end - first <= SHORT_RUN {
            self.take_each(first, end, cells);
        } else if end - first > LONG_RUN || self.meets_box(first, end, cells) {
            let middle = first + (end - first) / 2;
            self.take_run(first, middle, cells);
            self.take_run(middle, end, cells);
        }
    }

    /// The same, piece by piece.
    fn take_each(&self, first: u32, end: u32, cells: &mut CellSet)
        requires some { first < end }
        requires pieces { end ≤ self.now.cut }
        requires size { length cells.old ≡ cell_count self.now.grid.now }
        ensures { TakesOut
            (IsNearRun self.now.grid.now self.now.pose.now self.now.link self.now.cut self.now.far first end)
            cells.old cells.new }
    {
        for p in first..end {
            let around = Vicinity {
                grid: self.grid,
                plate: self.pose.piece_of(self.link, p, &self.cut),
                far: self.far,
            };
            around.take_from(cells);
        }
    }

    /// Says whether a cell of the set may be near a piece from `first` on and below `end`: no where none is near the box of such
    /// a run, by halves down to single pieces.
    pub(crate) fn may_meet(&self, first: u32, end: u32, cells: &CellSet) -> bool
        requires some { first < end }
        requires pieces { end ≤ self.now.cut }
        requires size { length cells.now ≡ cell_count self.now.grid.now }
        ensures { result ≡ false
            → HasNone (IsNearRun self.now.grid.now self.now.pose.now self.now.link self.now.cut self.now.far first end)
            cells.now }
    {
        if !self.meets_box(first, end, cells) {
            return false;
        }
        if end - first == 1 {
            return true;
        }
        let middle = first + (end - first) / 2;
        self.may_meet(first, middle, cells) || self.may_meet(middle, end, cells)
    }

    /// Says whether a cell of the set is near the box of the pieces from `first` on and below `end`.
    fn meets_box(&self, first: u32, end: u32, cells: &CellSet) -> bool
        requires some { first < end }
        requires pieces { end ≤ self.now.cut }
        requires size { length cells.now ≡ cell_count self.now.grid.now }
        ensures { result ≡ false
            → HasNone (IsNearRun self.now.grid.now self.now.pose.now self.now.link self.now.cut self.now.far first end)
            cells.now }
    {
        let around = Vicinity {
            grid: self.grid,
            plate: self.pose.pieces(self.link, first, end, &self.cut),
            far: self.far,
        };
        around.meets(cells)
    }
}
