//! Leaves that are taken ahead, so that the inside of what a motion sweeps is not asked for again and again.

use crate::sweeper::{Piece, Sweeper};
use drm_grid::CellSet;
use drm_pose::{Ends, Pose};

/// A piece of a motion is long where its spread is over that of so many leaves.
const LONG: i64 = 32;

impl Sweeper<'_> {
    ghost use Rattle.std.specs.Prelude.{◌≡◌, ◌+◌, ℕ, length};
    ghost use Rattle.drm_grid.specs.Layout.{IsGrid, cell_count};
    ghost use Rattle.drm_sweep.specs.Piece.{IsPiece};
    ghost use Rattle.drm_sweep.specs.Swept.{IsSwept, Sweeps};
    ghost use Rattle.drm_sweep.specs.Taken.{TakesSome};

    /// Takes some of the cells that the motion sweeps out of the set: those of a few leaves, spread over the motion.
    pub(crate) fn take_ahead(&self, cells: &mut CellSet)
        requires size { length cells.old ≡ cell_count self.now.grid.now }
        ensures { TakesSome (IsSwept self.now.grid.now self.now.arm.now self.now.motion.now self.now.pad)
            cells.old cells.new }
    {
        let start = Ends::at(self.arm, self.motion, 0, 0);
        let end = Ends::at(self.arm, self.motion, 0, 1);
        let whole = Piece {
            depth: 0,
            index: 0,
            start: &start,
            end: &end,
        };
        if !self.is_leaf(&whole, &self.pose_of(&whole)) {
            self.take_first_leaves(&whole, cells);
        }
    }

    /// Takes the cells of the first leaf of each stretch that is not long of a piece of the motion out of the set.
    fn take_first_leaves(&self, piece: &Piece, cells: &mut CellSet)
        requires piece { IsPiece self.now.arm.now self.now.motion.now piece.now }
        requires size { length cells.old ≡ cell_count self.now.grid.now }
        ensures { (halvings : ℕ) → piece.now.depth + halvings ≡ 20
            → TakesSome (λ cell. Sweeps self.now.grid.now self.now.arm.now self.now.motion.now self.now.pad cell halvings
            piece.now.depth piece.now.index) cells.old cells.new }
    {
        let pose = self.pose_of(piece);
        if self.is_leaf(piece, &pose) {
            self.take_pose(&pose, &[true; 6], cells);
            return;
        }
        let middle = self.middle_of(piece);
        let first = Piece {
            depth: piece.depth + 1,
            index: 2 * piece.index,
            start: piece.start,
            end: &middle,
        };
        self.take_first_leaves(&first, cells);
        if self.is_long(&pose) {
            let second = Piece {
                depth: piece.depth + 1,
                index: 2 * piece.index + 1,
                start: &middle,
                end: piece.end,
            };
            self.take_first_leaves(&second, cells);
        }
    }

    /// Says whether the pose is wider than many leaves. Whatever it says, no cell is taken that is not swept.
    fn is_long(&self, pose: &Pose) -> bool {
        pose.spread() / LONG > i64::from(self.grid.side()) * (1 << 26)
    }
}
