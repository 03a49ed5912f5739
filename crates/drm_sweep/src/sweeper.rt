//! What stays the same over one sweep, and the pieces that its motion is halved in.

ghost use Rattle.std.specs.Prelude.{◌/◌, ◌≤◌};
ghost use Rattle.std.proofs.Props.{props};
ghost use Rattle.drm_arm.specs.Motion.{IsMotion};

use drm_arm::{Arm, Motion};
use drm_grid::Grid;
use drm_pose::{Ends, Pose, deep_poses_are_leaves, enclose_between, halves_share_ends};

/// What stays the same over one sweep: a motion of an arm over a grid, and the pad around the links, in workspace units.
#[derive(Drop)]
pub(crate) struct Sweeper<'a> {
    pub(crate) arm: &'a Arm,
    pub(crate) grid: &'a Grid,
    pub(crate) motion: &'a Motion,
    pub(crate) pad: u32,
    ghost motion_fits: { IsMotion arm.now motion.now } by { Prim.hlevel props },
    ghost pad_fits: { pad ≤ grid.now.side / 2 },
}

/// A piece of the motion: that number `index` of those that it has after `depth` halvings, with the tangents at which it begins and
/// ends, so that a halving works out one end more.
#[derive(Drop)]
pub(crate) struct Piece<'a> {
    pub(crate) depth: u32,
    pub(crate) index: u32,
    pub(crate) start: &'a Ends,
    pub(crate) end: &'a Ends,
}

impl Sweeper<'_> {
    ghost use Rattle.std.specs.Prelude.{◌≡◌, ◌+◌, ◌*◌, ◌<◌, ◌↔◌, IsTrue, false, length};
    ghost use Rattle.drm_arm.specs.Arm.{IsArm};
    ghost use Rattle.drm_grid.specs.Layout.{IsGrid};
    ghost use Rattle.drm_pose.specs.Boxes.{pose_of, tangents_at};
    ghost use Rattle.drm_pose.specs.Widths.{IsLeaf};
    ghost use Rattle.drm_sweep.specs.Piece.{IsPiece, IsMiddle};

    /// The pose of a piece.
    #[inline(always)]
    pub(crate) fn pose_of(&self, piece: &Piece) -> Pose
        requires piece { IsPiece self.now.arm.now self.now.motion.now piece.now }
        ensures value { result ≡ pose_of self.now.arm.now self.now.motion.now piece.now.depth piece.now.index }
        ensures each { length result ≡ length self.now.arm.now }
        ensures limits { IsArm self.now.arm.now }
    {
        enclose_between(self.arm, piece.start, piece.end)
    }

    /// Says whether the pose of a piece is narrow enough for the grid, as it is where the motion was halved 20 times.
    pub(crate) fn is_leaf(&self, piece: &Piece, pose: &Pose) -> bool
        requires piece { IsPiece self.now.arm.now self.now.motion.now piece.now }
        requires pose { pose.now ≡ pose_of self.now.arm.now self.now.motion.now piece.now.depth piece.now.index }
        requires arm { IsArm self.now.arm.now }
        ensures exact { IsTrue result ↔ IsLeaf self.now.grid.now.side pose.now }
        ensures deep { result ≡ false → piece.now.depth < 20 }
    {
        deep_poses_are_leaves();
        pose.spread() <= i64::from(self.grid.side()) * (1 << 26)
    }

    /// The tangents at the middle of a piece.
    #[inline(always)]
    pub(crate) fn middle_of(&self, piece: &Piece) -> Ends
        requires piece { IsPiece self.now.arm.now self.now.motion.now piece.now }
        requires above { piece.now.depth < 20 }
        ensures { IsMiddle self.now.arm.now self.now.motion.now piece.now result }
    {
        halves_share_ends();
        Ends::at(self.arm, self.motion, piece.depth + 1, 2 * piece.index + 1)
    }
}
