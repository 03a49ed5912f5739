//! The walk over the pieces of a motion, which takes the swept cells out of a set.

ghost use Rattle.std.specs.Prelude.{◌≡◌, ◌≤◌};
ghost use Rattle.drm_arm.specs.Arm.{IsLink};
ghost use Rattle.drm_grid.specs.Layout.{IsGrid};
ghost use Rattle.drm_sweep.specs.Swept.{pieces_of};

use crate::live::{has_live, is_live};
use crate::pieces::Pieces;
use crate::sweeper::{Piece, Sweeper};
use drm_arm::Link;
use drm_grid::{CellSet, Grid};
use drm_pose::{Cut, Ends, Pose, each_link_has_boxes, halves_are_inside, pieces_keep_inclusion};

impl Sweeper<'_> {
    ghost use Rattle.std.specs.Prelude.{◌≡◌, ◌+◌, ◌<◌, ℕ, length};
    ghost use Rattle.drm_arm.specs.Arm.{IsArm};
    ghost use Rattle.drm_grid.specs.CellSet.{IsLeast};
    ghost use Rattle.drm_grid.specs.Layout.{cell_count};
    ghost use Rattle.drm_pose.specs.Boxes.{pose_of, tangents_at};
    ghost use Rattle.drm_sweep.specs.Piece.{IsPiece};
    ghost use Rattle.drm_sweep.specs.Swept.{IsNearLink, IsNearPose, Sweeps, IsSwept};
    ghost use Rattle.drm_sweep.specs.Runs.{IsLinkCut};
    ghost use Rattle.drm_sweep.specs.Taken.{TakesOut, IsMet, NearLinksAreLive};

    /// The least cell of the set that the motion sweeps: the least that is taken out of `left`, which is at first the same set.
    pub(crate) fn first_taken(&self, cells: &CellSet, left: &mut CellSet) -> Option<u32>
        requires size { length cells.now ≡ cell_count self.now.grid.now }
        requires same { left.old ≡ cells.now }
        ensures exact { IsLeast
            (IsMet self.now.grid.now self.now.arm.now self.now.motion.now self.now.pad cells.now) result }
        ensures size { length left.new ≡ length left.old }
    {
        self.take_in_turn(left);
        cells.first_outside(left)
    }

    /// Takes the cells that the motion sweeps out of the set, leaf after leaf, and none ahead: made for sets that have few of
    /// them.
    pub(crate) fn take_in_turn(&self, cells: &mut CellSet)
        requires size { length cells.old ≡ cell_count self.now.grid.now }
        ensures { TakesOut (IsSwept self.now.grid.now self.now.arm.now self.now.motion.now self.now.pad)
            cells.old cells.new }
    {
        let start = Ends::at(self.arm, self.motion, 0, 0);
        let end = Ends::at(self.arm, self.motion, 0, 1);
        let whole = Piece {
            depth: 0,
            index: 0,
            start: &start,
            end: &end,
        };
        self.take_piece(&whole, &[true; 6], cells);
    }

    /// Takes the cells that a piece of the motion gives out of the set.
    ///
    /// Cells of the set are near live links alone. A link that none is near in the pose of a piece is near none in those of its
    /// halves, so it is not asked again. A pose that was halved 20 times is a leaf, so a call is nested in at most 20 others.
    fn take_piece(&self, piece: &Piece, live: &[bool; 6], cells: &mut CellSet)
        requires piece { IsPiece self.now.arm.now self.now.motion.now piece.now }
        requires size { length cells.old ≡ cell_count self.now.grid.now }
        requires live { NearLinksAreLive self.now.grid.now self.now.arm.now
            (pose_of self.now.arm.now self.now.motion.now piece.now.depth piece.now.index) self.now.pad live.now cells.old }
        ensures { (halvings : ℕ) → piece.now.depth + halvings ≡ 20
            → TakesOut (λ cell. Sweeps self.now.grid.now self.now.arm.now self.now.motion.now self.now.pad cell halvings
            piece.now.depth piece.now.index) cells.old cells.new }
    {
        halves_are_inside();
        pieces_keep_inclusion();
        each_link_has_boxes();
        let pose = self.pose_of(piece);
        if self.is_leaf(piece, &pose) {
            self.take_pose(&pose, live, cells);
            return;
        }
        let still = self.still_live(&pose, piece.depth, live, cells);
        if has_live(&still) {
            let middle = self.middle_of(piece);
            let first = Piece {
                depth: piece.depth + 1,
                index: 2 * piece.index,
                start: piece.start,
                end: &middle,
            };
            self.take_piece(&first, &still, cells);
            let second = Piece {
                depth: piece.depth + 1,
                index: 2 * piece.index + 1,
                start: &middle,
                end: piece.end,
            };
            self.take_piece(&second, &still, cells);
        }
    }

    /// Takes the cells that are near the pieces of the pose's links out of the set. Cells of the set are near live links alone.
    pub(crate) fn take_pose(&self, pose: &Pose, live: &[bool; 6], cells: &mut CellSet)
        requires each { length pose.now ≡ length self.now.arm.now }
        requires size { length cells.old ≡ cell_count self.now.grid.now }
        requires live { NearLinksAreLive self.now.grid.now self.now.arm.now pose.now self.now.pad live.now cells.old }
        ensures { TakesOut (IsNearPose self.now.grid.now self.now.arm.now pose.now self.now.pad) cells.old cells.new }
    {
        for k in 0..self.arm.links() {
            self.take_link(pose, live, k, cells);
        }
    }

    /// Takes the cells that are near the pieces of a link out of the set: none, where the link is not live.
    fn take_link(&self, pose: &Pose, live: &[bool; 6], k: u32, cells: &mut CellSet)
        requires link { k < length self.now.arm.now }
        requires few { k < 6 }
        requires each { length pose.now ≡ length self.now.arm.now }
        requires size { length cells.old ≡ cell_count self.now.grid.now }
        requires live { NearLinksAreLive self.now.grid.now self.now.arm.now pose.now self.now.pad live.now cells.old }
        ensures { TakesOut (IsNearLink self.now.grid.now self.now.arm.now pose.now self.now.pad k) cells.old cells.new }
    {
        if is_live(live, k) {
            let pieces = self.pieces_of(pose, k);
            pieces.take_run(0, pieces.cut.count(), cells);
        }
    }

    /// The pieces of a link of a pose. A cell is near one where it is at most the link's radius and the pad from it.
    #[inline(always)]
    pub(crate) fn pieces_of<'b>(&'b self, pose: &'b Pose, k: u32) -> Pieces<'b>
        requires link { k < length self.now.arm.now }
        requires each { length pose.now ≡ length self.now.arm.now }
        ensures grid { result.grid.now ≡ self.now.grid.now }
        ensures pose { result.pose.now ≡ pose.now }
        ensures link { result.link ≡ k }
        ensures cut { IsLinkCut self.now.grid.now self.now.arm.now self.now.pad k result.cut result.far }
    {
        let link = self.arm.link(k);
        Pieces {
            grid: self.grid,
            pose,
            link: k,
            cut: Cut::of(piece_count(&link, self.grid)),
            far: link.radius + self.pad,
        }
    }
}

/// How many pieces a link is cut in, none of them longer than a sixteenth of a cell's side: at most 512.
fn piece_count(link: &Link, grid: &Grid) -> u32
    requires { IsLink link.now }
    ensures value { result ≡ pieces_of link.now.len grid.now.side }
    ensures some { 1 ≤ result }
    ensures few { result ≤ 512 }
    ensures limits { IsGrid grid.now }
{
    let side = grid.side();
    (16 * link.len + (side - 1)) / side
}
