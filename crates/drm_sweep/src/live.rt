//! Live links: those that a cell of a set may be near, over a piece of a motion.

ghost use Rattle.std.specs.Prelude.{◌≡◌, ◌<◌, ◌↔◌, IsTrue, ℕ, false};
ghost use Rattle.drm_grid.specs.CellSet.{Has};

use crate::sweeper::Sweeper;
use drm_grid::CellSet;
use drm_pose::Pose;

impl Sweeper<'_> {
    ghost use Rattle.std.specs.Prelude.{◌≡◌, ◌<◌, false, length};
    ghost use Rattle.drm_grid.specs.Layout.{IsGrid, cell_count};
    ghost use Rattle.drm_sweep.specs.Swept.{IsNearLink};
    ghost use Rattle.drm_sweep.specs.Taken.{HasNone, NearLinksAreLive};

    /// The links that are still live: those of the live ones that a cell of the set may be near.
    ///
    /// They are asked of the whole motion, and of every other generation of its halves above the leaves: a link that is not near
    /// is then found a generation later, which costs less than to ask each generation.
    pub(crate) fn still_live(
        &self,
        pose: &Pose,
        depth: u32,
        live: &[bool; 6],
        cells: &CellSet,
    ) -> [bool; 6]
        requires each { length pose.now ≡ length self.now.arm.now }
        requires size { length cells.now ≡ cell_count self.now.grid.now }
        requires live { NearLinksAreLive self.now.grid.now self.now.arm.now pose.now self.now.pad live.now cells.now }
        ensures { NearLinksAreLive self.now.grid.now self.now.arm.now pose.now self.now.pad result cells.now }
    {
        if depth != 0 && self.leaves_across(pose).leading_zeros() % 2 == 1 {
            return *live;
        }
        let mut still = [false; 6];
        for k in 0..self.arm.links() {
            still[k as usize] = self.stays_live(pose, live, k, cells);
        }
        still
    }

    /// About how many leaves are as wide as the pose.
    fn leaves_across(&self, pose: &Pose) -> u32
        ensures { IsGrid self.now.grid.now }
    {
        let leaf = i64::from(self.grid.side()) * (1 << 26);
        (pose.spread() / leaf).clamp(0, 1 << 20) as u32
    }

    /// Says whether the link is live and a cell of the set may be near it.
    fn stays_live(&self, pose: &Pose, live: &[bool; 6], k: u32, cells: &CellSet) -> bool
        requires link { k < length self.now.arm.now }
        requires few { k < 6 }
        requires each { length pose.now ≡ length self.now.arm.now }
        requires size { length cells.now ≡ cell_count self.now.grid.now }
        requires live { NearLinksAreLive self.now.grid.now self.now.arm.now pose.now self.now.pad live.now cells.now }
        ensures { result ≡ false
            → HasNone (IsNearLink self.now.grid.now self.now.arm.now pose.now self.now.pad k) cells.now }
    {
        is_live(live, k) && self.may_meet_link(pose, k, cells)
    }

    /// Says whether a cell of the set may be near a piece of the link.
    fn may_meet_link(&self, pose: &Pose, k: u32, cells: &CellSet) -> bool
        requires link { k < length self.now.arm.now }
        requires each { length pose.now ≡ length self.now.arm.now }
        requires size { length cells.now ≡ cell_count self.now.grid.now }
        ensures { result ≡ false
            → HasNone (IsNearLink self.now.grid.now self.now.arm.now pose.now self.now.pad k) cells.now }
    {
        let pieces = self.pieces_of(pose, k);
        pieces.may_meet(0, pieces.cut.count(), cells)
    }
}

/// Says whether the link with this number is live.
pub(crate) fn is_live(live: &[bool; 6], k: u32) -> bool
    requires { k < 6 }
    ensures { IsTrue result ↔ Has live.now k }
{
    live[k as usize]
}

/// Says whether any link is live.
pub(crate) fn has_live(live: &[bool; 6]) -> bool
    ensures { result ≡ false → (k : ℕ) → ¬ Has live.now k }
{
    live.contains(&true)
}
