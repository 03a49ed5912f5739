//! The boxes of all links of an arm over a piece of a motion.

ghost use Rattle.std.specs.Prelude.{◌≡◌, ℕ, ◌*◌, ◌^◌, ◌<◌, ◌≤◌, pos, ◌≤ℤ◌, ◌<ℤ◌, length, slice_get, Some};
ghost use Rattle.drm_arm.specs.Arm.{IsArm};
ghost use Rattle.drm_arm.specs.Motion.{IsMotion};
ghost use Rattle.drm_num.specs.Interval.{IsOrdered};
ghost use Rattle.drm_pose.specs.declared.boxes.LinkBox.{LinkBox};
ghost use Rattle.drm_pose.specs.Boxes.{pose_of, spread_of, piece_of, run_of, tangents_at};
ghost use Rattle.drm_pose.specs.Promises.{EnclosesPiece, AreAsLong, HoldsAxisPart, IsNarrowAtLeaf, HoldsPieces, IsPoseBetween};
ghost use Rattle.drm_pose.specs.Widths.{IsPlateWithin, IsLinkBox, IsPose, IsLeaf};

use crate::boxes::{LinkBox, Plate};
use crate::cut::Cut;
use crate::ends::Ends;
use crate::parts::Run;
use drm_arm::{Arm, Motion};
use std::marker::Model;

/// Boxes that hold every link of an arm over a piece of a motion.
#[derive(Drop)]
pub struct Pose {
    links: [LinkBox; 6],
    count: u32,
}

impl Model for Pose {
    ghost use Rattle.std.specs.Prelude.{◌≤◌, List, take};
    ghost use Rattle.drm_pose.specs.declared.boxes.LinkBox.{LinkBox};

    ghost Value = { List LinkBox };

    ghost use Rattle.drm_pose.specs.Widths.{IsPose};

    ghost view = { λ p. take p.count p.links };

    ghost invariant = { λ p. (p.count ≤ 6) × IsPose (take p.count p.links) };
}

/// Boxes of the joint points, the directions and the displacements of all links at every rational moment from
/// `index / 2^depth` to `(index + 1) / 2^depth` of the motion, in ulps of 2^-30.
///
/// A pose at depth 20 is always narrow: its spread is below 7 units, so it is at most a sixteenth of the side of
/// every grid whose side is at least 128 units.
pub fn enclose(arm: &Arm, motion: &Motion, depth: u32, index: u32) -> Pose
    requires motion { IsMotion arm.now motion.now }
    requires depth { depth ≤ 20 }
    requires index { index < 2 ^ depth }
    ensures value { result ≡ pose_of arm.now motion.now depth index }
    ensures each { length result ≡ length arm.now }
    ensures contains { EnclosesPiece result arm.now motion.now depth index }
    ensures long { AreAsLong result arm.now }
    ensures deep { depth ≡ 20 → spread_of result <ℤ pos (7 * 2 ^ 30) }
    ensures leaf { (side : ℕ) → depth ≡ 20 → 128 ≤ side → IsLeaf side result }
{
    let start = Ends::at(arm, motion, depth, index);
    let end = Ends::at(arm, motion, depth, index + 1);
    enclose_between(arm, &start, &end)
}

/// The boxes of all links over a piece of a motion of the arm, from the ends of its joints' tangents: those of `enclose`.
pub fn enclose_between(arm: &Arm, start: &Ends, end: &Ends) -> Pose
    requires starts { length start.now ≡ length arm.now }
    requires ends { length end.now ≡ length arm.now }
    ensures value { IsPoseBetween result arm.now start.now end.now }
    ensures each { length result ≡ length arm.now }
    ensures limits { IsArm arm.now }
{
    let mut direction = Plate::first_axis();
    let mut tip = Plate::origin();
    let mut links = [LinkBox::blank(); 6];
    let count = arm.links();
    for k in 0..count {
        let len = arm.link(k).len;
        let link = LinkBox::next(&direction, &tip, len, start.joint(k), end.joint(k));
        direction = link.direction;
        tip = link.tip;
        links[k as usize] = link;
    }
    Pose { links, count }
}

impl Pose {
    /// The greatest width of the box of a joint point, over both coordinates and all links, in ulps of 2^-30.
    pub fn spread(&self) -> i64
        ensures value { result ≡ spread_of self.now }
    {
        widest(&self.links[..self.count as usize])
    }

    fn boxes_of(&self, link: u32) -> &LinkBox
        requires { link < length self.now }
        ensures place { slice_get self.now link ≡ Some result.now }
        ensures limits { IsLinkBox result.now }
    {
        &self.links[link as usize]
    }

    /// A box that holds the points of a link's axis from the fraction `p / n` to `(p + 1) / n`, counted from its joint,
    /// at every moment of the pose's piece of the motion.
    pub fn piece(&self, link: u32, p: u32, n: u32) -> Plate
        requires link { link < length self.now }
        requires piece { p < n }
        requires some { 1 ≤ n }
        requires few { n ≤ 512 }
        ensures value { (box : LinkBox) → slice_get self.now link ≡ Some box → result ≡ piece_of box p n }
        ensures within { IsPlateWithin (pos (2 ^ 43)) result }
        ensures contains { HoldsAxisPart self.now link p n result }
        ensures narrow { IsNarrowAtLeaf self.now link n result }
    {
        self.pieces(link, p, p + 1, &Cut::of(n))
    }

    /// The same of a piece of a cut.
    pub fn piece_of(&self, link: u32, p: u32, cut: &Cut) -> Plate
        requires link { link < length self.now }
        requires piece { p < cut.now }
        requires few { cut.now ≤ 512 }
        ensures value { (box : LinkBox) → slice_get self.now link ≡ Some box → result ≡ piece_of box p cut.now }
        ensures within { IsPlateWithin (pos (2 ^ 43)) result }
    {
        self.pieces(link, p, p + 1, cut)
    }

    /// A box that holds the boxes of the pieces from `p` on and below `q` of a cut of a link.
    pub fn pieces(&self, link: u32, p: u32, q: u32, cut: &Cut) -> Plate
        requires link { link < length self.now }
        requires pieces { p < q }
        requires within { q ≤ cut.now }
        requires few { cut.now ≤ 512 }
        ensures value { (box : LinkBox) → slice_get self.now link ≡ Some box → result ≡ run_of box p q cut.now }
        ensures within { IsPlateWithin (pos (2 ^ 43)) result }
        ensures holds { HoldsPieces self.now link p q cut.now result }
        ensures limits { (box : LinkBox) → slice_get self.now link ≡ Some box → IsLinkBox box }
        ensures ordered { (box : LinkBox) → slice_get self.now link ≡ Some box
            → IsOrdered box.shift.x × IsOrdered box.shift.y }
    {
        let of = self.boxes_of(link);
        let across = Run {
            from: of.base.x,
            shift: of.shift.x,
            p,
            q,
            cut,
        };
        let up = Run {
            from: of.base.y,
            shift: of.shift.y,
            p,
            q,
            cut,
        };
        Plate {
            x: across.interval(),
            y: up.interval(),
        }
    }
}

fn widest(links: &[LinkBox]) -> i64
    requires { IsPose links.now }
    ensures { result ≡ spread_of links.now }
{
    let mut most = 0;
    for link in links {
        most = most.max(link.tip_width());
    }
    most
}
