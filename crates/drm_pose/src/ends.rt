//! The tangents of an arm's joints at a moment of a motion, with their cosines and sines.

ghost use Rattle.std.specs.Prelude.{◌≡◌, ℕ, ◌^◌, ◌≤◌, ◌<◌, length, slice_get, Some};
ghost use Rattle.drm_arm.specs.Arm.{IsArm};
ghost use Rattle.drm_arm.specs.Motion.{IsMotion};
ghost use Rattle.drm_pose.specs.Boxes.{tangents_at};

use crate::tangents::tangent_at;
use drm_arm::{Arm, Motion};
use drm_half::End;
use std::marker::Model;

/// The half-angle tangents of all joints at a moment at which pieces of a motion begin and end, with their cosines and
/// sines.
///
/// Contracts see it as the list of the tangents, in ulps. Two pieces that share an end share what it cost.
#[derive(Drop)]
pub struct Ends {
    joints: [End; 6],
    count: u32,
}

impl Model for Ends {
    ghost use Rattle.std.specs.Prelude.{◌≤◌, ℤ, List, take};

    ghost Value = { List ℤ };

    ghost view = { λ e. take e.count e.joints };

    ghost invariant = { λ e. e.count ≤ 6 };
}

impl Ends {
    /// The tangents of the joints at the moment `place / 2^depth` of the motion.
    pub fn at(arm: &Arm, motion: &Motion, depth: u32, place: u32) -> Ends
        requires motion { IsMotion arm.now motion.now }
        requires depth { depth ≤ 20 }
        requires place { place ≤ 2 ^ depth }
        ensures value { result ≡ tangents_at motion.now depth place }
        ensures each { length result ≡ length arm.now }
        ensures limits { IsArm arm.now }
    {
        let mut joints = [End::straight(); 6];
        let count = arm.links();
        for k in 0..count {
            let tangent = tangent_at(motion.from.at(k), motion.to.at(k), depth, place);
            joints[k as usize] = End::at(tangent);
        }
        Ends { joints, count }
    }

    // The end of a joint's interval.
    pub(crate) fn joint(&self, k: u32) -> &End
        requires { k < length self.now }
        ensures { slice_get self.now k ≡ Some result.now }
    {
        &self.joints[k as usize]
    }
}
