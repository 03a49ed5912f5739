//! Boxes that hold the links of an arm over a piece of a motion.
#![tactic(auto)]

mod boxes;
mod cut;
mod enclosure;
mod ends;
mod laws;
mod parts;
mod quotients;
mod tangents;

pub use boxes::Plate;
pub use cut::Cut;
pub use enclosure::{Pose, enclose, enclose_between};
pub use ends::Ends;
pub use laws::{
    deep_poses_are_leaves, each_link_has_boxes, halves_are_inside, halves_cover, halves_share_ends,
    part_has_its_start, parts_cover, parts_hold_the_axis, parts_of_leaves_are_narrow,
    piece_has_its_start, pieces_keep_inclusion, poses_enclose, reached_is_within, reversed_poses,
    whole_has_each_moment,
};

#[cfg(test)]
mod tests;
