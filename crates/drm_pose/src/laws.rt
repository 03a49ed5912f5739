//! Laws of poses, pieces of motions, parts of links and reached points. Each function does nothing but call the laws that it
//! rests on: its contract is the law.

ghost use Rattle.drm_pose.specs.Laws.{WholeHasEachMoment, HalvesCover, PieceHasItsStart, PartsCover, PartHasItsStart, PosesEnclose, EachLinkHasBoxes, PartsHoldTheAxis, DeepPosesAreLeaves, PartsOfLeavesAreNarrow, ReversedPoses, HalvesShareEnds, HalvesAreInside, PiecesKeepInclusion, RunsKeepInclusion, ReachedIsWithin};

use drm_half::turns_keep_inclusion;

/// The one piece of depth 0 has every moment of a motion.
pub fn whole_has_each_moment()
    ensures { WholeHasEachMoment }
{}

/// Each moment of a piece of a motion is one of the piece's first half or of its second half.
pub fn halves_cover()
    ensures { HalvesCover }
{}

/// Each piece of a motion has the moment at which it begins.
pub fn piece_has_its_start()
    ensures { PieceHasItsStart }
{}

/// Each fraction from 0 to 1 lies in one of `n` equal parts, for an `n` of at least 1.
pub fn parts_cover()
    ensures { PartsCover }
{}

/// Each of `n` equal parts has the fraction at which it begins.
pub fn part_has_its_start()
    ensures { PartHasItsStart }
{}

/// The boxes of a piece of a motion, to a depth of 20, hold the arm at each moment of the piece.
pub fn poses_enclose()
    ensures { PosesEnclose }
{}

/// Each link of an arm has boxes in each pose.
pub fn each_link_has_boxes()
    ensures { EachLinkHasBoxes }
{}

/// The box of part `p` of `n` of a link, in a pose to a depth of 20, holds the points of the link's axis from its fraction
/// `p / n` to `(p + 1) / n`, at each moment of the pose's piece of the motion.
pub fn parts_hold_the_axis()
    ensures { PartsHoldTheAxis }
{}

/// A pose of depth 20 is narrow enough for every grid whose cells have a side of at least 128 units.
pub fn deep_poses_are_leaves()
    ensures { DeepPosesAreLeaves }
{}

/// Where a pose is narrow enough for cells of a side, and a link is cut in parts no longer than a sixteenth of the side, the
/// box of a part has sides of at most an eighth of the side, and two ulps.
pub fn parts_of_leaves_are_narrow()
    ensures { PartsOfLeavesAreNarrow }
{}

/// The poses of a reversed motion are those of the motion, the last first.
pub fn reversed_poses()
    ensures { ReversedPoses }
{}

/// The first half of a piece of a motion begins where the piece begins, so halves share the ends of the piece.
pub fn halves_share_ends()
    ensures { HalvesShareEnds }
{}

/// The boxes of either half of a piece of a motion, which was halved fewer than 20 times, lie in those of the piece. So what is
/// far from the boxes of a piece is far from those of its halves.
pub fn halves_are_inside()
    ensures { HalvesAreInside }
{
    turns_keep_inclusion();
}

/// Where the boxes of a link lie in others, the box of each piece of the link lies in that of the same piece, and so does the
/// box of each run of pieces.
pub fn pieces_keep_inclusion()
    ensures pieces { PiecesKeepInclusion }
    ensures runs { RunsKeepInclusion }
{}

/// A point that a motion reaches by a link is no farther from the base than the arm's reach, the link's radius and the pad.
pub fn reached_is_within()
    ensures { ReachedIsWithin }
{}
