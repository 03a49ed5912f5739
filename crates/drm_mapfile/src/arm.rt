// The links of the arm.
ghost use Rattle.std.specs.Prelude.{◌≡◌, ◌≤◌, ◌+◌, [], IfOk};
ghost use Rattle.drm_arm.specs.Arm.{reach_of};
ghost use Rattle.drm_arm.specs.Limits.{max_reach};
ghost use Rattle.drm_mapfile.specs.Fields.{Gives, many};
ghost use Rattle.drm_mapfile.specs.Reading.{limits_at, link_at, arm_at};

use crate::fault::FileFault;
use crate::fields::{coordinate_at, field, u8_at, u16_at};
use drm_arm::{
    Arm, Link, MAX_COORDINATE, MAX_LENGTH, MAX_LINKS, MAX_RADIUS, MAX_REACH, MIN_COORDINATE,
};
use std::alloc::Global;

/// The arm at the front of the bytes, and the bytes behind it.
#[tactic(auto, unfolding(crate::specs::Reading::arm_at))]
pub fn take_arm(alloc: Global, total: usize, bytes: &[u8]) -> Result<(Arm, &[u8]), FileFault>
    ensures { Gives (λ x. (x.0, x.1.now)) result (arm_at total bytes.now) }
{
    let (count, rest) = u8_at(total, bytes)?;
    if count < 1 || MAX_LINKS < count as usize {
        return Err(field(total, bytes));
    }
    let (links, rest) = take_links(alloc, total, count, rest)?;
    match Arm::new(&links) {
        Ok(arm) => Ok((arm, rest)),
        Err(_) => unreachable!(),
    }
}

fn take_links(
    alloc: Global,
    total: usize,
    count: u8,
    bytes: &[u8],
) -> Result<(Vec<Link>, &[u8]), FileFault>
    ensures { Gives (λ x. (x.0.items, x.1.now)) result
        (many (λ front. link_at total (reach_of front)) count [] bytes.now) }
{
    let mut links = Vec::new(alloc);
    let mut reach = 0;
    let mut rest = bytes;
    for _ in 0..count {
        let (link, after) = take_link(total, reach, rest)?;
        reach += link.len;
        links.push(link)?;
        rest = after;
    }
    Ok((links, rest))
}

/// A link behind others whose lengths sum to `reach`.
#[tactic(auto, unfolding(crate::specs::Reading::link_at))]
fn take_link(total: usize, reach: u32, bytes: &[u8]) -> Result<(Link, &[u8]), FileFault>
    requires { reach ≤ max_reach }
    ensures exact { Gives (λ x. (x.0, x.1.now)) result (link_at total reach bytes.now) }
    ensures few { IfOk result (λ x. reach + x.0.len ≤ max_reach) }
{
    let (len, at_radius) = u16_at(total, bytes)?;
    let len = u32::from(len);
    if len < 1 || MAX_LENGTH < len || MAX_REACH < u64::from(reach + len) {
        return Err(field(total, bytes));
    }
    let (radius, at_limits) = u16_at(total, at_radius)?;
    let radius = u32::from(radius);
    if MAX_RADIUS < radius {
        return Err(field(total, at_radius));
    }
    let ((lo, hi), rest) = take_limits(total, at_limits)?;
    let link = Link {
        len,
        radius,
        lo,
        hi,
    };
    Ok((link, rest))
}

/// The least and the greatest coordinate of a joint.
#[tactic(auto, unfolding(crate::specs::Reading::limits_at))]
fn take_limits(total: usize, bytes: &[u8]) -> Result<((i32, i32), &[u8]), FileFault>
    ensures { Gives (λ x. (x.0, x.1.now)) result (limits_at total bytes.now) }
{
    let (lo, at_hi) = coordinate_at(total, bytes)?;
    if lo < MIN_COORDINATE || MAX_COORDINATE < lo {
        return Err(field(total, bytes));
    }
    let (hi, rest) = coordinate_at(total, at_hi)?;
    if hi < lo || MAX_COORDINATE < hi {
        return Err(field(total, at_hi));
    }
    Ok(((lo, hi), rest))
}
