//! Several hands find the sets of a road's elements: each takes the next element that none has taken, until none is left.

ghost use Rattle.std.specs.Prelude.{◌≡◌, ◌<◌, All, IfOk};
ghost use Rattle.drm_arm.specs.Config.{IsConfig};
ghost use Rattle.drm_road.specs.Elements.{element_count};
ghost use Rattle.drm_build.specs.Found.{IsFound};

use crate::counted::Counted;
use crate::sets::{count_of, swept};
use drm_outside::Memory;
use drm_road::Road;
use drm_robot::Robot;
use rayon::prelude::*;
use std::alloc::Global;
use std::sync::atomic::{AtomicU32, Ordering};
use std::thread::Threads;

/// How many hands there are: as many as `rayon` makes pieces at most, so that no thread is without a hand. A hand that
/// comes when no element is left finds nothing.
const HANDS: u32 = 64;

/// What an element sweeps.
#[derive(Drop)]
pub(crate) struct Found {
    /// The place of the element: the nodes come before the edges.
    pub(crate) place: u32,
    /// The cells that it sweeps.
    pub(crate) set: Counted,
}

/// What the elements sweep, found by some two threads for each processor.
///
/// An element is taken when a thread is free for it, so that threads which start late, or meet elements that take long,
/// take fewer.
pub(crate) fn found_by_hands<R: Threads + Sync>(
    rt: &R,
    alloc: Global,
    robot: &Robot,
    road: &Road,
) -> Result<Vec<Vec<Found>>, Memory>
    requires { All (IsConfig robot.now.arm) road.now.nodes }
    ensures { IfOk result (λ hands. All (λ hand. All (IsFound robot.now road.now) hand.items) hands.items) }
{
    let untaken = AtomicU32::new(0);
    let next = &untaken;
    (0..HANDS)
        .into_par_iter()
        .with_min_len(1)
        .map(
            |_hand: u32| -> Result<Vec<Found>, Memory>
                requires { All (IsConfig robot.now.arm) road.now.nodes }
                ensures { IfOk result (λ hand. All (IsFound robot.entry.now road.entry.now) hand.items) }
            { found_by_one(alloc, robot, road, next) },
        )
        .collect::<Result<Vec<Vec<Found>>, Memory>>(rt, alloc)?
}

/// What the elements sweep that this hand takes: it takes the next one, until none is left.
fn found_by_one(
    alloc: Global,
    robot: &Robot,
    road: &Road,
    next: &AtomicU32,
) -> Result<Vec<Found>, Memory>
    requires { All (IsConfig robot.now.arm) road.now.nodes }
    ensures { IfOk result (λ hand. All (IsFound robot.now road.now) hand.items) }
{
    let count = count_of(road);
    let mut hand = Vec::new(alloc);
    for _ in 0..count {
        let place = next.fetch_add(1, Ordering::Relaxed);
        if count <= place {
            break;
        }
        let set = swept(alloc, robot, road, place)?;
        hand.push(Found { place, set })?;
    }
    Ok(hand)
}
