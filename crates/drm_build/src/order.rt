//! The sets that hands have found, put in the order of the elements.

ghost use Rattle.std.specs.Prelude.{◌≡◌, ◌<◌, All, IfOk, IfSome, length};
ghost use Rattle.drm_arm.specs.Config.{IsConfig};
ghost use Rattle.drm_road.specs.Elements.{element_count};
ghost use Rattle.drm_build.specs.Sets.{AreSetsOf, IsSetAt};
ghost use Rattle.drm_build.specs.Found.{AreEmpty, ArePut, AreSlotsOf, IsFound};

use crate::counted::Counted;
use crate::hands::Found;
use crate::sets::{count_of, swept};
use drm_outside::Memory;
use drm_road::Road;
use drm_robot::Robot;
use std::alloc::Global;

/// The sets in the order of the elements. One that no hand has found is found here, so the order in which the hands took
/// the elements changes nothing.
pub(crate) fn in_order(
    alloc: Global,
    robot: &Robot,
    road: &Road,
    hands: Vec<Vec<Found>>,
) -> Result<Vec<Counted>, Memory>
    requires nodes { All (IsConfig robot.now.arm) road.now.nodes }
    requires found { All (λ hand. All (IsFound robot.now road.now) hand.items) hands.items }
    ensures { IfOk result (λ sets. AreSetsOf robot.now road.now sets.items) }
{
    let mut slots = empty(alloc, count_of(road))?;
    let mut left = hands;
    while let Some(hand) = left.pop() {
        put(slots.as_mut_slice(), hand);
    }
    filled(alloc, robot, road, slots)
}

/// So many empty slots.
fn empty(alloc: Global, count: u32) -> Result<Vec<Option<Counted>>, Memory>
    ensures { IfOk result (λ slots. AreEmpty count slots.items) }
{
    let mut slots = Vec::with_capacity(alloc, count as usize)?;
    for _ in 0..count {
        slots.push(None)?;
    }
    Ok(slots)
}

/// Puts each set into the slot at its place.
fn put(slots: &mut [Option<Counted>], hand: Vec<Found>)
    requires { All (λ found. found.place < length slots.old) hand.items }
    ensures { ArePut hand.items slots.old slots.new }
{
    let mut left = hand;
    while let Some(found) = left.pop() {
        let Found { place, set } = found;
        slots[place as usize] = Some(set);
    }
}

/// The sets in the slots, and what the elements sweep whose slots are empty.
fn filled(
    alloc: Global,
    robot: &Robot,
    road: &Road,
    slots: Vec<Option<Counted>>,
) -> Result<Vec<Counted>, Memory>
    requires nodes { All (IsConfig robot.now.arm) road.now.nodes }
    requires slots { AreSlotsOf robot.now road.now slots.items }
    ensures { IfOk result (λ sets. AreSetsOf robot.now road.now sets.items) }
{
    let mut left = slots;
    let count = count_of(road);
    let mut sets = Vec::with_capacity(alloc, count as usize)?;
    for place in 0..count {
        let slot = left[place as usize].take();
        sets.push(held_or_swept(alloc, robot, road, place, slot)?)?;
    }
    Ok(sets)
}

/// The set in the slot, or what the element at the place sweeps where the slot is empty.
fn held_or_swept(
    alloc: Global,
    robot: &Robot,
    road: &Road,
    place: u32,
    slot: Option<Counted>,
) -> Result<Counted, Memory>
    requires place { place < element_count road.now }
    requires nodes { All (IsConfig robot.now.arm) road.now.nodes }
    requires held { IfSome slot (IsSetAt robot.now road.now place) }
    ensures { IfOk result (IsSetAt robot.now road.now place) }
{
    match slot {
        Some(set) => Ok(set),
        None => swept(alloc, robot, road, place),
    }
}
