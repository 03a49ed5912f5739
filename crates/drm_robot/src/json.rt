//! Reading a robot from JSON.
ghost use Rattle.std.specs.Prelude.{◌≡◌, ◌⊎◌, IfOk};
ghost use Rattle.serde_json.specs.Errors.{IsMemory};
ghost use Rattle.serde_json.specs.View.{view, items_view};
ghost use Rattle.drm_robot.specs.Reading.{Gives, object_in, link_of, links_of, description_of, robot_fault, robot_in, unbroken, described, IsDrawn};

use crate::fault::{FieldName, RobotFault};
use crate::fields::{count_field, i32_field, u32_field, u64_field};
use crate::robot::Robot;
use drm_arm::{Arm, Link};
use drm_grid::Grid;
use drm_outside::List;
use drm_road::{MAX_DRAWS, MAX_NEAR};
use serde_json::{Error, Value};
use std::alloc::Global;

/// What a JSON object says of a robot, whether or not it is one.
#[derive(Drop)]
pub struct Description {
    pub links: List<Link>,
    pub side: u32,
    pub cells: u32,
    pub seed: u64,
    pub draws: u32,
    pub near: u32,
}

/// The robot that the bytes describe, or the first fault. The bytes are one JSON object with the fields that `FieldName`
/// lists; other keys are ignored, and of a key that is repeated the last value counts. A number with a point or an
/// exponent is no whole number, nor is `-0`. `Memory` may come in place of any answer.
#[tactic(auto, unfolding(crate::specs::Reading::robot_in))]
pub fn read(alloc: Global, bytes: &[u8]) -> Result<Robot, RobotFault>
    ensures exact { Gives described result (robot_in bytes.now) }
{
    let value = object(alloc, bytes)?;
    let description = describe(alloc, &value)?;
    robot(&description)
}

/// The JSON object that the bytes are.
fn object(alloc: Global, bytes: &[u8]) -> Result<Value, RobotFault>
    ensures { Gives view result (object_in bytes.now) }
{
    let value = match Value::from_slice(alloc, bytes) {
        Ok(value) => value,
        Err(error) => return Err(refusal(&error)),
    };
    if value.is_object() {
        Ok(value)
    } else {
        Err(RobotFault::Json)
    }
}

/// The fault of bytes that were not read.
fn refusal(error: &Error) -> RobotFault
    ensures { ((result ≡ RobotFault.Memory) × IsMemory error.now)
        ⊎ ((result ≡ RobotFault.Json) × (¬ IsMemory error.now)) }
{
    if error.is_memory() {
        RobotFault::Memory
    } else {
        RobotFault::Json
    }
}

#[tactic(auto, unfolding(crate::specs::Reading::description_of))]
fn describe(alloc: Global, value: &Value) -> Result<Description, RobotFault>
    ensures exact { Gives (λ d. d) result (description_of (view value.now)) }
    ensures drawn { IfOk result IsDrawn }
{
    let Some(array) = value.get(FieldName::Links.key()).and_then(Value::as_array) else {
        return Err(RobotFault::Field(FieldName::Links));
    };
    let links = links(alloc, array)?;
    let side = u32_field(value, FieldName::Side)?;
    let cells = u32_field(value, FieldName::Cells)?;
    let seed = u64_field(value, FieldName::Seed)?;
    let draws = count_field(value, FieldName::Draws, MAX_DRAWS)?;
    let near = count_field(value, FieldName::Near, MAX_NEAR)?;
    Ok(Description {
        links: List::from_vec(links),
        side,
        cells,
        seed,
        draws,
        near,
    })
}

fn links(alloc: Global, array: &[Value]) -> Result<Vec<Link>, RobotFault>
    ensures { Gives (λ links. links.items) result (links_of (items_view array.now)) }
{
    let mut links = Vec::new(alloc);
    for value in array {
        links.push(link(value)?)?;
    }
    Ok(links)
}

#[tactic(auto, unfolding(crate::specs::Reading::link_of))]
fn link(value: &Value) -> Result<Link, RobotFault>
    ensures { result ≡ link_of (view value.now) }
{
    if !value.is_object() {
        return Err(RobotFault::Field(FieldName::Links));
    }
    let len = u32_field(value, FieldName::Len)?;
    let radius = u32_field(value, FieldName::Radius)?;
    let lo = i32_field(value, FieldName::Lo)?;
    let hi = i32_field(value, FieldName::Hi)?;
    Ok(Link {
        len,
        radius,
        lo,
        hi,
    })
}

/// The robot that is described, or the first rule that it breaks.
fn robot(description: &Description) -> Result<Robot, RobotFault>
    requires { IsDrawn description.now }
    ensures { Gives described result (unbroken (robot_fault description.now) description.now) }
{
    let arm = Arm::new(description.links.as_slice())?;
    let grid = Grid::new(description.side, description.cells)?;
    if !grid.fits(&arm) {
        return Err(RobotFault::Fit);
    }
    Ok(Robot {
        arm,
        grid,
        seed: description.seed,
        draws: description.draws,
        near: description.near,
    })
}
