//! The fields of JSON objects: whole numbers within a range.
ghost use Rattle.std.specs.Prelude.{◌≡◌, ◌^◌};
ghost use Rattle.serde_json.specs.View.{view};
ghost use Rattle.drm_robot.specs.Fields.{below_of, signed_of, from_one_of, field};

use crate::fault::{FieldName, RobotFault};
use serde_json::Value;

/// The whole number below 2^32 of the field.
pub fn u32_field(value: &Value, name: FieldName) -> Result<u32, RobotFault>
    ensures { result ≡ field name (below_of (2 ^ 32)) (view value.now) }
{
    match value.get(name.key()).and_then(u32_of) {
        Some(number) => Ok(number),
        None => Err(RobotFault::Field(name)),
    }
}

/// The whole number below 2^64 of the field.
pub fn u64_field(value: &Value, name: FieldName) -> Result<u64, RobotFault>
    ensures { result ≡ field name (below_of (2 ^ 64)) (view value.now) }
{
    match value.get(name.key()).and_then(Value::as_u64) {
        Some(number) => Ok(number),
        None => Err(RobotFault::Field(name)),
    }
}

/// The whole number of 32 bits, with its sign, of the field.
pub fn i32_field(value: &Value, name: FieldName) -> Result<i32, RobotFault>
    ensures { result ≡ field name signed_of (view value.now) }
{
    match value.get(name.key()).and_then(i32_of) {
        Some(number) => Ok(number),
        None => Err(RobotFault::Field(name)),
    }
}

/// The whole number from 1 to `most` of the field.
pub fn count_field(value: &Value, name: FieldName, most: u32) -> Result<u32, RobotFault>
    ensures { result ≡ field name (from_one_of most) (view value.now) }
{
    match value.get(name.key()).and_then(Value::as_u64) {
        Some(number) if 1 <= number && number <= u64::from(most) => Ok(number as u32),
        _ => Err(RobotFault::Field(name)),
    }
}

fn u32_of(value: &Value) -> Option<u32>
    ensures { result ≡ below_of (2 ^ 32) (view value.now) }
{
    let number = value.as_u64()?;
    if number > u64::from(u32::MAX) {
        return None;
    }
    Some(number as u32)
}

fn i32_of(value: &Value) -> Option<i32>
    ensures { result ≡ signed_of (view value.now) }
{
    let number = value.as_i64()?;
    if number < i64::from(i32::MIN) || number > i64::from(i32::MAX) {
        return None;
    }
    Some(number as i32)
}
