// The fields of a file, taken from the left of the bytes that are left.
ghost use Rattle.std.specs.Prelude.{◌≡◌, ◌-◌, length};
ghost use Rattle.std.specs.Int.{w16, w32};
ghost use Rattle.drm_mapfile.specs.declared.fault.FileFault.TheVariants.{Field as bad_field};
ghost use Rattle.drm_mapfile.specs.Fields.{Gives, byte_at, number_at, signed_at};

use crate::fault::FileFault;

/// The fault of the field at the front of these bytes, which are the last of `total`.
pub fn field(total: usize, bytes: &[u8]) -> FileFault
    ensures { result ≡ bad_field (total - length bytes.now) }
{
    FileFault::Field(total.saturating_sub(bytes.len()) as u64)
}

/// A byte, and the bytes behind it.
pub fn u8_at(total: usize, bytes: &[u8]) -> Result<(u8, &[u8]), FileFault>
    ensures { Gives (λ x. (x.0, x.1.now)) result (byte_at total bytes.now) }
{
    match bytes {
        [] => Err(FileFault::Short(total as u64)),
        [byte, rest @ ..] => Ok((*byte, rest)),
    }
}

/// A number of two bytes, and the bytes behind it.
pub fn u16_at(total: usize, bytes: &[u8]) -> Result<(u16, &[u8]), FileFault>
    ensures { Gives (λ x. (x.0, x.1.now)) result (number_at w16 total bytes.now) }
{
    if bytes.len() < 2 {
        return Err(FileFault::Short(total as u64));
    }
    let (front, rest) = bytes.split_at(2);
    Ok((u16::from_be_bytes([front[0], front[1]]), rest))
}

/// A number of four bytes, and the bytes behind it.
pub fn u32_at(total: usize, bytes: &[u8]) -> Result<(u32, &[u8]), FileFault>
    ensures { Gives (λ x. (x.0, x.1.now)) result (number_at w32 total bytes.now) }
{
    if bytes.len() < 4 {
        return Err(FileFault::Short(total as u64));
    }
    let (front, rest) = bytes.split_at(4);
    let number = u32::from_be_bytes([front[0], front[1], front[2], front[3]]);
    Ok((number, rest))
}

/// A coordinate, which is a number of two bytes with a sign, and the bytes behind it.
pub fn coordinate_at(total: usize, bytes: &[u8]) -> Result<(i32, &[u8]), FileFault>
    ensures { Gives (λ x. (x.0, x.1.now)) result (signed_at total bytes.now) }
{
    let (number, rest) = u16_at(total, bytes)?;
    Ok((i32::from(number.cast_signed()), rest))
}
