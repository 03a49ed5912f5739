//! What each slot holds after some entries.

ghost use Rattle.std.specs.Prelude.{◌≡◌, ◌<◌, ℕ, All, IfOk, IfSome, None, slice_index_or};
ghost use Rattle.drm_shape.specs.Validity.{IsValid};
ghost use Rattle.drm_talk.specs.History.{shape_in};
ghost use Rattle.drm_talk.specs.Limits.{slots};

use drm_shape::Shape;
use drm_talk::{Entry, SLOTS};
use std::alloc::{AllocError, Global};

/// What each slot holds after the entries.
pub fn table_of(alloc: Global, entries: &[Entry]) -> Result<Vec<Option<Shape>>, AllocError>
    requires slots { All (λ entry. entry.slot < slots) entries.now }
    requires shapes { All (λ entry. IfSome entry.shape IsValid) entries.now }
    ensures slots { IfOk result
        (λ table. (slot : ℕ) → slice_index_or table.items slot None ≡ shape_in entries.now slot) }
    ensures valid { IfOk result (λ table. All (λ held. IfSome held IsValid) table.items) }
{
    let mut table = vec![in alloc; None; SLOTS as usize]?;
    for entry in entries {
        table[entry.slot as usize] = entry.shape;
    }
    Ok(table)
}
