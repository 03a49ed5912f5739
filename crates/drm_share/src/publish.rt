//! What the writer does.

ghost use Rattle.std.specs.Prelude.{◌≡◌, [], ◌∷◌, ◌++◌, IfOk, drop, Some};
ghost use Rattle.left_right.specs.Sides.{view};
ghost use Rattle.drm_share.specs.Published.{mark, next, CanFollow};

use crate::rule::{Marks, ShownWriter};
use crate::shown::Update;
use drm_outside::Memory;
use std::sync::Wait;

/// Shows readers the value after the update, and waits until they have left the copy that is to change.
///
/// It fits `replace_with`, so it takes the runtime and the update as one.
pub(crate) fn show<R: Wait>(writer: ShownWriter, with: (&R, Update)) -> (ShownWriter, ())
    requires none_pending { drop writer.behind writer.log.items ≡ [] }
    requires follows { CanFollow writer.desk.shown.value with.1 }
    ensures none_pending { drop result.0.behind result.0.log.items ≡ [] }
    ensures value { result.0.desk.shown.value ≡ next writer.desk.shown.value with.entry.1 }
    ensures view { view result.0.desk.place ≡ Some (mark result.0.desk.shown.value) }
{
    let (rt, update) = with;
    let mut writer = writer;
    append(&mut writer, rt, update);
    let (writer, _published) = writer.publish_as::<Marks, R>(rt);
    (writer, ())
}

/// Shows readers the value after the update, as [`show`] does, where the writer's list has room for it. Else the writer is
/// ended.
pub(crate) fn try_show<R: Wait>(
    rt: &R,
    writer: ShownWriter,
    update: Update,
) -> Result<ShownWriter, Memory>
    requires none_pending { drop writer.behind writer.log.items ≡ [] }
    requires follows { CanFollow writer.desk.shown.value update }
    ensures none_pending { IfOk result (λ later. drop later.behind later.log.items ≡ []) }
    ensures value { IfOk result (λ later. later.desk.shown.value ≡ next writer.desk.shown.value update) }
    ensures view { IfOk result (λ later. view later.desk.place ≡ Some (mark later.desk.shown.value)) }
{
    let mut writer = writer;
    match writer.append(update) {
        Ok(()) => {
            let (writer, _published) = writer.publish_as::<Marks, R>(rt);
            Ok(writer)
        }
        Err(_back) => {
            writer.take(rt);
            Err(Memory)
        }
    }
}

/// Puts the update into the writer's list. The list has room for it since the opening; no contract says that a list keeps
/// its room, so an update that comes back is put again.
fn append<R: Wait>(writer: &mut ShownWriter, rt: &R, update: Update)
    ensures desk { writer.new.desk ≡ writer.old.desk }
    ensures pending { drop writer.new.behind writer.new.log.items
        ≡ drop writer.old.behind writer.old.log.items ++ update ∷ [] }
{
    let mut update = update;
    for _ in rt.forever() {
        match writer.append(update) {
            Ok(()) => return,
            Err(back) => update = back,
        }
    }
    unreachable!()
}
