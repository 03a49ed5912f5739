//! The replies of all workers, in the order of the log.

ghost use Rattle.std.specs.Prelude.{◌≡◌, ◌<◌, [], ◌∷◌, ◌++◌, ℕ, List as Row, IfOk, Some, length, slice_get};
ghost use Rattle.drm_report.specs.Gathering.{AreGathered};
ghost use Rattle.drm_talk.specs.declared.Reply.{Reply as Told};
ghost use Rattle.drm_work.specs.Told.{AreTold, rows_of};

use drm_outside::{List, Memory};
use drm_talk::{Line, Reply};
use std::alloc::Global;

/// Puts the replies that each caller was told into the order of the log. Those of a caller alone are in it.
pub(crate) fn gathered(
    alloc: Global,
    lines: &[Line],
    told: Vec<Vec<Reply>>,
) -> Result<List<Reply>, Memory>
    requires { AreTold lines.now (rows_of told.items) }
    ensures { IfOk result (AreGathered lines.now (rows_of told.items)) }
{
    let mut told = told;
    if told.len() == 1 {
        if let Some(mine) = told.pop() {
            return Ok(List::from_vec(mine));
        }
    }
    gather(alloc, lines, told)
}

/// Puts the replies that each caller was told into the order of the log.
///
/// It goes from the last line to the first, and takes for each line the last reply that is left of its caller's.
fn gather(alloc: Global, lines: &[Line], told: Vec<Vec<Reply>>) -> Result<List<Reply>, Memory>
    requires { AreTold lines.now (rows_of told.items) }
    ensures { IfOk result (AreGathered lines.now (rows_of told.items)) }
{
    let mut left = told;
    let mut replies = Vec::with_capacity(alloc, lines.len())?;
    let mut place = lines.len();
    while place > 0 {
        place -= 1;
        let reply = last_of(&mut left, lines[place].caller as usize);
        replies.push_reserved(reply);
    }
    replies.reverse();
    Ok(List::from_vec(replies))
}

/// The last reply that is left of the caller's, which is taken off.
fn last_of(left: &mut Vec<Vec<Reply>>, caller: usize) -> Reply
    requires there { caller < length left.old.items }
    requires some { (mine : Row Told) → slice_get (rows_of left.old.items) caller ≡ Some mine → 0 < length mine }
    ensures long { length (rows_of left.new.items) ≡ length (rows_of left.old.items) }
    ensures last { (rest : Row Told) × (slice_get (rows_of left.old.items) caller ≡ Some (rest ++ result ∷ []))
        × (slice_get (rows_of left.new.items) caller ≡ Some rest) }
    ensures others { (other : ℕ) → ¬ (other ≡ caller)
        → slice_get (rows_of left.new.items) other ≡ slice_get (rows_of left.old.items) other }
{
    match left[caller].pop() {
        Some(reply) => reply,
        None => unreachable!(),
    }
}
