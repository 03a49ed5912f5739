//! What is known of passes that threads had for a while.

ghost use Rattle.drm_share.specs.Closing.{PassesStayOneEach};

/// A law: passes that are still those of their callers, as each call of a pass leaves it, are still one for each caller. So
/// they can be handed back to [`crate::Planner::close`].
pub fn passes_stay_one_each()
    ensures { PassesStayOneEach }
{}
