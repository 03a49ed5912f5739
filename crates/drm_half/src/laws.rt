//! Laws of turns. Each function does nothing: its contract is the law.

ghost use Rattle.drm_half.specs.Laws.{CosinesKeepInclusion, SinesKeepInclusion};

/// What `turn` gives for a smaller interval of half-angle tangents lies in what it gives for a larger one.
pub fn turns_keep_inclusion()
    ensures cosines { CosinesKeepInclusion }
    ensures sines { SinesKeepInclusion }
{}
