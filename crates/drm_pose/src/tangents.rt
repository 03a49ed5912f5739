//! The half-angle tangent of a joint at a moment of a motion.

ghost use Rattle.std.specs.Prelude.{◌≡◌, ℕ, ◌+◌, ◌^◌, ◌≤◌, ◌<◌, ℤ, pos, neg_ℤ, ◌+ℤ◌, ◌*ℤ◌, ◌≤ℤ◌};
ghost use Rattle.drm_num.specs.Small.{IsSmall};
ghost use Rattle.drm_pose.specs.Boxes.{tangent_at};

/// The tangent of a joint that goes from one coordinate to another, at the end of the first `i` of the `2^depth` pieces of
/// its motion, in ulps.
pub fn tangent_at(from: i32, to: i32, depth: u32, i: u32) -> i64
    requires from_in { IsSmall (pos 4096) from }
    requires to_in { IsSmall (pos 4096) to }
    requires depth { depth ≤ 20 }
    requires place { i ≤ 2 ^ depth }
    ensures value { result ≡ tangent_at from to depth i }
    ensures small { IsSmall (pos (2 ^ 32)) result }
{
    let start = i64::from(from);
    end_of(
        start,
        i64::from(to) - start,
        power(depth),
        i64::from(i),
        power(20 - depth),
    )
}

// `scale` times the number that is `rise * place` above `start * pieces`.
fn end_of(start: i64, rise: i64, pieces: i64, place: i64, scale: i64) -> i64
    requires start_in { IsSmall (pos (2 ^ 12)) start }
    requires rise_in { IsSmall (pos (2 ^ 13)) rise }
    requires pieces_in { IsSmall (pos (2 ^ 20)) pieces }
    requires place_in { IsSmall (pos (2 ^ 20)) place }
    requires scale_in { IsSmall (pos (2 ^ 20)) scale }
    ensures { result ≡ ((start *ℤ pieces) +ℤ (rise *ℤ place)) *ℤ scale }
{
    (start * pieces + rise * place) * scale
}

fn power(exponent: u32) -> i64
    requires { exponent ≤ 20 }
    ensures value { result ≡ pos (2 ^ exponent) }
    ensures small { IsSmall (pos (2 ^ 20)) result }
{
    1 << exponent
}
