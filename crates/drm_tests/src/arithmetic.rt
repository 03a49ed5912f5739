//! Values worked out by hand and with exact fractions.

ghost use Rattle.std.specs.Prelude.{ℤ, pos, neg_ℤ, ◌^◌};
ghost use Rattle.drm_num.specs.Interval.{EndsWithin, unit};

use drm_half::turn;
use drm_num::{Iv, mul_add2, mul_sub2};
use std::process::Abort;

/// The low end of an interval, and the high one.
type Ends = (i64, i64);

const ONE: i64 = 1 << 30;

const FAR: i64 = 1 << 50;

fn within_one(rt: &impl Abort, ends: Ends) -> Iv
    ensures { EndsWithin unit result }
{
    let lo = ends.0;
    let hi = ends.1;
    assert!(rt; -ONE <= lo);
    assert!(rt; lo <= hi);
    assert!(rt; hi <= ONE);
    Iv::of(lo, hi)
}

fn within_far(rt: &impl Abort, ends: Ends) -> Iv
    ensures { EndsWithin (pos (2 ^ 50)) result }
{
    let lo = ends.0;
    let hi = ends.1;
    assert!(rt; -FAR <= lo);
    assert!(rt; lo <= hi);
    assert!(rt; hi <= FAR);
    Iv::of(lo, hi)
}

fn ends(a: Iv) -> Ends {
    (a.lo(), a.hi())
}

/// Four intervals within 1, what encloses the sum of two products of them, and what encloses the difference.
const PRODUCTS: [([Ends; 4], [Ends; 2]); 11] = [
    (
        [(ONE, ONE), (ONE, ONE), (ONE, ONE), (ONE, ONE)],
        [(2147483648, 2147483648), (0, 0)],
    ),
    (
        [(-ONE, ONE), (-ONE, ONE), (-ONE, ONE), (-ONE, ONE)],
        [(-2147483648, 2147483648), (-2147483648, 2147483648)],
    ),
    (
        [(-ONE, -ONE), (ONE, ONE), (ONE, ONE), (-ONE, -ONE)],
        [(-2147483648, -2147483648), (0, 0)],
    ),
    ([(3, 5), (-7, -2), (1, 1), (1, 1)], [(-1, 0), (-1, 0)]),
    ([(-3, 4), (-5, 6), (-7, 8), (-9, 10)], [(-1, 1), (-1, 1)]),
    ([(1, 1), (1, 1), (0, 0), (0, 0)], [(0, 1), (0, 1)]),
    ([(-1, -1), (1, 1), (0, 0), (0, 0)], [(-1, 0), (-1, 0)]),
    (
        [(ONE / 2, ONE / 2), (1, 1), (0, 0), (5, 5)],
        [(0, 1), (0, 1)],
    ),
    (
        [(-ONE / 2, -ONE / 2), (1, 1), (0, 0), (5, 5)],
        [(-1, 0), (-1, 0)],
    ),
    (
        [
            (500000001, 500000002),
            (-700000003, -600000001),
            (-123456789, -100000000),
            (987654321, 987654322),
        ],
        [(-439521516, -371379249), (-233980428, -165838161)],
    ),
    (
        [
            (-1000000007, -1000000006),
            (-1000000009, -999999999),
            (ONE / 2, ONE / 2),
            (3, 3),
        ],
        [(931322580, 931322592), (931322577, 931322589)],
    ),
];

/// What encloses the sum and the difference of a times b and c times d.
fn combined_products(a: Iv, b: Iv, c: Iv, d: Iv) -> [Ends; 2]
    requires a { EndsWithin unit a }
    requires b { EndsWithin unit b }
    requires c { EndsWithin unit c }
    requires d { EndsWithin unit d }
{
    [ends(mul_add2(a, b, c, d)), ends(mul_sub2(a, b, c, d))]
}

#[test]
fn two_products_are_enclosed(rt: HostRuntime) {
    for ([a, b, c, d], want) in PRODUCTS {
        let found = combined_products(
            within_one(&rt, a),
            within_one(&rt, b),
            within_one(&rt, c),
            within_one(&rt, d),
        );
        assert_eq!(rt; found, want);
    }
}

/// The ends of two intervals, and those of their sum, difference and hull, the gap between them, and the width of the first.
const PAIRS: [([i64; 4], [i64; 8]); 7] = [
    ([-5, 3, 2, 10], [-3, 13, -15, 1, -5, 10, 0, 8]),
    ([-5, -3, 2, 10], [-3, 7, -15, -5, -5, 10, 5, 2]),
    ([2, 10, -5, -3], [-3, 7, 5, 15, -5, 10, 5, 8]),
    ([0, 4, 4, 9], [4, 13, -9, 0, 0, 9, 0, 4]),
    ([0, 4, 5, 9], [5, 13, -9, -1, 0, 9, 1, 4]),
    ([7, 7, 7, 7], [14, 14, 0, 0, 7, 7, 0, 0]),
    (
        [-FAR, -FAR, FAR, FAR],
        [
            0,
            0,
            -2251799813685248,
            -2251799813685248,
            -FAR,
            FAR,
            2251799813685248,
            0,
        ],
    ),
];

/// What comes of two intervals, in the order of the table.
fn combined(a: Iv, b: Iv) -> [i64; 8]
    requires a { EndsWithin (pos (2 ^ 50)) a }
    requires b { EndsWithin (pos (2 ^ 50)) b }
{
    let sum = a.add(b);
    let difference = a.sub(b);
    let hull = a.hull(b);
    [
        sum.lo(),
        sum.hi(),
        difference.lo(),
        difference.hi(),
        hull.lo(),
        hull.hi(),
        a.gap(b),
        a.width(),
    ]
}

#[test]
fn intervals_are_combined(rt: HostRuntime) {
    for ([a, b, c, d], want) in PAIRS {
        let first = within_far(&rt, (a, b));
        let second = within_far(&rt, (c, d));
        assert_eq!(rt; combined(first, second), want);
    }
}

#[test]
fn intervals_are_cut_and_scaled(rt: HostRuntime) {
    let wide = Iv::of(-2147483648, 5);
    let high = Iv::of(ONE, 3221225472);
    assert_eq!(rt;
        [
            ends(wide.cut_unit()),
            ends(high.cut_unit()),
            ends(wide.scale(4096)),
            ends(wide.scale(0)),
        ],
        [
            (-1073741824, 5),
            (1073741824, 1073741824),
            (-8796093022208, 20480),
            (0, 0),
        ]
    );
}

/// The greatest tangent that a turn takes.
const STEEP: i64 = 1 << 32;

/// Where a tangent of half an angle lies, and where its cosine and its sine lie.
const TURNS: [(Ends, Ends, Ends); 19] = [
    // Between tangents that lie on both sides of 1, where the sine is greatest, and of -1.
    (
        (943718400, 1153433600),
        (-76742027, 137830807),
        (1064858757, 1073741824),
    ),
    (
        (-1153433600, -943718400),
        (-76742027, 137830807),
        (-1073741824, -1064858757),
    ),
    ((ONE - 1, ONE + 1), (-1, 2), (1073741823, 1073741824)),
    ((-ONE - 1, -ONE + 1), (-1, 2), (-1073741824, -1073741823)),
    // At the widest ends.
    (
        (STEEP, STEEP),
        (-947419257, -947419256),
        (505290270, 505290271),
    ),
    (
        (-STEEP, -STEEP),
        (-947419257, -947419256),
        (-505290271, -505290270),
    ),
    (
        (-STEEP, STEEP),
        (-947419257, 1073741824),
        (-1073741824, 1073741824),
    ),
    // At one place.
    ((0, 0), (1073741824, 1073741824), (0, 0)),
    ((ONE, ONE), (0, 0), (1073741824, 1073741824)),
    ((-ONE, -ONE), (0, 0), (-1073741824, -1073741824)),
    ((1, 1), (1073741823, 1073741824), (1, 2)),
    ((-1, -1), (1073741823, 1073741824), (-2, -1)),
    // From 1 or -1 outwards, and between them.
    ((ONE, STEEP), (-947419257, 0), (505290270, 1073741824)),
    ((-STEEP, -ONE), (-947419257, 0), (-1073741824, -505290270)),
    ((ONE + 1, 2 * ONE), (-644245095, 0), (858993459, 1073741824)),
    ((-ONE, ONE), (0, 1073741824), (-1073741824, 1073741824)),
    ((-5, 3), (1073741823, 1073741824), (-10, 6)),
    (
        (123456789, 234567890),
        (975923474, 1045722585),
        (243691979, 447766543),
    ),
    (
        (2147483648, 3221225479),
        (-858993461, -644245094),
        (644245093, 858993460),
    ),
];

#[test]
fn turns_are_enclosed(rt: HostRuntime) {
    for ((lo, hi), cosines, sines) in TURNS {
        assert!(rt; -STEEP <= lo && lo <= hi && hi <= STEEP);
        let spin = turn(Iv::of(lo, hi));
        assert_eq!(rt; (ends(spin.c), ends(spin.s)), (cosines, sines));
    }
}
