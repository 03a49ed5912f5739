use super::*;
use std::test::Fail;

/// The coordinates of a ring, and the first side that does not turn left.
const RINGS: [(&[i32], Option<u32>); 9] = [
    (&[0, 0, 10, 0, 20, 0, 0, 10], Some(0)),
    (&[0, 0, 0, 10, 10, 0], Some(0)),
    (&[100, 0, -81, 59, 31, -95, 31, 95, -81, -59], Some(0)),
    (&[0, 0, 10, 0, 0, 10], None),
    (&[0, 0, 10, 0, 10, 10, 0, 10], None),
    (&[0, 0, 10, 0, 10, 10, 5, 10, 0, 10], Some(2)),
    (&[0, 0, 10, 0, 4, 4, 0, 10], Some(1)),
    (&[0, 0, 10, 0, 0, 10, 0, 0], Some(0)),
    (
        &[
            -65_536, -65_535, -65_535, -65_536, 65_535, -65_536, 65_536, -65_535, 65_536, 65_535,
            65_535, 65_536, -65_535, 65_536, -65_536, 65_535,
        ],
        None,
    ),
];

#[test]
fn rings_name_the_first_side_that_does_not_turn_left(_rt: HostRuntime) -> Result<(), Fail> {
    for (xy, bad) in RINGS {
        let Some(ring) = Ring::of(xy) else {
            assert!(_rt; false, "no ring");
            continue;
        };
        let want = match bad {
            Some(i) => Err(ShapeFault::Turn(i)),
            None => Ok(()),
        };
        assert_eq!(_rt; Shape::Poly(ring).check(), want);
        assert_eq!(_rt; 2 * ring.corners() as usize, xy.len());
        for i in 0..ring.corners() {
            assert_eq!(_rt; ring.x(i), xy[2 * i as usize]);
            assert_eq!(_rt; ring.y(i), xy[2 * i as usize + 1]);
        }
    }
    Ok(())
}

#[test]
fn odd_few_and_many_numbers_make_no_ring(rt: HostRuntime) -> Result<(), Fail> {
    for xy in [
        &[][..],
        &[0, 0, 1, 0],
        &[0, 0, 1, 0, 0],
        &[0; 7],
        &[0; 17],
        &[0; 18],
    ] {
        assert!(rt; Ring::of(xy).is_none());
    }
    Ok(())
}

#[test]
fn shapes_name_the_first_rule_that_they_break(rt: HostRuntime) -> Result<(), Fail> {
    let disc = |x, y, r| Shape::Disc { x, y, r };
    assert_eq!(rt; disc(65_536, -65_536, 65_536).check(), Ok(()));
    assert_eq!(rt; disc(0, 0, 65_537).check(), Err(ShapeFault::Radius));
    assert_eq!(rt; disc(0, -65_537, 65_537).check(), Err(ShapeFault::Range));
    let Some(far) = Ring::of(&[0, 0, 0, 10, 65_537, 0]) else {
        return Ok(());
    };
    assert_eq!(rt; Shape::Poly(far).check(), Err(ShapeFault::Range));
    Ok(())
}
