// The expected numbers were worked out apart from this program, in exact arithmetic, from the rules alone.
ghost use Rattle.std.specs.Prelude.{◌^◌, ◌<◌, ◌≤◌, ◌≡◌, length, IfSome};

use super::*;
use drm_arm::{Arm, Link, Motion};
use std::test::Fail;

fn link(len: u32) -> Link {
    Link {
        len,
        radius: 0,
        lo: -4096,
        hi: 4096,
    }
}

// The pose of the arm of these links over one piece of the motion between two configurations.
fn posed(links: &[Link], from: &[i32], to: &[i32], depth: u32, index: u32) -> Option<Pose>
    requires depth { depth ≤ 20 }
    requires index { index < 2 ^ depth }
    ensures { IfSome result (λ pose. length pose ≡ length links.now) }
{
    let Ok(arm) = Arm::new(links) else {
        return None;
    };
    let Ok(from) = arm.config(from) else {
        return None;
    };
    let Ok(to) = arm.config(to) else {
        return None;
    };
    Some(enclose(&arm, &Motion { from, to }, depth, index))
}

// The ends of the box of a piece: the least and the greatest x, and so for y.
fn corners(pose: &Pose, link: u32, p: u32, n: u32) -> [i64; 4]
    requires link { link < length pose.now }
    requires piece { p < n }
    requires few { n ≤ 512 }
{
    let plate = pose.piece(link, p, n);
    [plate.x.lo(), plate.x.hi(), plate.y.lo(), plate.y.hi()]
}

fn no_pose() -> Result<(), Fail> {
    Err("the arm and its configurations are within the limits")?;
    Ok(())
}

#[test]
fn ends_of_one_link(rt: HostRuntime) -> Result<(), Fail> {
    // The last of 512 pieces holds the end: (600, 800), (0, 1,000) and (-600, -800), of 2^30 ulps a unit.
    let Some(pose) = posed(&[link(1000)], &[512], &[512], 0, 0) else {
        return no_pose();
    };
    assert_eq!(rt; pose.spread(), 1000);
    assert_eq!(rt;
        corners(&pose, 0, 511, 512),
        [642986802800, 644245095000, 857315737400, 858993460000]
    );

    let Some(pose) = posed(&[link(1000)], &[1024], &[1024], 20, 7) else {
        return no_pose();
    };
    assert_eq!(rt; pose.spread(), 0);
    assert_eq!(rt; corners(&pose, 0, 0, 1), [0, 0, 0, 1073741824000]);

    let Some(pose) = posed(&[link(1000)], &[-2048], &[-2048], 0, 0) else {
        return no_pose();
    };
    assert_eq!(rt;
        corners(&pose, 0, 0, 1),
        [-644245095000, 0, -858993460000, 0]
    );
    Ok(())
}

#[test]
fn pieces_of_several_links(rt: HostRuntime) -> Result<(), Fail> {
    let Some(pose) = posed(&[link(400), link(300)], &[-300, 100], &[500, 700], 2, 1) else {
        return no_pose();
    };
    assert_eq!(rt; pose.spread(), 349512884700);
    assert_eq!(rt;
        corners(&pose, 0, 2, 3),
        [280921410933, 429496729600, -83093637600, 83093637600]
    );
    assert_eq!(rt;
        corners(&pose, 1, 0, 3),
        [421382116400, 536870912000, -83093637600, 174310600900]
    );
    assert_eq!(rt;
        corners(&pose, 1, 2, 3),
        [548126204800, 751619276800, -22876784000, 356744527500]
    );

    let Some(pose) = posed(
        &[link(200), link(100), link(50)],
        &[1024, -700, 3],
        &[0, -100, 3],
        3,
        6,
    ) else {
        return no_pose();
    };
    assert_eq!(rt; pose.spread(), 109285784750);
    assert_eq!(rt;
        corners(&pose, 1, 4, 7),
        [242547079028, 284836567572, 35361062157, 112627835700]
    );
    assert_eq!(rt;
        corners(&pose, 2, 511, 512),
        [328635983412, 369201996600, 16383241750, 125669026500]
    );
    Ok(())
}

#[test]
fn spread_of_six_links(rt: HostRuntime) -> Result<(), Fail> {
    let links = [
        link(683),
        link(683),
        link(683),
        link(683),
        link(682),
        link(682),
    ];
    let Some(first) = posed(&links, &[-4096; 6], &[4096; 6], 20, 0) else {
        return no_pose();
    };
    let Some(middle) = posed(&links, &[-4096; 6], &[4096; 6], 20, 524288) else {
        return no_pose();
    };
    assert_eq!(rt; (first.spread(), middle.spread()), (20700529, 234815488));
    Ok(())
}
