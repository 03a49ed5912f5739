use super::*;
use drm_arm::{Arm, Link};
use drm_cellmap::Map;
use drm_grid::Grid;
use drm_robot::Robot;
use drm_talk::Element;
use std::test::Fail;

const fn link(len: u32) -> Link {
    Link {
        len,
        radius: 40,
        lo: -1024,
        hi: 1024,
    }
}

/// The robot with these links, cells of side 128 and `n` rows, drawn with seed 7.
fn robot(links: &[Link], n: u32, draws: u32, near: u32) -> Result<Robot, Fail> {
    let arm = Arm::new(links).ok().ok_or("an arm")?;
    let grid = Grid::new(128, n).ok().ok_or("a grid")?;
    if !grid.fits(&arm) || draws < 1 || 2_048 < draws || near < 1 || 16 < near {
        return Err("a robot within the limits".into());
    }
    Ok(Robot {
        arm,
        grid,
        seed: 7,
        draws,
        near,
    })
}

/// Whether the two maps store the same cells for the element.
fn store_alike(one: &Map, other: &Map, e: Element) -> bool {
    match (one.index(e), other.index(e)) {
        (Some(_), Some(_)) => one.stored(e) == other.stored(e),
        _ => false,
    }
}

#[test]
fn a_robot_has_one_map(rt: HostRuntime) -> Result<(), Fail> {
    let alloc = rt.alloc();
    let robot = robot(&[link(400), link(300), link(200)], 16, 150, 6)?;
    let one = build(&rt, alloc, &robot).ok().ok_or("a map")?;
    let other = build(&rt, alloc, &robot).ok().ok_or("a map")?;
    let (nodes, edges) = (one.road().nodes(), one.road().edges());
    assert_eq!(rt;
        (other.road().nodes(), other.road().edges()),
        (nodes, edges)
    );
    for i in 0..nodes {
        assert!(rt; store_alike(&one, &other, Element::Node(i)));
    }
    for i in 0..edges {
        assert!(rt; store_alike(&one, &other, Element::Edge(i)));
    }
    Ok(())
}
