use super::*;
use drm_arm::{Arm, Config, Link};
use drm_outside::{List, Memory};
use drm_talk::Element;
use std::alloc::Global;
use std::test::Fail;

const fn link(lo: i32, hi: i32) -> Link {
    Link {
        len: 10,
        radius: 0,
        lo,
        hi,
    }
}

fn node(arm: &Arm, values: &[i32]) -> Result<Config, Fail> {
    Ok(arm.config(values).ok().ok_or("within limits")?)
}

fn coordinate(config: &Config, j: u32) -> Option<i32> {
    if j < config.joints() {
        Some(config.at(j))
    } else {
        None
    }
}

/// Where a joint begins and ends in the motion of an edge.
fn ends(road: &Road, edge: u32, j: u32) -> Option<(i32, i32)> {
    if edge >= road.edges() {
        return None;
    }
    let motion = road.motion(Element::Edge(edge));
    Some((coordinate(&motion.from, j)?, coordinate(&motion.to, j)?))
}

/// Where a joint stands in the motion of a node.
fn stand(road: &Road, node: u32, j: u32) -> Option<(i32, i32)> {
    if node >= road.nodes() {
        return None;
    }
    let motion = road.motion(Element::Node(node));
    Some((coordinate(&motion.from, j)?, coordinate(&motion.to, j)?))
}

fn drawn(alloc: Global, arm: &Arm) -> Result<(List<Config>, List<Edge>), Memory> {
    let nodes = sample(alloc, arm, 11, 8)?;
    let edges = pairs(alloc, nodes.as_slice(), 1)?;
    Ok((nodes, edges))
}

#[test]
fn weights_of_a_roadmap(rt: HostRuntime) -> Result<(), Fail> {
    let alloc = rt.alloc();
    let arm = Arm::new(&[link(-4096, 4096), link(-4096, 4096)])
        .ok()
        .ok_or("an arm")?;
    let nodes = vec![in alloc;
        node(&arm, &[0, 0])?,
        node(&arm, &[-100, 300])?,
        node(&arm, &[512, 512])?,
        node(&arm, &[300, 0])?,
    ]?;
    let edges = vec![in alloc;
        Edge { a: 0, b: 1 },
        Edge { a: 0, b: 3 },
        Edge { a: 1, b: 2 },
        Edge { a: 2, b: 3 },
    ]?;
    let road = Road::new(alloc, List::from_vec(nodes), List::from_vec(edges))
        .ok()
        .ok_or("a roadmap")?;
    assert_eq!(rt; (road.nodes(), road.edges()), (4, 4));
    assert_eq!(rt;
        (
            road.weight(0),
            road.weight(1),
            road.weight(2),
            road.weight(3)
        ),
        (400, 300, 824, 724)
    );
    assert_eq!(rt; ends(&road, 2, 1), Some((300, 512)));
    assert_eq!(rt; stand(&road, 3, 0), Some((300, 300)));
    Ok(())
}

#[test]
fn drawn_nodes_and_their_edges(rt: HostRuntime) -> Result<(), Fail> {
    let alloc = rt.alloc();
    let arm = Arm::new(&[link(-2, 2), link(7, 7)]).ok().ok_or("an arm")?;
    let (nodes, edges) = drawn(alloc, &arm).ok().ok_or("memory")?;
    let firsts = [2, 1, -2, -1, 0];
    assert_eq!(rt; nodes.as_slice().len(), 5);
    for (node, first) in nodes.as_slice().iter().zip(firsts) {
        assert_eq!(rt; coordinate(node, 0), Some(first));
    }
    let joined = [(0, 1), (1, 4), (2, 3)];
    assert_eq!(rt; edges.as_slice().len(), 3);
    for (edge, (a, b)) in edges.as_slice().iter().zip(joined) {
        assert_eq!(rt; (edge.a, edge.b), (a, b));
    }
    Ok(())
}
