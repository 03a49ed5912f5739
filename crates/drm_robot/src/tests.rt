use super::*;
use drm_arm::ArmFault;
use drm_grid::GridFault;
use std::test::Fail;

/// The table's objects differ from this one: three links and the rest in order.
const ROBOT: &str = r#"{"links":[{"len":400,"radius":40,"lo":-1024,"hi":1024},
    {"len":300,"radius":40,"lo":-1024,"hi":1024},{"hi":1024,"lo":-1024,"radius":40,"len":200}],
    "side":128,"cells":16,"seed":7,"draws":150,"near":6}"#;

#[test]
fn robot_of_three_links(rt: HostRuntime) -> Result<(), Fail> {
    let robot = read(rt.alloc(), ROBOT.as_bytes()).ok().ok_or("a robot")?;
    assert_eq!(rt; robot.arm.links(), 3);
    assert_eq!(rt; robot.arm.reach(), 900);
    assert_eq!(rt; robot.grid.cells(), 256);
    assert_eq!(rt; (robot.seed, robot.draws, robot.near), (7, 150, 6));
    Ok(())
}

fn fault(rt: &HostRuntime, text: &str) -> Option<RobotFault> {
    read(rt.alloc(), text.as_bytes()).err()
}

#[test]
fn first_fault_in_order(rt: HostRuntime) {
    let table = [
        ("", RobotFault::Json),
        ("[1]", RobotFault::Json),
        ("{\"side\":1e999}", RobotFault::Json),
        ("{}", RobotFault::Field(FieldName::Links)),
        ("{\"links\":[7]}", RobotFault::Field(FieldName::Links)),
        (
            "{\"links\":[{\"len\":4e2}]}",
            RobotFault::Field(FieldName::Len),
        ),
        (
            "{\"links\":[{\"len\":1,\"radius\":-1}]}",
            RobotFault::Field(FieldName::Radius),
        ),
        (
            "{\"links\":[{\"len\":1,\"radius\":1,\"lo\":-2147483649}, 5]}",
            RobotFault::Field(FieldName::Lo),
        ),
        (
            "{\"links\":[],\"side\":128.0}",
            RobotFault::Field(FieldName::Side),
        ),
        (
            "{\"links\":[],\"side\":7,\"cells\":4294967296}",
            RobotFault::Field(FieldName::Cells),
        ),
        (
            "{\"links\":[],\"side\":7,\"cells\":7,\"seed\":0,\"draws\":2049}",
            RobotFault::Field(FieldName::Draws),
        ),
        (
            "{\"links\":[],\"side\":7,\"cells\":7,\"seed\":0,\"draws\":1,\"near\":0}",
            RobotFault::Field(FieldName::Near),
        ),
        (
            "{\"links\":[],\"side\":7,\"cells\":7,\"seed\":0,\"draws\":1,\"near\":1}",
            RobotFault::Arm(ArmFault::Count(0)),
        ),
        (
            "{\"links\":[{\"len\":200,\"radius\":20,\"lo\":0,\"hi\":0}],\"side\":7,\"cells\":7,\"seed\":0,\"draws\":1,\"near\":1}",
            RobotFault::Grid(GridFault::Side),
        ),
        (
            "{\"links\":[{\"len\":200,\"radius\":20,\"lo\":0,\"hi\":0}],\"side\":128,\"cells\":2,\"seed\":0,\"draws\":1,\"near\":1}",
            RobotFault::Fit,
        ),
    ];
    for (text, expected) in table {
        assert_eq!(rt; fault(&rt, text), Some(expected));
    }
}
