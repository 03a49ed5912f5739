use super::*;
use std::test::Fail;

const fn link(len: u32, radius: u32, lo: i32, hi: i32) -> Link {
    Link {
        len,
        radius,
        lo,
        hi,
    }
}

#[test]
fn first_rule_that_is_broken(rt: HostRuntime) -> Result<(), Fail> {
    let good = link(400, 40, -1024, 1024);
    assert_eq!(rt; Arm::new(&[]), Err(ArmFault::Count(0)));
    assert_eq!(rt;
        Arm::new(&[good, good, good, good, good, good, good]),
        Err(ArmFault::Count(7))
    );
    assert_eq!(rt;
        Arm::new(&[link(400, 513, 0, 0), link(0, 0, 0, 0)]),
        Err(ArmFault::Length(1))
    );
    assert_eq!(rt; Arm::new(&[link(4097, 0, 0, 0)]), Err(ArmFault::Length(0)));
    assert_eq!(rt;
        Arm::new(&[good, link(1, 513, 1, 0), good]),
        Err(ArmFault::Radius(1))
    );
    assert_eq!(rt;
        Arm::new(&[good, good, link(1, 512, 1, 0)]),
        Err(ArmFault::Limits(2))
    );
    assert_eq!(rt;
        Arm::new(&[link(1, 0, -4097, 0), link(1, 0, 0, 4097)]),
        Err(ArmFault::Limits(0))
    );
    assert_eq!(rt;
        Arm::new(&[link(4096, 0, 0, 0), link(1, 0, 0, 0)]),
        Err(ArmFault::Reach(4097))
    );

    let arm = Arm::new(&[link(4095, 512, -4096, 4096), link(1, 0, 7, 7)])
        .ok()
        .ok_or("an arm")?;
    assert_eq!(rt; (arm.links(), arm.reach()), (2, 4096));
    assert_eq!(rt; arm.config(&[0]), Err(ConfigFault::Count(1)));
    assert_eq!(rt; arm.config(&[4097, 8]), Err(ConfigFault::Joint(0)));
    assert_eq!(rt; arm.config(&[0, 8]), Err(ConfigFault::Joint(1)));

    Ok(())
}

#[test]
fn distance_of_two_configurations(rt: HostRuntime) -> Result<(), Fail> {
    let arm = Arm::new(&[link(10, 0, -4096, 4096), link(10, 0, -4096, 4096)])
        .ok()
        .ok_or("an arm")?;
    let a = arm.config(&[-100, 300]).ok().ok_or("within limits")?;
    let b = arm.config(&[512, 100]).ok().ok_or("within limits")?;
    assert_eq!(rt; a.joints(), 2);
    assert_eq!(rt; b.joints(), 2);
    assert_eq!(rt; (a.at(0), a.at(1)), (-100, 300));
    assert_eq!(rt;
        (length(&a, &b), length(&b, &a), length(&a, &a)),
        (812, 812, 0)
    );
    assert_eq!(rt; (a == b, a == a), (false, true));
    Ok(())
}
