//! What the faults of arms and of configurations print: the rule that is broken, its place, and the limit.
ghost use Rattle.std.specs.Prelude.{Some};
ghost use Rattle.drm_arm.specs.FaultTexts.{arm_fault_text, config_fault_text};

use crate::arm::{
    ArmFault, MAX_COORDINATE, MAX_LENGTH, MAX_LINKS, MAX_RADIUS, MAX_REACH, MIN_COORDINATE,
};
use crate::config::ConfigFault;
use std::error::Error;
use std::fmt;

impl fmt::Display for ArmFault {
    ghost output = { λ fault. Some (arm_fault_text fault) };

    fn fmt<W: fmt::Write>(&self, f: &mut fmt::Formatter<W>) -> fmt::Result {
        match *self {
            ArmFault::Count(count) => {
                write!(
                    f,
                    "there are {count} links, and an arm has 1 to {MAX_LINKS}"
                )
            }
            ArmFault::Length(link) => write!(f, "link {link}: the length is not 1 to {MAX_LENGTH}"),
            ArmFault::Radius(link) => write!(f, "link {link}: the radius is over {MAX_RADIUS}"),
            ArmFault::Limits(link) => write!(
                f,
                "link {link}: the limits of the joint are out of order, or not within {MIN_COORDINATE} to {MAX_COORDINATE}"
            ),
            ArmFault::Reach(sum) => write!(
                f,
                "the lengths of the links add up to {sum}, which is over {MAX_REACH}"
            ),
        }
    }
}

impl Error for ArmFault {}

impl fmt::Display for ConfigFault {
    ghost output = { λ fault. Some (config_fault_text fault) };

    fn fmt<W: fmt::Write>(&self, f: &mut fmt::Formatter<W>) -> fmt::Result {
        match *self {
            ConfigFault::Count(count) => {
                write!(
                    f,
                    "there are {count} coordinates, and not one for each joint"
                )
            }
            ConfigFault::Joint(joint) => {
                write!(
                    f,
                    "joint {joint}: the coordinate is outside the joint's limits"
                )
            }
        }
    }
}

impl Error for ConfigFault {}
