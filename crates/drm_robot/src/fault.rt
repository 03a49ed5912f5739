//! Why bytes are no robot.
ghost use Rattle.std.specs.Prelude.{◌≡◌, Some};
ghost use Rattle.std.specs.Fmt.{DisplaysOnOk};
ghost use Rattle.drm_robot.specs.Fields.{key_of};
ghost use Rattle.drm_robot.specs.FaultText.{fault_text, lack_of, field_text};
ghost use Rattle.drm_robot.specs.declared.fault.RobotFault.TheVariants.{Memory as no_memory, Arm as bad_arm, Grid as bad_grid};

use drm_arm::ArmFault;
use drm_grid::GridFault;
use std::alloc::AllocFailed;
use std::error::Error;
use std::fmt;

/// A member of the JSON object of a robot, or of one of its links.
#[derive(Debug, Clone, Copy, PartialEq, Eq)]
pub enum FieldName {
    /// `links`, an array of objects.
    Links,
    /// `len` of a link, a whole number below 2^32.
    Len,
    /// `radius` of a link, a whole number below 2^32.
    Radius,
    /// `lo` of a link, a whole number from -2^31 to 2^31 - 1.
    Lo,
    /// `hi` of a link, a whole number from -2^31 to 2^31 - 1.
    Hi,
    /// `side`, a whole number below 2^32.
    Side,
    /// `cells`, a whole number below 2^32.
    Cells,
    /// `seed`, a whole number below 2^64.
    Seed,
    /// `draws`, a whole number from 1 to 2,048.
    Draws,
    /// `near`, a whole number from 1 to 16.
    Near,
}

impl FieldName {
    /// The key under which the field stands in its object.
    pub fn key(self) -> &'static str
        ensures { result.now ≡ key_of self }
    {
        match self {
            FieldName::Links => "links",
            FieldName::Len => "len",
            FieldName::Radius => "radius",
            FieldName::Lo => "lo",
            FieldName::Hi => "hi",
            FieldName::Side => "side",
            FieldName::Cells => "cells",
            FieldName::Seed => "seed",
            FieldName::Draws => "draws",
            FieldName::Near => "near",
        }
    }

    /// What is said behind the key where the field is at fault.
    fn lack(self) -> &'static str
        ensures { result.now ≡ lack_of self }
    {
        match self {
            FieldName::Links => "is missing or no array of objects",
            FieldName::Len | FieldName::Radius | FieldName::Lo | FieldName::Hi => {
                "of a link is missing or out of its range"
            }
            FieldName::Side
            | FieldName::Cells
            | FieldName::Seed
            | FieldName::Draws
            | FieldName::Near => "is missing or out of its range",
        }
    }
}

/// Why bytes are no robot. Where several rules are broken, the first variant below counts.
#[derive(Debug, Clone, Copy, PartialEq, Eq)]
pub enum RobotFault {
    /// The bytes are no JSON value, or one that is no object.
    Json,
    /// The field is missing or not of its kind. The fields are looked at in the order links, side, cells, seed, draws,
    /// near; the links one after another, and in each of them len, radius, lo, hi. A link that is no object is named
    /// `Links`, as is a list of links that is no array.
    Field(FieldName),
    /// The links are no arm.
    Arm(ArmFault),
    /// The side and the number of rows are no grid.
    Grid(GridFault),
    /// The arm does not stay within the grid.
    Fit,
    /// There was no memory to read the bytes.
    Memory,
}

impl fmt::Display for RobotFault {
    ghost output = { λ fault. Some (fault_text fault) };

    fn fmt<W: fmt::Write>(&self, f: &mut fmt::Formatter<W>) -> fmt::Result {
        match *self {
            RobotFault::Json => f.write_str("the bytes are no JSON object"),
            RobotFault::Field(name) => write_field(name, f),
            RobotFault::Arm(fault) => write!(f, "{fault}"),
            RobotFault::Grid(fault) => write!(f, "{fault}"),
            RobotFault::Fit => f.write_str("the arm, stretched out, leaves the grid"),
            RobotFault::Memory => f.write_str("there was no memory to read the robot"),
        }
    }
}

impl Error for RobotFault {}

fn write_field<W: fmt::Write>(name: FieldName, f: &mut fmt::Formatter<W>) -> fmt::Result
    ensures { DisplaysOnOk W.write_str_gives f.old result (Some (field_text name)) f.new }
{
    let (key, lack) = (name.key(), name.lack());
    write!(f, "the field \"{key}\" {lack}")
}

impl<T: Drop> From<AllocFailed<T>> for RobotFault {
    ghost from_gives = { λ _ fault. fault ≡ no_memory };

    fn from(_: AllocFailed<T>) -> RobotFault {
        RobotFault::Memory
    }
}

impl From<ArmFault> for RobotFault {
    ghost from_gives = { λ arm fault. fault ≡ bad_arm arm };

    fn from(fault: ArmFault) -> RobotFault {
        RobotFault::Arm(fault)
    }
}

impl From<GridFault> for RobotFault {
    ghost from_gives = { λ grid fault. fault ≡ bad_grid grid };

    fn from(fault: GridFault) -> RobotFault {
        RobotFault::Grid(fault)
    }
}
