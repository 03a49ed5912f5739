//! Why a command is refused, where nothing failed.

ghost use Rattle.std.specs.Prelude.{◌≡◌, ◌++◌, IfOk, OnOk, codes, string_bytes};
ghost use Rattle.drm_command.specs.Refusal.{told, line_of};
ghost use Rattle.drm_command.specs.Texts.{arm_text, robot_text, map_text, cell_text};

use crate::limits::{LOG_LIMIT, MAP_LIMIT, ROBOT_LIMIT};
use crate::status::{NO_COMMAND, NO_LOG, NO_MAP, NO_ROBOT, REFUTED, TOO_LONG};
use drm_arm::ArmFault;
use drm_grid::GridFault;
use drm_mapfile::FileFault;
use drm_outside::Memory;
use drm_robot::RobotFault;
use drm_talk::Element;
use std::alloc::Global;

/// A refusal, whose text is to be written.
#[derive(Clone, Copy, Debug, PartialEq, Eq)]
pub enum Refusal {
    /// The words are no command.
    NoCommand,
    /// The loaded bytes are no robot: the first fault.
    NoRobot(RobotFault),
    /// The loaded bytes are no map file: the first fault.
    NoMap(FileFault),
    /// This line of the log, counted from 1, is not in the grammar, and all lines before it are served.
    NoLog(u32),
    /// This line of the log, counted from 1, is in the grammar and not served, and all lines before it are served.
    Unserved(u32),
    /// The robot has more bytes than its limit.
    LongRobot,
    /// The map file has more bytes than its limit.
    LongMap,
    /// The log has more bytes than its limit.
    LongLog,
    /// The log has more lines than its limit: how many.
    LongLines(u64),
    /// The sweeps of the robot's map have more cells than a map may have: how many.
    LongSweeps(u64),
    /// The first element at fault, and the least cell that its stored sweep lacks.
    Lacks(Element, u32),
    /// The first element at fault, which lacks no cell, and the least cell of its stored sweep that it does not sweep.
    Loose(Element, u32),
}

impl Refusal {
    /// The status where all of the text was written.
    pub fn status(&self) -> u8
        ensures { result ≡ (told self.now).status }
    {
        match self {
            Refusal::NoCommand => NO_COMMAND,
            Refusal::NoRobot(_) => NO_ROBOT,
            Refusal::NoMap(_) => NO_MAP,
            Refusal::NoLog(_) | Refusal::Unserved(_) => NO_LOG,
            Refusal::LongRobot | Refusal::LongMap | Refusal::LongLog => TOO_LONG,
            Refusal::LongLines(_) | Refusal::LongSweeps(_) => TOO_LONG,
            Refusal::Lacks(_, _) | Refusal::Loose(_, _) => REFUTED,
        }
    }

    /// The line of the refusal: its text and a line feed.
    pub fn line(&self, alloc: Global) -> Result<Vec<u8>, Memory>
        ensures { IfOk result (λ line. line.items ≡ line_of self.now) }
    {
        let mut line = String::new(alloc);
        put_text(&mut line, self)?;
        line.push_str("\n")?;
        Ok(line.into_bytes())
    }
}

fn put_text(text: &mut String, refusal: &Refusal) -> Result<(), Memory>
    ensures { OnOk result (string_bytes text.new ≡ string_bytes text.old ++ (told refusal.now).text) }
{
    match refusal {
        Refusal::NoCommand => text.push_str("words")?,
        Refusal::NoRobot(fault) => put_robot_fault(text, fault)?,
        Refusal::NoMap(fault) => put_map_fault(text, fault)?,
        Refusal::NoLog(line) | Refusal::Unserved(line) => write!(text, "log {line}")?,
        Refusal::LongRobot => write!(text, "too long robot {ROBOT_LIMIT}")?,
        Refusal::LongMap => write!(text, "too long map {MAP_LIMIT}")?,
        Refusal::LongLog => write!(text, "too long log {LOG_LIMIT}")?,
        Refusal::LongLines(lines) => write!(text, "too long lines {lines}")?,
        Refusal::LongSweeps(entries) => write!(text, "too long sweeps {entries}")?,
        Refusal::Lacks(element, cell) => put_cell(text, "lacks", element, *cell)?,
        Refusal::Loose(element, cell) => put_cell(text, "loose", element, *cell)?,
    }
    Ok(())
}

fn put_robot_fault(text: &mut String, fault: &RobotFault) -> Result<(), Memory>
    ensures { OnOk result (string_bytes text.new ≡ string_bytes text.old ++ robot_text fault.now) }
{
    match fault {
        RobotFault::Json => text.push_str("robot json")?,
        RobotFault::Field(name) => put_field(text, name.key())?,
        RobotFault::Arm(fault) => put_arm_fault(text, fault)?,
        RobotFault::Grid(GridFault::Side) => text.push_str("robot grid side")?,
        RobotFault::Grid(GridFault::Count) => text.push_str("robot grid cells")?,
        RobotFault::Fit => text.push_str("robot fit")?,
        RobotFault::Memory => text.push_str("robot memory")?,
    }
    Ok(())
}

/// Writes that the field of this key is at fault.
fn put_field(text: &mut String, key: &str) -> Result<(), Memory>
    ensures { OnOk result (string_bytes text.new ≡ string_bytes text.old ++ (codes "robot field " ++ key.now)) }
{
    text.push_str("robot field ")?;
    text.push_str(key)?;
    Ok(())
}

fn put_arm_fault(text: &mut String, fault: &ArmFault) -> Result<(), Memory>
    ensures { OnOk result (string_bytes text.new ≡ string_bytes text.old ++ arm_text fault.now) }
{
    match fault {
        ArmFault::Count(links) => write!(text, "robot arm count {links}")?,
        ArmFault::Length(link) => write!(text, "robot arm length {link}")?,
        ArmFault::Radius(link) => write!(text, "robot arm radius {link}")?,
        ArmFault::Limits(link) => write!(text, "robot arm limits {link}")?,
        ArmFault::Reach(reach) => write!(text, "robot arm reach {reach}")?,
    }
    Ok(())
}

fn put_map_fault(text: &mut String, fault: &FileFault) -> Result<(), Memory>
    ensures { OnOk result (string_bytes text.new ≡ string_bytes text.old ++ map_text fault.now) }
{
    match fault {
        FileFault::Magic => text.push_str("map magic")?,
        FileFault::Version(version) => write!(text, "map version {version}")?,
        FileFault::Short(place) => write!(text, "map short {place}")?,
        FileFault::Field(place) => write!(text, "map field {place}")?,
        FileFault::Excess(place) => write!(text, "map excess {place}")?,
        FileFault::Memory => text.push_str("map memory")?,
    }
    Ok(())
}

/// Writes what is found of an element and one of its cells.
fn put_cell(text: &mut String, found: &str, element: &Element, cell: u32) -> Result<(), Memory>
    ensures { OnOk result (string_bytes text.new ≡ string_bytes text.old ++ (found.now ++ cell_text element.now cell)) }
{
    text.push_str(found)?;
    match element {
        Element::Node(number) => write!(text, " node {number} {cell}")?,
        Element::Edge(number) => write!(text, " edge {number} {cell}")?,
    }
    Ok(())
}
