//! The words that callers and the planner speak in: log lines, replies, reports, and the entries of a history.
#![tactic(auto)]

ghost use Rattle.std.specs.Prelude.{◌≡◌};
ghost use Rattle.drm_talk.specs.Limits.{slots, full};
ghost use Rattle.drm_talk.specs.History.{LegalHistoriesGoOn};

use drm_outside::List;
use drm_shape::Shape;

/// The number of slots. A slot holds at most one obstacle.
pub const SLOTS: u16 = 1_024;

/// The greatest number of accepted edits of one history.
pub const FULL: u32 = 65_536;

/// A law: the limits of the code are those of which the definitions speak, 1,024 slots and 65,536 edits.
pub fn limits_are_those_defined()
    ensures slots { SLOTS ≡ slots }
    ensures full { FULL ≡ full }
{}

/// A law: a legal history stays legal with one more entry, where that entry may follow it.
pub fn legal_histories_go_on()
    ensures { LegalHistoriesGoOn }
{}

/// An element of the roadmap, by its number among the nodes or among the edges.
#[derive(Clone, Copy, Debug, PartialEq, Eq)]
pub enum Element {
    /// A node, which is a configuration of the arm.
    Node(u32),
    /// An edge, which is a motion between two nodes.
    Edge(u32),
}

/// One accepted edit. Histories are lists of entries.
#[derive(Clone, Copy, Debug, PartialEq, Eq)]
pub struct Entry {
    /// Who made the edit.
    pub caller: u32,
    /// The number of the edit among its caller's accepted edits, from 1.
    pub seq: u32,
    /// The slot whose content changes.
    pub slot: u16,
    /// What the slot holds from then on: `None` is a delete.
    pub shape: Option<Shape>,
}

/// What a log line asks for.
#[derive(Debug, Drop)]
pub enum Act {
    /// Puts the shape into the slot, in place of what it holds.
    Put(u16, Shape),
    /// Empties the slot.
    Del(u16),
    /// Asks how many cells of the element's stored sweep are occupied.
    Count(Element),
    /// Asks for a way from the first configuration, the start, to the second, the goal. Each has one coordinate for each
    /// joint of the arm.
    Ask(List<i32>, List<i32>),
    /// Asks for the length of the history now.
    Sync,
    /// Lets the caller's mover take its next step.
    Tick,
}

/// One line of a log.
#[derive(Debug, Drop)]
pub struct Line {
    /// Who asks.
    pub caller: u32,
    /// What for.
    pub act: Act,
}

/// One of the two configurations of an ask.
#[derive(Clone, Copy, Debug, PartialEq, Eq)]
pub enum Side {
    /// The first one, where the way begins.
    Start,
    /// The second one, where the way ends.
    Goal,
}

/// Why a node does not join an end of an ask to the roadmap.
#[derive(Clone, Copy, Debug, PartialEq, Eq)]
pub enum Why {
    /// The node is barred.
    Barred,
    /// This is the least occupied cell that the joining motion sweeps.
    Cell(u32),
}

/// A node that was tried, and was refused.
#[derive(Clone, Copy, Debug, PartialEq, Eq)]
pub struct Tried {
    /// The node.
    pub node: u32,
    /// Why it was refused.
    pub why: Why,
}

/// How the start or the goal of an ask is joined to the roadmap.
#[derive(Debug, Drop)]
pub struct End {
    /// The node that joins it, its attachment.
    pub node: u32,
    /// The nodes that were tried before, in their order. There are at most 12.
    pub tried: List<Tried>,
}

/// The answer to an ask.
#[derive(Debug, Drop)]
pub enum Answer {
    /// There is a way.
    Path {
        /// How the start is joined.
        start: End,
        /// How the goal is joined.
        goal: End,
        /// The length of the route between the two attachments.
        length: u64,
        /// The nodes of the route, from the start's attachment to the goal's.
        nodes: List<u32>,
        /// For each node of the roadmap its least distance from the start's attachment, where it has one.
        labels: List<Option<u64>>,
    },
    /// No route joins the two attachments.
    Cut {
        /// How the start is joined.
        start: End,
        /// How the goal is joined.
        goal: End,
        /// The nodes on the start's side: every edge between them and the rest is barred.
        side: List<u32>,
    },
    /// The start is not joined.
    NoStart {
        /// All nodes that were tried.
        tried: List<Tried>,
    },
    /// The goal is not joined.
    NoGoal {
        /// All nodes that were tried.
        tried: List<Tried>,
    },
    /// An edge of the route is not barred, and yet sweeps an occupied cell: the map's stored sweep lacks that cell.
    Unsound {
        /// How the start is joined.
        start: End,
        /// How the goal is joined.
        goal: End,
        /// The first such edge of the route.
        edge: u32,
        /// The least occupied cell that it sweeps.
        cell: u32,
    },
}

/// The reply to one line. The first number, where there is one and nothing else is said, is a length of the history.
#[derive(Debug, Drop)]
pub enum Reply {
    /// The put was accepted, as the entry of this number.
    Put(u32),
    /// The delete was accepted, as the entry of this number.
    Del(u32),
    /// The slot is `SLOTS` or more.
    Slot,
    /// The history has this length, and takes no more.
    Full(u32),
    /// The slot was empty after this many entries.
    Empty(u32),
    /// After this many entries (the first number), this many cells of the element's sweep are occupied.
    Count(u32, u32),
    /// The map has no such element.
    Absent,
    /// There was no memory for the line, and nothing was changed.
    Memory,
    /// The history has this length now.
    Sync(u32),
    /// This joint of this configuration of the ask, counted from 0, is outside the arm's limits. It is the first such
    /// one, the start's joints before the goal's. It names no length.
    Limits(Side, u32),
    /// The mover's shape was put into its slot, as the entry of this number.
    TickPut(u32, u16, Shape),
    /// The mover has ended, and its slot was emptied, as the entry of this number.
    TickDel(u32, u16),
    /// The caller has no mover, or it has ended before.
    TickIdle,
    /// The mover's shape is not valid.
    TickShape,
    /// The mover's slot is `SLOTS` or more.
    TickSlot,
    /// The mover's edit was refused: the history has this length, and takes no more.
    TickFull(u32),
    /// The mover has ended, and its slot was empty already after this many entries.
    TickEmpty(u32, u16),
    /// The answer to an ask over the obstacles after this many entries.
    Ask(u32, Answer),
}

/// The replies to a log in its order, and the end: the number of accepted edits, and how many nodes and edges are
/// barred after them.
#[derive(Debug, Drop)]
pub struct Report {
    /// One reply to each line, in the order of the log.
    pub replies: List<Reply>,
    /// The number of accepted edits.
    pub number: u32,
    /// How many nodes are barred.
    pub nodes: u32,
    /// How many edges are barred.
    pub edges: u32,
}
